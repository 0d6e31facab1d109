ghost use Rattle.std.specs.Prelude.{◌≡◌, ◌<◌, ◌↔◌, [], false, length, replicate, IsTrue, IfOk, OnOk};
ghost use Rattle.lus_causality.specs.Causality.{operands_now, IsOnCycle, IsLeastOnCycle};
ghost use Rattle.lus_causality.specs.Search.{IsFoundOrTaken, LeadsTo, IsSearch, IsFurther, HasOperands, LeadsFrom, IsCyclic};
ghost use Rattle.lus_causality.specs.Seen.{AreOff};
ghost use Rattle.lus_causality.specs.Taking.{IsTakenList};

use crate::marks::{no_marks, unset};
use crate::off_cycles::off_cycles;
use crate::operands::{count_now, operand_now};
use crate::sequence::{Taken, take};
use cov_base::{List, Memory};
use op_network::{EdgeId, Network};
use std::alloc::Global;

/// Adds an edge to those that are found, if it isn't among them and wasn't taken.
#[tactic(auto, using(crate::proofs::Searching::taken_already, crate::proofs::Searching::found_already, crate::proofs::Searching::same_further, crate::proofs::Searching::one_further, crate::proofs::Searching::last_found))]
fn find(
    network: &Network,
    taken: &[bool],
    e: EdgeId,
    o: EdgeId,
    found: &mut Taken,
) -> Result<(), Memory>
    requires edge { o.0 < length network.now.edges }
    requires size { length taken.now ≡ length network.now.edges }
    requires leads { LeadsTo network.now.edges o e }
    requires before { IsSearch network.now.edges e found.old }
    ensures search { OnOk result (IsSearch network.now.edges e found.new) }
    ensures further { OnOk result (IsFurther found.old found.new) }
    ensures found { OnOk result (IsFoundOrTaken taken.now found.new o) }
{
    if taken[o.0 as usize] {
        return Ok(());
    }
    if found.marks.as_slice()[o.0 as usize] {
        return Ok(());
    }
    take(found, o)?;
    Ok(())
}

/// Adds the operands of an edge at the instant to those that are found, but for those taken.
#[tactic(auto, using(crate::proofs::Searching::no_operand, crate::proofs::Searching::one_operand, crate::proofs::Searching::all_operands, crate::proofs::Searching::same_further, crate::proofs::Searching::further, crate::proofs::Searching::leads_on))]
fn find_operands(
    network: &Network,
    taken: &[bool],
    e: EdgeId,
    b: EdgeId,
    found: &mut Taken,
) -> Result<(), Memory>
    requires edge { b.0 < length network.now.edges }
    requires size { length taken.now ≡ length network.now.edges }
    requires leads { LeadsFrom network.now.edges b e }
    requires before { IsSearch network.now.edges e found.old }
    ensures search { OnOk result (IsSearch network.now.edges e found.new) }
    ensures further { OnOk result (IsFurther found.old found.new) }
    ensures found { OnOk result
        (HasOperands taken.now (operands_now network.now.edges b) found.new) }
{
    for port in 0..count_now(network, b) {
        find(network, taken, e, operand_now(network, b, port), found)?;
    }
    Ok(())
}

/// Whether an edge lies on a cycle, where some edges were taken, and others marked, that lie on
/// none. In constant time where this one was, and else linear. `found` lends its memory.
fn lies_on_cycle(
    network: &Network,
    taken: &Taken,
    off: &[bool],
    e: EdgeId,
    found: &mut Taken,
) -> Result<bool, Memory>
    requires edge { e.0 < length network.now.edges }
    requires off { AreOff network.now.edges off.now }
    requires taken { IsTakenList network.now.edges taken.now }
    requires size { length found.old.marks ≡ length network.now.edges }
    ensures lies { IfOk result (λ lies. IsTrue lies ↔ IsOnCycle network.now.edges e) }
    ensures size { OnOk result (length found.new.marks ≡ length network.now.edges) }
{
    if off[e.0 as usize] {
        return Ok(false);
    }
    if taken.marks.as_slice()[e.0 as usize] {
        return Ok(false);
    }
    found.sequence.cut(0);
    unset(&mut found.marks);
    find_operands(network, taken.marks.as_slice(), e, e, found)?;
    let mut next = 0;
    while next < found.sequence.len() {
        let b = found.sequence.as_slice()[next];
        find_operands(network, taken.marks.as_slice(), e, b, found)?;
        next += 1;
    }
    Ok(found.marks.as_slice()[e.0 as usize])
}

/// The least edge that lies on a cycle, where some edges were taken that lie on none. One linear
/// search for each edge up to it that isn't marked as lying on none: for it alone, since all those
/// below it are.
#[tactic(auto, using(crate::proofs::Searching::none_at_first, crate::proofs::Searching::none_more, crate::proofs::Searching::least_found, crate::proofs::Searching::some_is))]
pub(crate) fn least_on_cycle(
    alloc: Global,
    network: &Network,
    taken: &Taken,
) -> Result<EdgeId, Memory>
    requires cyclic { IsCyclic network.now.edges }
    requires taken { IsTakenList network.now.edges taken.now }
    ensures { IfOk result (IsLeastOnCycle network.now.edges) }
{
    let mut found = Taken {
        sequence: List::new(alloc),
        marks: no_marks(alloc, network.parts().edges.len())?,
    };
    let off = off_cycles(alloc, network)?;
    for e in 0..network.parts().edges.len() {
        if lies_on_cycle(network, taken, off.as_slice(), EdgeId(e as u32), &mut found)? {
            return Ok(EdgeId(e as u32));
        }
    }
    unreachable!()
}
