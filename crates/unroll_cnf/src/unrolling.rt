ghost use Rattle.std.specs.Prelude.{◌≡◌, ◌<◌, ◌≤◌, ◌+◌, ◌*◌, None, Err, All, length, map, option_map, IfOk, IfErr, OnOk};
ghost use Rattle.cnf_form.specs.Limits.{most_vars};
ghost use Rattle.op_network.specs.declared.edge.EdgeId.{EdgeId as Id};
ghost use Rattle.op_network.specs.Valid.{IsValid};
ghost use Rattle.lus_causality.specs.Causality.{IsSequence};
ghost use Rattle.bit_blast.specs.Made.{Adds, IfFull, Overfills};
ghost use Rattle.unroll_cnf.specs.Made.{AreWords, HasRoom, IsGrid, IsRefused, IsUnrolled, Spends, last_of, table_of};
ghost use Rattle.unroll_cnf.specs.Sizes.{costs, size_of};
ghost use Rattle.unroll_cnf.specs.Unrolled as spec;

use crate::costs::size;
use crate::fault::UnrollFault;
use crate::instant::instant;
use crate::unrolled::Unrolled;
use bit_blast::{BlastFault, Maker, Word};
use cov_base::{List, Memory};
use lus_causality::Ordered;
use op_network::{EdgeId, Parts};
use std::alloc::Global;

/// The most variables of a formula.
const MOST_VARS: u64 = 2_000_000;

/// The words of the last instant, if there is one.
fn last(all: &[List<Word>]) -> Option<&[Word]>
    ensures { option_map (λ words. words.now) result ≡ last_of all.now }
{
    match all.last() {
        Some(words) => Some(words.as_slice()),
        None => None,
    }
}

/// The words of so many instants.
fn instants(
    alloc: Global,
    maker: &mut Maker,
    parts: &Parts,
    order: &[EdgeId],
    k: u32,
) -> Result<List<List<Word>>, BlastFault>
    requires valid { IsValid parts.now }
    requires order { IsSequence parts.now.edges order.now }
    requires some { 0 < maker.old.vars }
    requires room { HasRoom maker.old (k * length parts.now.edges) }
    ensures made { IfOk result (λ all. Adds maker.old maker.new
        (λ n. spec.instants parts.now order.now None n k) (map table_of all)) }
    ensures full { IfFull result (Overfills maker.old
        (λ n. spec.instants parts.now order.now None n k)) }
    ensures grid { IfOk result (IsGrid (length parts.now.edges) k) }
    ensures words { IfOk result (All (AreWords parts.now maker.new.vars)) }
    ensures spent { OnOk result (Spends maker.old maker.new (k * length parts.now.edges)) }
{
    let mut all = List::new(alloc);
    for _instant in 0..k {
        let words = instant(alloc, maker, parts, order, last(all.as_slice()))?;
        all.add(words)?;
    }
    Ok(all)
}

/// The formula and the words of a network whose size is at most 2,000,000.
fn unrolled(alloc: Global, parts: &Parts, order: &[EdgeId], k: u32) -> Result<Unrolled, Memory>
    requires valid { IsValid parts.now }
    requires order { IsSequence parts.now.edges order.now }
    requires most { k ≤ 32 }
    requires few { size_of parts.now k ≤ most_vars }
    ensures ok { IfOk result (IsUnrolled parts.now order.now k) }
    ensures vars { IfOk result (λ it. it.formula.vars ≤ 1 + k * costs parts.now) }
    ensures words { IfOk result (λ it. All (AreWords parts.now it.formula.vars) it.words) }
    ensures room { IfOk result (λ it. HasRoom it.formula 1) }
{
    let mut maker = Maker::new(alloc)?;
    match instants(alloc, &mut maker, parts, order, k) {
        Ok(words) => Ok(Unrolled {
            maker,
            edges: parts.edges.len(),
            instants: k,
            words,
        }),
        Err(BlastFault::Memory) => Err(Memory),
        Err(BlastFault::Full) => unreachable!(),
    }
}

/// The formula whose models are the streams of the network over `k` instants, and the words of its
/// edges: variable 0, which is true, and then instant by instant the gates of all edges in the
/// order of the network's sequence. It has at most 1 and `k` times the costs of all edges
/// variables. Each word has the bits of its edge's type, and its literals are of the formula's
/// variables; there is room for the clauses of all 2,000,000 variables and 256 more. `k` is 1 to
/// 32. Assertions aren't asked here. Answers `TooLarge` with the size exactly where that is over
/// 2,000,000, before anything is made, and `Memory` for want of it. The cost is linear in the
/// variables and clauses that are made, and in `k` for each edge.
pub fn unroll(alloc: Global, net: &Ordered, k: u32) -> Result<Unrolled, UnrollFault>
    requires some { 1 ≤ k }
    requires few { k ≤ 32 }
    ensures ok { IfOk result (IsUnrolled net.now.network net.now.sequence k) }
    ensures vars { IfOk result (λ it. it.formula.vars ≤ 1 + k * costs net.now.network) }
    ensures words { IfOk result (λ it. All (AreWords net.now.network it.formula.vars) it.words) }
    ensures room { IfOk result (λ it. HasRoom it.formula 1) }
    ensures size { IfOk result (λ _. size_of net.now.network k ≤ most_vars) }
    ensures large { most_vars < size_of net.now.network k
        → result ≡ Err (UnrollFault.TooLarge (size_of net.now.network k)) }
    ensures err { IfErr result (IsRefused net.now.network k) }
{
    let size = size(net.network(), k);
    if size > MOST_VARS {
        return Err(UnrollFault::TooLarge(size));
    }
    let unrolled = unrolled(alloc, net.network().parts(), net.sequence(), k)?;
    Ok(unrolled)
}
