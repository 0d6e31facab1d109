//! Whether the inputs so far are admissible.
ghost use Rattle.std.specs.Prelude.{◌≤◌, ◌<◌, All, IfOk};
ghost use Rattle.bit_blast.specs.Made.{Adds, IfFull, Overfills};
ghost use Rattle.unroll_cnf.specs.Made.{word_at};
ghost use Rattle.goal_cnf.specs.Goal.{adm_circuit};
ghost use Rattle.goal_cnf.specs.Made.{HasBitBelow};

use crate::place::bit;
use bit_blast::{BlastFault, Maker};
use cnf_form::Lit;
use op_network::EdgeId;
use std::alloc::Global;
use unroll_cnf::Unrolled;

/// The literal `adm` of the instant before, and each assert edge's bit, in order.
pub(crate) fn admitted(
    alloc: Global,
    maker: &mut Maker,
    un: &Unrolled,
    asserts: &[EdgeId],
    t: u32,
    adm: Lit,
) -> Result<Lit, BlastFault>
    requires bits { All (HasBitBelow un.now t un.now.formula.vars) asserts.now }
    requires grown { un.now.formula.vars ≤ maker.old.vars }
    requires adm { adm.var < maker.old.vars }
    ensures made { let now = word_at un.now.words t in IfOk result
        (Adds maker.old maker.new (λ n. adm_circuit n now adm asserts.now)) }
    ensures full { let now = word_at un.now.words t in IfFull result
        (Overfills maker.old (λ n. adm_circuit n now adm asserts.now)) }
    ensures below { IfOk result (λ lit. lit.var < maker.new.vars) }
    ensures more { maker.old.vars ≤ maker.new.vars }
{
    let mut admitted = adm;
    for e in asserts {
        admitted = maker.and_gate(alloc, admitted, bit(un, *e, t))?;
    }
    Ok(admitted)
}
