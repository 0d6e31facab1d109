//! The literals of a path at an instant.
ghost use Rattle.std.specs.Prelude.{◌≡◌, ◌+◌, ◌<◌, ◌≤◌, length, IfOk};
ghost use Rattle.std.specs.Option.{option_map};
ghost use Rattle.bit_blast.specs.Made.{Adds, IfFull, Overfills};
ghost use Rattle.unroll_cnf.specs.Made.{word_at};
ghost use Rattle.goal_cnf.specs.Made.{AreLits, ArePast, CanRead, HasPastLit, HasPlace, IsPathIn};
ghost use Rattle.goal_cnf.specs.Activity as spec;

use crate::place::{bit, pinned, place_behind};
use bit_blast::{BlastFault, Maker};
use cnf_form::Lit;
use cov_base::List;
use dep_paths::{Path, Pin, Step};
use op_network::Parts;
use std::alloc::Global;
use unroll_cnf::Unrolled;

/// The literal at a place of those of the instant before, if there is one.
fn past_lit(before: Option<&[Lit]>, place: u8) -> Option<Lit>
    requires { HasPlace (option_map (λ ls. ls.now) before) place }
    ensures { result
        ≡ option_map (λ ls. spec.lit_at ls place) (option_map (λ ls. ls.now) before.entry) }
{
    match before {
        Some(lits) => Some(lits[place as usize]),
        None => None,
    }
}

/// The literal of the place behind a step, over that of the place before at the instant and those
/// of all places at the instant before.
fn next_place(
    alloc: Global,
    maker: &mut Maker,
    un: &Unrolled,
    parts: &Parts,
    t: u32,
    pin: Option<Pin>,
    place: u8,
    step: Step,
    shorter: Lit,
    before: Option<&[Lit]>,
) -> Result<Lit, BlastFault>
    requires reads { CanRead parts.now un.now t maker.old.vars }
    requires edge { step.edge.0 < length parts.now.edges }
    requires shorter { shorter.var < maker.old.vars }
    requires past { HasPastLit maker.old.vars (option_map (λ ls. ls.now) before) place }
    requires place { place < 64 }
    ensures made { let past = option_map (λ ls. ls.now) before.entry in
        let now = word_at un.now.words t in IfOk result (Adds maker.old maker.new
        (λ n. spec.place_circuit n parts.now.edges pin place step now shorter past)) }
    ensures full { let past = option_map (λ ls. ls.now) before.entry in
        let now = word_at un.now.words t in IfFull result (Overfills maker.old
        (λ n. spec.place_circuit n parts.now.edges pin place step now shorter past)) }
    ensures below { IfOk result (λ lit. lit.var < maker.new.vars) }
    ensures more { maker.old.vars ≤ maker.new.vars }
{
    let form = parts.edges.as_slice()[step.edge.0 as usize].op.form();
    let past = past_lit(before, place);
    place_behind(
        alloc,
        maker,
        un,
        t,
        pin,
        place + 1,
        step,
        form,
        shorter,
        past,
    )
}

/// The literals of a path at an instant, one for each of its places: it tells whether the path up
/// to there is active with what the pin asks. They stand behind those of the instant before.
pub(crate) fn path(
    alloc: Global,
    maker: &mut Maker,
    un: &Unrolled,
    parts: &Parts,
    t: u32,
    pin: Option<Pin>,
    path: &Path,
    before: Option<&[Lit]>,
) -> Result<List<Lit>, BlastFault>
    requires reads { CanRead parts.now un.now t maker.old.vars }
    requires path { IsPathIn parts.now path.now }
    requires past { let size = length path.now.steps + 1 in
        ArePast size maker.old.vars (option_map (λ ls. ls.now) before) }
    ensures made { let past = option_map (λ ls. ls.now) before.entry in
        let now = word_at un.now.words t in IfOk result (Adds maker.old maker.new
        (λ n. spec.path_circuit n parts.now.edges pin path.now now past)) }
    ensures full { let past = option_map (λ ls. ls.now) before.entry in
        let now = word_at un.now.words t in IfFull result (Overfills maker.old
        (λ n. spec.path_circuit n parts.now.edges pin path.now now past)) }
    ensures lits { IfOk result (AreLits (length path.now.steps + 1) maker.new.vars) }
    ensures more { maker.old.vars ≤ maker.new.vars }
{
    let yes = maker.yes();
    let mut shorter = pinned(alloc, maker, pin, 0, bit(un, path.start, t), yes)?;
    let mut lits = List::new(alloc);
    lits.add(shorter)?;
    for (place, step) in path.steps.as_slice().iter().enumerate() {
        let place = place as u8;
        shorter = next_place(
            alloc, maker, un, parts, t, pin, place, *step, shorter, before,
        )?;
        lits.add(shorter)?;
    }
    Ok(lits)
}
