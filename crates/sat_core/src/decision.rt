//! Decisions.
ghost use Rattle.std.specs.Prelude.{◌≡◌, ◌<◌};
ghost use Rattle.sat_core.specs.Solving.{vars_of, IsFree};

use crate::trail::Trail;
use cnf_form::Lit;
use sat_choose::Chooser;

/// The literal to be decided: what the chooser picks, where it is free, or else the one that is
/// offered.
pub(crate) fn decision(chooser: &mut dyn Chooser, trail: &Trail, offered: Lit) -> Lit
    requires size { size chooser.old ≡ vars_of trail.now }
    requires inside { offered.var < vars_of trail.now }
    requires free { IsFree trail.now offered }
    ensures inside { result.var < vars_of trail.now }
    ensures free { IsFree trail.now result }
    ensures size { size chooser.new ≡ size chooser.old }
{
    match chooser.pick() {
        Some(lit) if trail.is_free(lit) => lit,
        _ => offered,
    }
}
