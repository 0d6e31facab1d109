ghost use Rattle.std.specs.Prelude.{◌≡◌, ℕ, ◌<◌, IsTrue, IfSome, OnOk, OnErr};
ghost use Rattle.cnf_form.specs.Lits.{below};

use cnf_form::Lit;
use cov_base::Memory;

/// A rule by which a solver decides: it is told the clauses that the solver learns, and picks the
/// literals that the solver sets true. A solver is right whatever is picked.
pub trait Chooser: Drop {
    /// The number of variables.
    ghost size: { Self → ℕ };

    /// Begins over variables 0 to `vars` - 1. This call alone may take memory; answers `Memory` for
    /// want of it.
    fn begin(&mut self, vars: u32) -> Result<(), Memory>
        ensures ok { OnOk result (size self.new ≡ vars) }
        ensures err { OnErr result (size self.new ≡ size self.old) };

    /// The literal to be set true next, of one of the variables. With none the solver decides by
    /// itself, and so it does where the variable is set already.
    fn pick(&mut self) -> Option<Lit>
        ensures inside { IfSome result (λ lit. lit.var < size self.old) }
        ensures size { size self.new ≡ size self.old };

    /// A clause was learnt, whose literals are of the variables.
    fn learnt(&mut self, lits: &[Lit])
        requires { IsTrue (below (size self.old) lits.now) }
        ensures { size self.new ≡ size self.old };
}
