ghost use Rattle.std.specs.Prelude.{◌≡◌, None};

use crate::chooser::Chooser;
use cnf_form::Lit;
use cov_base::Memory;
use std::marker::Model;

/// The rule that never picks, and so leaves each decision to the solver. Contracts see it as its
/// number of variables.
#[derive(Debug, Drop)]
pub struct Fixed {
    vars: u32,
}

impl Model for Fixed {
    ghost use Rattle.std.specs.Prelude.{ℕ};

    ghost Value = { ℕ };

    ghost view = { λ fixed. fixed.vars };
}

impl Fixed {
    /// The rule over no variables. Constant time, as all its calls.
    pub fn new() -> Fixed
        ensures { result ≡ 0 }
    {
        Fixed { vars: 0 }
    }
}

impl Chooser for Fixed {
    ghost size = { λ fixed. fixed };

    fn begin(&mut self, vars: u32) -> Result<(), Memory>
        ensures answer { result ≡ Ok tt }
        ensures size { self.new ≡ vars }
    {
        self.vars = vars;
        Ok(())
    }

    fn pick(&mut self) -> Option<Lit>
        ensures none { result ≡ None }
        ensures size { self.new ≡ self.old }
    {
        None
    }

    fn learnt(&mut self, _lits: &[Lit])
        ensures { self.new ≡ self.old }
    {}
}
