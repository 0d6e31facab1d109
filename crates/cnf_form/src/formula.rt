ghost use Rattle.std.specs.Prelude.{◌≡◌, ◌<◌, ◌≤◌, [], ◌∷◌, ◌++◌, length, IsTrue, OnOk, OnErr, IfErr};
ghost use Rattle.cnf_form.specs.Limits.{most_vars, most_clauses};
ghost use Rattle.cnf_form.specs.Lits.{below};
ghost use Rattle.cnf_form.specs.Shape.{IsFormula, with_clause};

use crate::clause::Clause;
use cov_base::List;
use std::alloc::Global;
use std::marker::Model;

/// Clauses over variables 0 to `vars` - 1: at most 2,000,000 variables and at most 200,000,000
/// clauses, each literal of which is of one of the variables.
#[derive(Debug, Drop)]
pub struct Formula {
    vars: u32,
    clauses: List<Clause>,
}

impl Model for Formula {
    ghost use Rattle.std.specs.Prelude.{◌≡◌};
    ghost use Rattle.cnf_form.specs.Shape.{Shape, IsFormula, shape};

    ghost Value = { Shape };

    ghost view = { λ f. shape f.vars f.clauses };

    ghost invariant = { λ f. IsFormula (shape f.vars f.clauses) };
}

impl Formula {
    /// A formula of at most 2,000,000 variables without clauses, which takes no memory. Constant
    /// time.
    pub fn new(alloc: Global, vars: u32) -> Formula
        requires { vars ≤ most_vars }
        ensures { result ≡ record { vars = vars; clauses = [] } }
    {
        Formula {
            vars,
            clauses: List::new(alloc),
        }
    }

    /// The number of variables, in constant time.
    pub fn vars(&self) -> u32
        ensures vars { result ≡ self.now.vars }
        ensures formula { IsFormula self.now }
    {
        self.vars
    }

    /// The clauses in order, in constant time.
    pub fn clauses(&self) -> &[Clause]
        ensures clauses { result.now ≡ self.now.clauses }
        ensures formula { IsFormula self.now }
    {
        self.clauses.as_slice()
    }

    /// Sets the number of variables, which is at most 2,000,000 and doesn't fall. Constant time.
    pub fn grow(&mut self, vars: u32)
        requires rises { self.old.vars ≤ vars }
        requires few { vars ≤ most_vars }
        ensures { self.new ≡ record { vars = vars; clauses = self.old.clauses } }
    {
        self.vars = vars;
    }

    /// Adds a clause at the end, or gives it back for want of memory. Its literals are of the
    /// formula's variables, which has fewer than 200,000,000 clauses. Constant time over many
    /// calls.
    pub fn push(&mut self, clause: Clause) -> Result<(), Clause>
        requires inside { IsTrue (below self.old.vars clause) }
        requires few { length self.old.clauses < most_clauses }
        ensures ok { OnOk result (self.new ≡ with_clause clause self.old) }
        ensures err { OnErr result (self.new ≡ self.old) }
        ensures returned { IfErr result (λ back. back ≡ clause) }
    {
        match self.clauses.push(clause) {
            Ok(()) => Ok(()),
            Err(back) => Err(back),
        }
    }
}
