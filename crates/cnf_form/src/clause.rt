ghost use Rattle.std.specs.Prelude.{◌≡◌, IsTrue};
ghost use Rattle.cnf_form.specs.Lits.{no_twice};

use crate::lit::Lit;
use cov_base::List;
use std::marker::Model;

/// Literals, none of them twice. An assignment satisfies a clause where one of its literals is
/// true.
#[derive(Debug, Drop)]
pub struct Clause {
    lits: List<Lit>,
}

impl Model for Clause {
    ghost use Rattle.std.specs.Prelude.{List as Seq, ◌≡◌, IsTrue};
    ghost use Rattle.cnf_form.specs.declared.lit.Lit.{Lit as Literal};
    ghost use Rattle.cnf_form.specs.Lits.{no_twice};

    ghost Value = { Seq Literal };

    ghost view = { λ c. c.lits };

    ghost invariant = { λ c. IsTrue (no_twice c.lits) };
}

impl Clause {
    /// The clause of literals of which none stands twice. Constant time.
    pub fn new(lits: List<Lit>) -> Clause
        requires { IsTrue (no_twice lits) }
        ensures { result ≡ lits }
    {
        Clause { lits }
    }

    /// The literals, in constant time.
    pub fn lits(&self) -> &[Lit]
        ensures lits { result.now ≡ self.now }
        ensures once { IsTrue (no_twice self.now) }
    {
        self.lits.as_slice()
    }
}
