ghost use Rattle.std.specs.Prelude.{◌≡◌, [], OnOk, OnErr, IfOk};
ghost use Rattle.cnf_form.specs.Lits.{with_lit};

use crate::clause::Clause;
use crate::lit::Lit;
use crate::marks::Marks;
use cov_base::{List, Memory};
use std::alloc::Global;
use std::marker::Model;

/// The literals of a clause that isn't whole yet, each once.
#[derive(Debug, Drop)]
pub struct ClauseBuilder {
    lits: List<Lit>,
    marks: Marks,
}

impl Model for ClauseBuilder {
    ghost use Rattle.std.specs.Prelude.{List as Seq, ◌≡◌, IsTrue};
    ghost use Rattle.cnf_form.specs.declared.lit.Lit.{Lit as Literal};
    ghost use Rattle.cnf_form.specs.Lits.{no_twice};
    ghost use Rattle.cnf_form.specs.Marks.{marked, marks_of};

    ghost Value = { Seq Literal };

    ghost view = { λ b. b.lits };

    ghost invariant = { λ b. IsTrue (no_twice b.lits) × (marked b.marks ≡ marks_of b.lits) };
}

impl ClauseBuilder {
    /// No literals, which take no memory. Constant time.
    pub fn new(alloc: Global) -> ClauseBuilder
        ensures { result ≡ [] }
    {
        ClauseBuilder {
            lits: List::new(alloc),
            marks: Marks::new(alloc),
        }
    }

    /// The literals so far, in constant time.
    pub fn lits(&self) -> &[Lit]
        ensures { result.now ≡ self.now }
    {
        self.lits.as_slice()
    }

    /// Adds a literal at the end, where it isn't among them, or answers `Memory` for want of it.
    /// Constant time over many calls.
    pub fn add(&mut self, lit: Lit) -> Result<(), Memory>
        ensures ok { OnOk result (self.new ≡ with_lit lit self.old) }
        ensures err { OnErr result (self.new ≡ self.old) }
    {
        if self.marks.is_marked(lit) {
            return Ok(());
        }
        let before = self.lits.len();
        self.lits.add(lit)?;
        match self.marks.mark(lit) {
            Ok(()) => Ok(()),
            Err(memory) => {
                self.lits.cut(before);
                Err(memory)
            }
        }
    }

    /// Hands the clause out and begins the next one, or answers `Memory` for want of it. The clause
    /// takes no more room than its literals. The cost is linear in the literals.
    pub fn finish(&mut self, alloc: Global) -> Result<Clause, Memory>
        ensures clause { IfOk result (λ clause. clause ≡ self.old) }
        ensures ok { OnOk result (self.new ≡ []) }
        ensures err { OnErr result (self.new ≡ self.old) }
    {
        let lits = List::from_vec(self.lits.as_slice().to_vec(alloc)?);
        self.lits.cut(0);
        self.marks.clear();
        Ok(Clause::new(lits))
    }
}
