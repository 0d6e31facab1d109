ghost use Rattle.std.specs.Prelude.{◌≡◌, ◌<◌, length, slice_index, OnOk, OnErr, ℕ};
ghost use Rattle.cnf_form.specs.Stamps.{place as place_of, UpTo};

use crate::lit::Lit;
use cov_base::Memory;
use std::alloc::Global;

/// Marks on literals, which are all taken off in constant time: a literal is marked where the stamp
/// at its place is the stamp of now.
#[derive(Debug, Drop)]
pub struct Marks {
    stamps: Vec<u32>,
    stamp: u32,
    ghost begun: { 0 < stamp },
    ghost past: { UpTo stamps.items stamp },
}

impl Marks {
    ghost use Rattle.cnf_form.specs.Marks.{marked, unmarked, with_mark};

    /// No marks, which take no memory. Constant time.
    #[tactic(auto, using(crate::proofs::MarkFacts::stamp_facts))]
    pub fn new(alloc: Global) -> Marks
        ensures { marked result ≡ unmarked }
    {
        Marks {
            stamps: Vec::new(alloc),
            stamp: 1,
        }
    }

    /// Whether a literal is marked. Constant time.
    #[tactic(auto, unfolding(crate::specs::Stamps::stamped))]
    pub fn is_marked(&self, lit: Lit) -> bool
        ensures { result ≡ marked self.now lit }
    {
        let at = place(lit);
        if at < self.stamps.len() {
            self.stamps[at] == self.stamp
        } else {
            false
        }
    }

    /// Marks a literal, or answers `Memory` for want of it. Constant time over many calls, but that
    /// the first mark on a variable greater than all before takes time linear in the variables that
    /// it passes.
    #[tactic(auto, using(crate::proofs::MarkFacts::stamp_facts))]
    pub fn mark(&mut self, lit: Lit) -> Result<(), Memory>
        ensures ok { OnOk result (marked self.new ≡ with_mark lit (marked self.old)) }
        ensures err { OnErr result (marked self.new ≡ marked self.old) }
    {
        let at = place(lit);
        grow(&mut self.stamps, at)?;
        self.stamps[at] = self.stamp;
        Ok(())
    }

    /// Takes all marks off. Constant time.
    #[tactic(auto, using(crate::proofs::MarkFacts::stamp_facts))]
    pub fn clear(&mut self)
        ensures { marked self.new ≡ unmarked }
    {
        if self.stamp == u32::MAX {
            self.stamps.clear();
            self.stamp = 1;
            return;
        }
        self.stamp += 1;
    }
}

#[tactic(auto, unfolding(crate::specs::Stamps::place))]
fn place(lit: Lit) -> usize
    ensures value { result ≡ place_of lit }
    ensures small { result < 0x2_0000_0000 }
{
    2 * lit.var as usize + if lit.positive { 1 } else { 0 }
}

/// Makes room for the place `at`.
fn grow(stamps: &mut Vec<u32>, at: usize) -> Result<(), Memory>
    requires { at < 0x2_0000_0000 }
    ensures room { OnOk result (at < length stamps.new.items) }
    ensures same { (k : ℕ) → slice_index stamps.new.items k ≡ slice_index stamps.old.items k }
{
    if at < stamps.len() {
        return Ok(());
    }
    stamps.resize(at + 1, 0)?;
    Ok(())
}
