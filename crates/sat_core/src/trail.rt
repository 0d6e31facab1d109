//! The trail of the literals that were set true, and the places of the variables in it.
ghost use Rattle.std.specs.Prelude.{◌≡◌, ◌≢◌, ◌<◌, ◌≤◌, ◌↔◌, ℕ, [], ◌∷◌, ◌++◌, None, take, length, slice_index_or, replicate, IsTrue, OnOk, IfNone, IfOk, IfSome};
ghost use Rattle.cnf_form.specs.Limits.{most_vars};
ghost use Rattle.cnf_form.specs.Lits.{is_in};
ghost use Rattle.sat_core.specs.Conflicts.{HasNoDecision, IsLastDecision};
ghost use Rattle.sat_core.specs.Trail.{lits, IsPlaced};

use crate::same::is_same;
use cnf_form::Lit;
use cov_base::{List, Memory};
use std::alloc::Global;

/// A literal that was set true, with the place of the clause that it follows from, or none where it
/// was decided.
#[derive(Clone, Copy, Debug, PartialEq, Eq)]
pub(crate) struct Entry {
    pub lit: Lit,
    pub reason: Option<u32>,
}

/// The literals that were set true, the oldest first, and the place of each variable among them.
#[derive(Debug, Drop)]
pub(crate) struct Trail {
    entries: Vec<Entry>,
    places: Vec<Option<u32>>,
    ghost few: { length places.items ≤ most_vars },
    ghost placed: { IsPlaced (length places.items) entries.items places.items },
}

impl Trail {
    ghost use Rattle.sat_core.specs.Solving.{entries_of, vars_of, IsFree};

    /// No literal of these variables. The cost is linear in the variables.
    pub(crate) fn new(alloc: Global, vars: u32) -> Result<Trail, Memory>
        requires { vars ≤ most_vars }
        ensures empty { IfOk result (λ trail. entries_of trail ≡ []) }
        ensures vars { IfOk result (λ trail. vars_of trail ≡ vars) }
    {
        let places = no_places(alloc, vars)?.into_vec();
        Ok(Trail {
            entries: Vec::new(alloc),
            places,
        })
    }

    /// The entries, in constant time.
    pub(crate) fn entries(&self) -> &[Entry]
        ensures { result.now ≡ entries_of self.now }
    {
        self.entries.as_slice()
    }

    /// The places of the variables, in constant time.
    pub(crate) fn places(&self) -> &[Option<u32>]
        ensures { result.now ≡ self.now.places.items }
    {
        self.places.as_slice()
    }

    /// Whether a literal was set true. Constant time.
    #[tactic(auto, using(crate::proofs::Placing::held))]
    pub(crate) fn is_set(&self, lit: Lit) -> bool
        requires { lit.var < vars_of self.now }
        ensures { result ≡ is_in lit (lits (entries_of self.now)) }
    {
        match self.places[lit.var as usize] {
            Some(at) => is_same(self.entries[at as usize].lit, lit),
            None => false,
        }
    }

    /// Whether a literal's variable wasn't set. Constant time.
    pub(crate) fn is_free(&self, lit: Lit) -> bool
        requires { lit.var < vars_of self.now }
        ensures { IsTrue result ↔ IsFree self.now lit }
    {
        self.places[lit.var as usize].is_none()
    }

    /// Sets the literal of a variable that is free. Constant time over many calls.
    pub(crate) fn push(&mut self, entry: Entry) -> Result<(), Memory>
        requires inside { entry.lit.var < vars_of self.old }
        requires free { IsFree self.old entry.lit }
        ensures entries { OnOk result (entries_of self.new ≡ entries_of self.old ++ entry ∷ []) }
        ensures vars { vars_of self.new ≡ vars_of self.old }
    {
        let at = self.entries.len() as u32;
        match self.entries.push(entry) {
            Ok(()) => {
                self.places[entry.lit.var as usize] = Some(at);
                Ok(())
            }
            Err(_) => Err(Memory),
        }
    }

    /// Takes back all entries from a place on. The cost is linear in them.
    pub(crate) fn cut(&mut self, to: usize)
        requires { to ≤ length (entries_of self.old) }
        ensures entries { entries_of self.new ≡ take to (entries_of self.old) }
        ensures vars { vars_of self.new ≡ vars_of self.old }
    {
        take_back(&mut self.entries, &mut self.places, to);
    }

    /// The place of the last decision. The cost is linear in the entries from it on.
    pub(crate) fn last_decision(&self) -> Option<usize>
        ensures none { IfNone result (HasNoDecision (entries_of self.now)) }
        ensures some { IfSome result (IsLastDecision (entries_of self.now)) }
    {
        for k in (0..self.entries.len()).rev() {
            if self.entries[k].reason.is_none() {
                return Some(k);
            }
        }
        None
    }

    /// The least variable that is free, as false. The cost is linear in the variables.
    pub(crate) fn free_lit(&self) -> Option<Lit>
        ensures none { IfNone result ((v : ℕ) → v < vars_of self.now →
            slice_index_or self.now.places.items v None ≢ None) }
        ensures inside { IfSome result (λ lit. lit.var < vars_of self.now) }
        ensures free { IfSome result (IsFree self.now) }
    {
        for var in 0..self.places.len() {
            if self.places[var].is_none() {
                return Some(Lit {
                    var: var as u32,
                    positive: false,
                });
            }
        }
        None
    }
}

fn no_places(alloc: Global, vars: u32) -> Result<List<Option<u32>>, Memory>
    ensures { IfOk result (λ places. places ≡ replicate vars None) }
{
    let mut places = List::new(alloc);
    for _var in 0..vars {
        places.add(None)?;
    }
    Ok(places)
}

fn take_back(entries: &mut Vec<Entry>, places: &mut Vec<Option<u32>>, to: usize)
    requires to { to ≤ length entries.old.items }
    requires placed { IsPlaced (length places.old.items) entries.old.items places.old.items }
    ensures entries { entries.new.items ≡ take to entries.old.items }
    ensures placed { IsPlaced (length places.new.items) entries.new.items places.new.items }
    ensures vars { length places.new.items ≡ length places.old.items }
{
    while entries.len() > to {
        match entries.pop() {
            Some(entry) => places[entry.lit.var as usize] = None,
            None => return,
        }
    }
}
