//! The tests of the records so far.
ghost use Rattle.std.specs.Prelude.{◌≡◌, ◌≤◌, ◌<◌, ◌+◌, ◌&&◌, [], nat_le, false, Some, None, option_map, length, OnOk};
ghost use Rattle.std.specs.List.{list_all};
ghost use Rattle.suite_file.specs.Steps.{IsKept, after_instant, instants_of};
ghost use Rattle.suite_file.specs.Suites.{is_name as is_test_name, is_printable as printable, is_full as is_full_of, has_ended as has_ended_in, all_tests, is_current, longer, first_instant, arranged};

use crate::cells::arrange;
use crate::limits::{LEAST_PRINTABLE, MOST_INSTANTS, MOST_NAME, MOST_PRINTABLE, MOST_TESTS};
use crate::names::keep_name;
use crate::values::is;
use cov_base::{List, Memory, Text};
use op_network::{Test, Value};
use std::alloc::Global;
use std::collections::BTreeSet;

/// The tests that ended with their names, and the one at hand.
#[derive(Drop)]
pub(crate) struct Progress {
    pub ended: List<Test>,
    pub names: BTreeSet<Vec<u8>>,
    pub current: Option<Test>,
}

fn is_printable(byte: u8) -> bool
    ensures { result ≡ printable byte }
{
    byte >= LEAST_PRINTABLE && byte <= MOST_PRINTABLE
}

fn are_printable(name: &[u8]) -> bool
    ensures { result ≡ list_all printable name.now }
{
    for byte in name {
        if !is_printable(*byte) {
            return false;
        }
    }
    true
}

/// Whether a name has 1 to `MOST_NAME` printable bytes.
pub(crate) fn is_name(name: &[u8]) -> bool
    ensures { result ≡ is_test_name name.now }
{
    name.len() >= 1 && name.len() <= MOST_NAME && are_printable(name)
}

impl Progress {
    /// No test.
    #[tactic(auto, using(crate::proofs::Ended::none_kept))]
    pub fn new(alloc: Global) -> Progress
        ensures ended { result.ended ≡ [] }
        ensures current { result.current ≡ None }
        ensures kept { IsKept result }
    {
        Progress {
            ended: List::new(alloc),
            names: BTreeSet::new(alloc),
            current: None,
        }
    }

    /// Whether the test at hand has this name.
    pub fn continues(&self, name: &[u8]) -> bool
        ensures { result ≡ is_current self.now.current name.now }
    {
        match &self.current {
            Some(test) => is(test.name.bytes(), name),
            None => false,
        }
    }

    /// Whether a test of this name ended. The test at hand is asked first: it is no test that
    /// ended, and most records are its.
    #[tactic(auto, using(crate::proofs::Ended::current_open, crate::proofs::Ended::kept_knows))]
    pub fn has_ended(&self, name: &[u8]) -> bool
        requires { IsKept self.now }
        ensures { result ≡ has_ended_in self.now.ended name.now }
    {
        if self.continues(name) {
            return false;
        }
        self.names.contains(name)
    }

    /// Whether a test of this name would be one too many.
    #[tactic(auto, using(crate::proofs::Ended::full_next))]
    pub fn is_full(&self, name: &[u8]) -> bool
        ensures { result ≡ is_full_of self.now.ended self.now.current name.now }
    {
        if self.continues(name) {
            return false;
        }
        match &self.current {
            Some(_) => self.ended.len() >= MOST_TESTS - 1,
            None => self.ended.len() >= MOST_TESTS,
        }
    }

    /// Ends the test at hand.
    pub fn close(&mut self, alloc: Global) -> Result<(), Memory>
        requires { IsKept self.old }
        ensures ended { OnOk result (self.new.ended ≡ all_tests self.old.ended self.old.current) }
        ensures current { OnOk result (self.new.current ≡ None) }
        ensures kept { OnOk result (IsKept self.new) }
    {
        let Some(test) = self.current.take() else {
            return Ok(());
        };
        keep_name(alloc, &mut self.names, test.name.bytes())?;
        self.ended.add(test)?;
        Ok(())
    }

    /// Adds an instant to the test at hand.
    #[tactic(auto, using(crate::proofs::Ended::kept_longer))]
    fn lengthen(&mut self, places: &[u32], cells: &[Value]) -> Result<(), Memory>
        requires kept { IsKept self.old }
        requires few { instants_of self.old.current ≤ MOST_INSTANTS }
        ensures ended { OnOk result (self.new.ended ≡ self.old.ended) }
        ensures kept { OnOk result (IsKept self.new) }
        ensures current { OnOk result (self.new.current
            ≡ option_map (λ test. longer test (arranged places.now cells.now)) self.old.current) }
    {
        let Some(mut test) = self.current.take() else {
            return Ok(());
        };
        arrange(places, cells, &mut test.values)?;
        test.instants += 1;
        self.current = Some(test);
        Ok(())
    }

    /// Begins a test with its first instant.
    #[tactic(auto, using(crate::proofs::Ended::kept_first))]
    fn begin(
        &mut self,
        alloc: Global,
        name: &[u8],
        places: &[u32],
        cells: &[Value],
    ) -> Result<(), Memory>
        requires kept { IsKept self.old }
        requires fresh { has_ended_in (all_tests self.old.ended self.old.current) name.now ≡ false }
        ensures ended { OnOk result (self.new.ended ≡ all_tests self.old.ended self.old.current) }
        ensures current { OnOk result (self.new.current
            ≡ Some (first_instant name.now (arranged places.now cells.now))) }
        ensures kept { OnOk result (IsKept self.new) }
    {
        self.close(alloc)?;
        let name = Text::from_bytes(alloc, name)?;
        let mut values = List::new(alloc);
        arrange(places, cells, &mut values)?;
        self.current = Some(Test {
            name,
            instants: 1,
            values,
        });
        Ok(())
    }
}

/// Adds an instant of a test of that name, which hasn't ended.
#[tactic(auto, using(crate::proofs::Ended::new_name))]
pub(crate) fn add_instant(
    alloc: Global,
    progress: &mut Progress,
    name: &[u8],
    places: &[u32],
    cells: &[Value],
) -> Result<(), Memory>
    requires kept { IsKept progress.old }
    requires fresh { has_ended_in progress.old.ended name.now ≡ false }
    requires few { instants_of progress.old.current ≤ MOST_INSTANTS }
    ensures ended { OnOk result (progress.new.ended
        ≡ (after_instant progress.old name.now (arranged places.now cells.now)).ended) }
    ensures current { OnOk result (progress.new.current
        ≡ (after_instant progress.old name.now (arranged places.now cells.now)).current) }
    ensures kept { OnOk result (IsKept progress.new) }
    ensures few { OnOk result
        (instants_of progress.new.current ≤ instants_of progress.old.current + 1) }
{
    if progress.continues(name) {
        progress.lengthen(places, cells)
    } else {
        progress.begin(alloc, name, places, cells)
    }
}
