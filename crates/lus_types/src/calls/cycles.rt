ghost use Rattle.std.specs.Prelude.{◌≡◌, ◌≤◌, ◌<◌, ◌+◌, ℕ, length, IfErr, IfOk, OnOk};
ghost use Rattle.lus_types.specs.Checking.{TellsCycles};
ghost use Rattle.lus_types.specs.Names.{Name, entry_of, globals};
ghost use Rattle.lus_types.specs.Graphs.{AllEnd, AreCallers, AreNumbered, Numbers, number};
ghost use Rattle.lus_types.specs.Views.{recursions};

use crate::calls::callees::{rows_of_callees, rows_of_callers};
use crate::calls::ending::endings;
use crate::calls::search::{is_marked, reach};
use crate::fault::TypeFault;
use crate::limits::MOST_DECLS;
use crate::names::table::NameTable;
use crate::types::Meaning;
use cov_base::List;
use lus_syntax::Decl;
use std::alloc::Global;

/// Numbers the places that both rows of marks have.
fn number_both(numbers: &mut [u32], first: u32, there: &[bool], back: &[bool])
    requires few { length numbers.old ≤ MOST_DECLS }
    ensures { Numbers first there.now back.now (length numbers.old) numbers.old numbers.new }
{
    for place in 0..numbers.len() {
        if is_marked(there, place as u32) && is_marked(back, place as u32) {
            numbers[place] = first;
        }
    }
}

/// Numbers the cycle of a place, where it lies on one of which it is the least place. Linear in the
/// rows; in constant time where a place is marked or has a number already.
fn number_cycle(
    alloc: Global,
    rows: &[List<u32>],
    back: &[List<u32>],
    ending: &[bool],
    starting: &[bool],
    place: u32,
    numbers: &mut [u32],
) -> Result<(), TypeFault>
    requires few { length rows.now ≤ MOST_DECLS }
    requires place { place < length rows.now }
    requires back { AreCallers rows.now (length rows.now) back.now }
    requires ending { AllEnd rows.now ending.now }
    requires starting { AllEnd back.now starting.now }
    requires before { AreNumbered rows.now place numbers.old }
    ensures ok { OnOk result (AreNumbered rows.now (place + 1) numbers.new) }
    ensures err { IfErr result (λ fault. fault ≡ TypeFault.Memory) }
{
    if is_marked(ending, place) {
        return Ok(());
    }
    if is_marked(starting, place) {
        return Ok(());
    }
    if numbers[place as usize] != place {
        return Ok(());
    }
    let there = reach(alloc, rows, place)?;
    let here = reach(alloc, back, place)?;
    number_both(numbers, place, there.as_slice(), here.as_slice());
    Ok(())
}

/// The numbers below a length, in order.
fn places(alloc: Global, len: usize) -> Result<List<u32>, TypeFault>
    requires { len ≤ MOST_DECLS }
    ensures long { IfOk result (λ numbers. length numbers ≡ len) }
    ensures own { IfOk result (λ numbers. (g : ℕ) → g < len → number numbers g ≡ g) }
    ensures err { IfErr result (λ fault. fault ≡ TypeFault.Memory) }
{
    let mut numbers = List::new(alloc);
    for place in 0..len {
        numbers.add(place as u32)?;
    }
    Ok(numbers)
}

/// Numbers the places of every cycle.
fn number_all(
    alloc: Global,
    rows: &[List<u32>],
    back: &[List<u32>],
    ending: &[bool],
    starting: &[bool],
    numbers: &mut [u32],
) -> Result<(), TypeFault>
    requires few { length rows.now ≤ MOST_DECLS }
    requires back { AreCallers rows.now (length rows.now) back.now }
    requires ending { AllEnd rows.now ending.now }
    requires starting { AllEnd back.now starting.now }
    requires before { AreNumbered rows.now 0 numbers.old }
    ensures ok { OnOk result (AreNumbered rows.now (length rows.now) numbers.new) }
    ensures err { IfErr result (λ fault. fault ≡ TypeFault.Memory) }
{
    for place in 0..rows.len() {
        number_cycle(alloc, rows, back, ending, starting, place as u32, numbers)?;
    }
    Ok(())
}

/// A number for each place, which two places share where each reaches the other.
#[tactic(auto, using(crate::proofs::CycleNumbers::numbered_none))]
fn numbers_of(alloc: Global, rows: &[List<u32>]) -> Result<List<u32>, TypeFault>
    requires few { length rows.now ≤ MOST_DECLS }
    ensures ok { IfOk result (λ numbers. AreNumbered rows.now (length rows.now) numbers) }
    ensures err { IfErr result (λ fault. fault ≡ TypeFault.Memory) }
{
    let back = rows_of_callers(alloc, rows)?;
    let ending = endings(alloc, rows, back.as_slice())?;
    let starting = endings(alloc, back.as_slice(), rows)?;
    let mut numbers = places(alloc, rows.len())?;
    number_all(
        alloc,
        rows,
        back.as_slice(),
        ending.as_slice(),
        starting.as_slice(),
        numbers.items_mut(),
    )?;
    Ok(numbers)
}

/// A number for each declaration, which two nodes share where each reaches the other by calls.
/// Linear in the program where no node reaches itself; else each node that lies on a cycle or
/// between two takes a linear search more, but one for all nodes of a cycle.
#[tactic(auto, using(crate::proofs::CycleNumbers::tells))]
pub(crate) fn cycles_of(
    alloc: Global,
    names: &NameTable<Meaning>,
    decls: &[Decl],
) -> Result<List<u32>, TypeFault>
    requires few { length decls.now ≤ MOST_DECLS }
    requires names { (x : Name) → entry_of names.now x ≡ globals decls.now x }
    ensures ok { IfOk result (λ numbers. TellsCycles decls.now (recursions numbers)) }
    ensures err { IfErr result (λ fault. fault ≡ TypeFault.Memory) }
{
    let rows = rows_of_callees(alloc, names, decls)?;
    numbers_of(alloc, rows.as_slice())
}
