ghost use Rattle.std.specs.Prelude.{◌≡◌, ◌<◌, ◌≤◌, ◌+◌, ◌++◌, ◌∷◌, [], Err, map, length, IfOk, OnOk};
ghost use Rattle.std.specs.List.{filter};
ghost use Rattle.dep_paths.specs.Levels.{last_of, row_at, pushed, longer_paths, ends_at};

use crate::limits::MOST_PATHS;
use crate::path::{Path, Step};
use cov_base::{List, Memory};
use op_network::EdgeId;
use std::alloc::Global;

/// Why paths are not listed.
#[derive(Clone, Copy, Debug, PartialEq, Eq)]
pub(crate) enum Stop {
    TooMany,
    Memory,
}

/// The last edge of a path.
#[tactic(auto, using(crate::proofs::Growth::last_is))]
fn last(path: &Path) -> EdgeId
    ensures { result ≡ last_of path.now }
{
    let steps = path.steps.as_slice();
    if steps.len() == 0 {
        path.start
    } else {
        steps[steps.len() - 1].edge
    }
}

/// Adds a path, unless there are `MOST_PATHS`.
pub(crate) fn add_one(path: Path, paths: &mut List<Path>) -> Result<(), Stop>
    requires { length paths.old ≤ MOST_PATHS }
    ensures ok { OnOk result (paths.new ≡ paths.old ++ path ∷ []) }
    ensures few { OnOk result (length paths.new ≤ MOST_PATHS) }
    ensures many { result ≡ Err Stop.TooMany → length paths.old ≡ MOST_PATHS }
{
    if paths.len() >= MOST_PATHS {
        return Err(Stop::TooMany);
    }
    match paths.push(path) {
        Ok(()) => Ok(()),
        Err(_) => Err(Stop::Memory),
    }
}

/// The path with a step more.
#[tactic(auto, using(crate::proofs::Growth::pushed_is))]
fn extended(path: Path, step: Step) -> Result<Path, Memory>
    ensures { IfOk result (λ longer. longer ≡ pushed path step) }
{
    let Path { start, mut steps } = path;
    match steps.push(step) {
        Ok(()) => Ok(Path { start, steps }),
        Err(_) => Err(Memory),
    }
}

fn copied(alloc: Global, path: &Path) -> Result<Path, Memory>
    ensures { IfOk result (λ copy. copy ≡ path.now) }
{
    let mut steps = List::new(alloc);
    steps.extend_from_slice(path.steps.as_slice())?;
    Ok(Path {
        start: path.start,
        steps,
    })
}

/// Adds the path with a step more.
fn add_extended(path: Path, step: Step, next: &mut List<Path>) -> Result<(), Stop>
    requires { length next.old ≤ MOST_PATHS }
    ensures ok { OnOk result (next.new ≡ next.old ++ pushed path step ∷ []) }
    ensures few { OnOk result (length next.new ≤ MOST_PATHS) }
    ensures many { result ≡ Err Stop.TooMany → length next.old ≡ MOST_PATHS }
{
    match extended(path, step) {
        Ok(longer) => add_one(longer, next),
        Err(_) => Err(Stop::Memory),
    }
}

/// Adds a copy of the path with a step more.
fn add_copy(alloc: Global, path: &Path, step: Step, next: &mut List<Path>) -> Result<(), Stop>
    requires { length next.old ≤ MOST_PATHS }
    ensures ok { OnOk result (next.new ≡ next.old ++ pushed path.now step ∷ []) }
    ensures few { OnOk result (length next.new ≤ MOST_PATHS) }
    ensures many { result ≡ Err Stop.TooMany → length next.old ≡ MOST_PATHS }
{
    match copied(alloc, path) {
        Ok(copy) => add_extended(copy, step, next),
        Err(_) => Err(Stop::Memory),
    }
}

/// Adds a copy of the path with each of the steps.
fn add_copies(
    alloc: Global,
    path: &Path,
    readers: &[Step],
    next: &mut List<Path>,
) -> Result<(), Stop>
    requires { length next.old ≤ MOST_PATHS }
    ensures ok { OnOk result (next.new ≡ next.old ++ map (pushed path.now) readers.now) }
    ensures few { OnOk result (length next.new ≤ MOST_PATHS) }
    ensures many { result ≡ Err Stop.TooMany → MOST_PATHS < length next.old + length readers.now }
{
    for step in readers {
        add_copy(alloc, path, *step, next)?;
    }
    Ok(())
}

/// Adds the path with each of the steps. It is copied for all of them but the last.
fn add_longer(
    alloc: Global,
    path: Path,
    readers: &[Step],
    next: &mut List<Path>,
) -> Result<(), Stop>
    requires { length next.old ≤ MOST_PATHS }
    ensures ok { OnOk result (next.new ≡ next.old ++ map (pushed path) readers.now) }
    ensures few { OnOk result (length next.new ≤ MOST_PATHS) }
    ensures many { result ≡ Err Stop.TooMany → MOST_PATHS < length next.old + length readers.now }
{
    if readers.is_empty() {
        return Ok(());
    }
    let count = readers.len() - 1;
    let step = readers[count];
    add_copies(alloc, &path, &readers[..count], next)?;
    add_extended(path, step, next)
}

/// Adds the path with each step that reads its last edge.
fn add_from(
    alloc: Global,
    path: Path,
    rows: &[List<Step>],
    next: &mut List<Path>,
) -> Result<(), Stop>
    requires { length next.old ≤ MOST_PATHS }
    ensures ok { OnOk result (next.new
        ≡ next.old ++ map (pushed path) (row_at rows.now (last_of path).0)) }
    ensures few { OnOk result (length next.new ≤ MOST_PATHS) }
    ensures many { result ≡ Err Stop.TooMany →
        MOST_PATHS < length next.old + length (row_at rows.now (last_of path).0) }
{
    let at = last(&path).0 as usize;
    if at >= rows.len() {
        return Ok(());
    }
    add_longer(alloc, path, rows[at].as_slice(), next)
}

/// Each path with each step that reads its last edge.
pub(crate) fn longer(
    alloc: Global,
    level: List<Path>,
    rows: &[List<Step>],
) -> Result<List<Path>, Stop>
    ensures ok { IfOk result (λ next. next ≡ longer_paths (row_at rows.now) level) }
    ensures few { IfOk result (λ next. length next ≤ MOST_PATHS) }
    ensures many { result ≡ Err Stop.TooMany →
        MOST_PATHS < length (longer_paths (row_at rows.now) level) }
{
    let mut next = List::new(alloc);
    let mut rest = level.into_vec();
    rest.reverse();
    while let Some(path) = rest.pop() {
        add_from(alloc, path, rows, &mut next)?;
    }
    Ok(next)
}

/// Whether a path ends in an output.
#[tactic(auto, unfolding(crate::specs::Levels::ends_at))]
fn is_complete(path: &Path, near: &[u32]) -> bool
    ensures { result ≡ ends_at near.now path.now }
{
    let at = last(path).0 as usize;
    at < near.len() && near[at] == 0
}

/// Adds a copy of the path, if it is complete.
fn add_if_complete(
    alloc: Global,
    path: &Path,
    near: &[u32],
    found: &mut List<Path>,
) -> Result<(), Stop>
    requires { length found.old ≤ MOST_PATHS }
    ensures ok { OnOk result (found.new ≡ found.old ++ filter (ends_at near.now) (path.now ∷ [])) }
    ensures few { OnOk result (length found.new ≤ MOST_PATHS) }
    ensures many { result ≡ Err Stop.TooMany →
        MOST_PATHS < length (found.old ++ filter (ends_at near.now) (path.now ∷ [])) }
{
    if !is_complete(path, near) {
        return Ok(());
    }
    match copied(alloc, path) {
        Ok(copy) => add_one(copy, found),
        Err(_) => Err(Stop::Memory),
    }
}

/// Adds a copy of each complete path.
#[tactic(auto, using(crate::proofs::Growth::filter_too_many))]
pub(crate) fn add_complete(
    alloc: Global,
    level: &[Path],
    near: &[u32],
    found: &mut List<Path>,
) -> Result<(), Stop>
    requires { length found.old ≤ MOST_PATHS }
    ensures ok { OnOk result (found.new ≡ found.old ++ filter (ends_at near.now) level.now) }
    ensures few { OnOk result (length found.new ≤ MOST_PATHS) }
    ensures many { result ≡ Err Stop.TooMany →
        MOST_PATHS < length (found.old ++ filter (ends_at near.now) level.now) }
{
    for path in level {
        add_if_complete(alloc, path, near, found)?;
    }
    Ok(())
}
