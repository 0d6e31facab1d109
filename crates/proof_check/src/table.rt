//! The clauses that are present, by their ids.
ghost use Rattle.std.specs.Prelude.{◌≡◌, ◌+◌, ◌≤◌, Some, None, length, IfOk, IfErr, OnOk, OnErr};
ghost use Rattle.cnf_form.specs.Limits.{most_clauses};
ghost use Rattle.proof_check.specs.Check.{numbered, named as named_in, removed, with_id};
ghost use Rattle.proof_check.specs.Table.{reads, lent};

use crate::step::StepKind;
use cnf_form::Clause;
use cov_base::Memory;
use std::alloc::Global;
use std::collections::HashMap;

/// The clauses of a formula have the ids from 1 on.
#[tactic(auto, using(crate::proofs::Tables::numbered_all))]
pub(crate) fn start_table<'a>(
    alloc: Global,
    clauses: &'a [Clause],
) -> Result<HashMap<u64, &'a Clause>, Memory>
    requires { length clauses.now ≤ most_clauses }
    ensures { IfOk result (λ table. reads table ≡ numbered clauses.now) }
{
    let mut table = HashMap::new(alloc);
    for i in 0..clauses.len() {
        match table.insert(i as u64 + 1, &clauses[i]) {
            Ok(_) => {}
            Err(_) => return Err(Memory),
        }
    }
    Ok(table)
}

/// The clause that a hint names.
#[tactic(auto, unfolding(crate::specs::Table::reads))]
pub(crate) fn named<'a>(table: &HashMap<u64, &'a Clause>, hint: i64) -> Result<&'a Clause, StepKind>
    ensures { lent result ≡ named_in (reads table.now) hint }
{
    if hint < 0 {
        return Err(StepKind::RatHint);
    }
    match table.get(&(hint as u64)) {
        Some(clause) => Ok(*clause),
        None => Err(StepKind::UnknownId),
    }
}

/// Takes out the clause of each id in turn.
pub(crate) fn take_out(table: &mut HashMap<u64, &Clause>, ids: &[u32]) -> Result<(), StepKind>
    ensures ok { OnOk result (removed ids.now (reads table.old) ≡ Some (reads table.new)) }
    ensures kind { IfErr result (λ kind. kind ≡ StepKind.UnknownId) }
    ensures err { OnErr result (removed ids.now (reads table.old) ≡ None) }
{
    for id in ids {
        match table.remove(&u64::from(*id)) {
            Some(_) => {}
            None => return Err(StepKind::UnknownId),
        }
    }
    Ok(())
}
