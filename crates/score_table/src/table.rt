ghost use Rattle.std.specs.Prelude.{List as Seq, ◌≡◌, ◌≢◌, ◌≤◌, ◌<◌, ◌+◌, [], true, false, length, slice_get, unwrap_or, Some, None, IfOk, IfErr, OnOk, OnErr};
ghost use Rattle.std.specs.List.{All, AllPairs};
ghost use Rattle.dep_paths.specs.Duties.{IsPlanOf};
ghost use Rattle.op_network.specs.declared.test.Test.{Test as TestValue};
ghost use Rattle.op_network.specs.Admissible.{IsKeptOf};
ghost use Rattle.op_network.specs.Valid.{FitsTest};
ghost use Rattle.score_table.specs.Coverage.{first_covering, is_covered_at, score_of};
ghost use Rattle.score_table.specs.Runs.{AreTestRuns, TestRun};
ghost use Rattle.score_table.specs.Tables.{OfRuns, first_refusal as refusal_of, instants_of, is_kept, with_test, without};

use crate::fault::{AddCause, AddFault, NotKept};
use crate::kept::{Kept, append, first_refusal, keep_none, place_of, take_out};
use crate::row::{first_with, kept_at};
use crate::running::run_test;
use crate::score::score_in;
use crate::watch::Watch;
use cov_base::Steps;
use dep_paths::{Criterion, Plan, Score};
use lus_causality::Ordered;
use op_network::Test;
use std::alloc::Global;
use std::marker::Model;
use std::sync::ledger::Ledger;

/// Tests over a network, and what they cover of a plan of it.
///
/// Contracts see a table as its network, its plan and its list of tests: whatever additions and
/// withdrawals led there, the answers are those for this list. `OfRuns` speaks of the runs of the
/// tests, of which `tests` says that they are there; without a cycle they are the only ones.
#[derive(Drop)]
pub struct Table {
    network: Ordered,
    plan: Plan,
    kept: Kept,
    watch: Watch,
}

impl Model for Table {
    ghost use Rattle.score_table.specs.Rows.{IsTable};
    ghost use Rattle.score_table.specs.Tables.{Tabled};

    ghost Value = { Tabled };

    ghost view = { λ it. record {
      network = it.network;
      plan = it.plan;
      tests = it.kept.tests.items;
    } };

    ghost invariant = { λ it. IsTable it.network.network it.plan it.kept it.watch };
}

impl Table {
    /// The table that keeps no test, over a plan of the network. Hands both back for want of
    /// memory. Linear in the number of obligations.
    pub fn new(alloc: Global, network: Ordered, plan: Plan) -> Result<Table, (Ordered, Plan)>
        requires { IsPlanOf network.network plan }
        ensures ok { IfOk result (λ table. table
            ≡ record { network = network; plan = plan; tests = [] }) }
        ensures network { IfErr result (λ back. back.0 ≡ network) }
        ensures plan { IfErr result (λ back. back.1 ≡ plan) }
    {
        // what the network and the plan say of themselves is known once they are read
        let _ = network.sequence();
        let _ = network.network().parts();
        let Ok(watch) = Watch::new(alloc, &network, &plan) else {
            return Err((network, plan));
        };
        let _ = plan.length();
        let Ok(kept) = keep_none(alloc, plan.duties().len() as u32) else {
            return Err((network, plan));
        };
        Ok(Table {
            network,
            plan,
            kept,
            watch,
        })
    }

    /// Keeps a test, which goes last, and answers how many of its instants count: those before the
    /// first at which an assertion fails. Hands it back with the cause, and then the table is as
    /// before: the name is kept already, the table is full, or it would have too many instants, and
    /// the first of these counts; or memory is short. Takes at most a step for each instant of the
    /// test.
    ///
    /// Linear in the instants times the paths' prefixes, the obligations, and the edges with the
    /// conditions, 32 at a time, and logarithmic in the number of tests. A bit for each obligation
    /// is kept, and the name twice, but no frames; all memory is taken before the table changes.
    pub fn add<L: Ledger>(
        &mut self,
        alloc: Global,
        test: Test,
        steps: &mut Steps<L>,
    ) -> Result<u32, AddFault>
        requires fits { FitsTest self.old.network.network test }
        ensures kept { IfOk result (IsKeptOf self.old.network.network test) }
        ensures added { OnOk result (self.new ≡ with_test self.old test) }
        ensures accepted { OnOk result (refusal_of self.old.tests test ≡ None) }
        ensures cause { IfErr result (λ fault. fault.cause
            ≡ unwrap_or (refusal_of self.old.tests test) AddCause.Memory) }
        ensures returned { IfErr result (λ fault. fault.test ≡ test) }
        ensures unchanged { OnErr result (self.new ≡ self.old) }
        ensures cost { steps.new ≤ steps.old + test.instants }
    {
        if let Some(cause) = first_refusal(&self.kept, &test) {
            return Err(AddFault { test, cause });
        }
        let watch = &mut self.watch;
        let Ok(row) = run_test(alloc, &self.network, &self.plan, &test, watch, steps) else {
            return Err(AddFault {
                test,
                cause: AddCause::Memory,
            });
        };
        let counted = row.kept;
        match append(alloc, &mut self.kept, test, row) {
            Ok(()) => Ok(counted),
            Err(test) => Err(AddFault {
                test,
                cause: AddCause::Memory,
            }),
        }
    }

    /// Takes the test of a name out, and the others close up; `NotKept` comes exactly where no test
    /// has the name. Linear in the number of tests times that of the obligations, 64 at a time.
    pub fn withdraw(&mut self, name: &[u8]) -> Result<(), NotKept>
        ensures found { OnOk result (is_kept self.old.tests name.now ≡ true) }
        ensures ok { OnOk result (self.new ≡ without self.old name.now) }
        ensures not_found { OnErr result (is_kept self.old.tests name.now ≡ false) }
        ensures unchanged { OnErr result (self.new ≡ self.old) }
    {
        let Some(place) = place_of(self.kept.tests.as_slice(), name) else {
            return Err(NotKept);
        };
        take_out(&mut self.kept, place);
        Ok(())
    }

    /// How many of a criterion's obligations the tests cover, and how many there are. Linear in the
    /// number of obligations.
    pub fn score(&self, criterion: Criterion) -> Score
        ensures { OfRuns self.now (λ runs. result ≡ score_of self.now.plan runs criterion) }
    {
        // what the plan says of itself is known once it is read
        let _ = self.plan.length();
        score_in(self.plan.duties(), &self.kept.covered, criterion)
    }

    /// Whether a test covers the obligation at a place of the plan, from 0. None covers one that
    /// the plan lacks. In constant time.
    pub fn covered(&self, o: u32) -> bool
        ensures { OfRuns self.now (λ runs. result ≡ is_covered_at runs o) }
    {
        (o as usize) < self.plan.duties().len() && self.kept.covered.get(o)
    }

    /// The place of the first test, from 0, that covers the obligation at a place of the plan.
    /// `None` exactly where none does. Linear in the number of tests.
    pub fn covered_by(&self, o: u32) -> Option<u32>
        ensures { OfRuns self.now (λ runs. result ≡ first_covering runs o) }
    {
        if o as usize >= self.plan.duties().len() {
            return None;
        }
        first_with(self.kept.rows.as_slice(), o)
    }

    /// The tests that are kept, in the order in which they were added. No two of them have one
    /// name. In constant time.
    pub fn tests(&self) -> &[Test]
        ensures same { result.now ≡ self.now.tests }
        ensures fit { All (FitsTest self.now.network.network) self.now.tests }
        ensures apart { AllPairs (λ (a b : TestValue). a.name ≢ b.name) self.now.tests }
        ensures runs { let parts = self.now.network.network in
            (runs : Seq TestRun) × AreTestRuns parts self.now.plan self.now.tests runs }
    {
        self.kept.tests.as_slice()
    }

    /// How many instants of the test at a place count. In constant time.
    pub fn kept(&self, i: u32) -> u32
        requires { i < length self.now.tests }
        ensures { (test : TestValue) → slice_get self.now.tests i ≡ Some test →
            IsKeptOf self.now.network.network test result }
    {
        kept_at(self.kept.rows.as_slice(), i)
    }

    /// The instants of all tests that are kept. In constant time.
    pub fn instants(&self) -> u32
        ensures { result ≡ instants_of self.now.tests }
    {
        self.kept.instants
    }

    /// The network, as it was handed in. In constant time.
    pub fn network(&self) -> &Ordered
        ensures { result.now ≡ self.now.network }
    {
        &self.network
    }

    /// The plan, as it was handed in. In constant time.
    pub fn plan(&self) -> &Plan
        ensures same { result.now ≡ self.now.plan }
        ensures of { IsPlanOf self.now.network.network self.now.plan }
    {
        &self.plan
    }
}
