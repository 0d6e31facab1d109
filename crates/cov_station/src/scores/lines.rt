//! The lines of tests and of obligations.
ghost use Rattle.std.specs.Prelude.{◌≡◌, ◌<◌, ◌++◌, OnOk, length};
ghost use Rattle.cov_station.specs.Scores.{failure_at, missing_line, spaced, test_line};

use cov_base::{List, Memory, push_decimal};
use cov_report::duty_text;
use dep_paths::Plan;
use op_network::{Network, Test};

/// A number behind a space.
fn push_count(text: &mut List<u8>, count: u32) -> Result<(), Memory>
    ensures { OnOk result (text.new ≡ text.old ++ spaced count) }
{
    text.extend_from_slice(b" ")?;
    push_decimal(text, i64::from(count))
}

/// Where fewer instants count than there are, the first that doesn't.
fn push_failure(text: &mut List<u8>, instants: u32, kept: u32) -> Result<(), Memory>
    ensures { OnOk result (text.new ≡ text.old ++ failure_at instants kept) }
{
    if kept == instants {
        return Ok(());
    }
    text.extend_from_slice(b" assertion fails at ")?;
    push_decimal(text, i64::from(kept))
}

/// A test's name, how many instants it has, how many of them count, and the instant at which an
/// assertion fails, if one does.
pub(crate) fn push_test_line(text: &mut List<u8>, test: &Test, kept: u32) -> Result<(), Memory>
    ensures { OnOk result (text.new ≡ text.old ++ test_line test.now kept) }
{
    text.extend_from_slice(b"test ")?;
    text.extend_from_slice(test.name.bytes())?;
    push_count(text, test.instants)?;
    push_count(text, kept)?;
    push_failure(text, test.instants, kept)?;
    text.extend_from_slice(b"\n")
}

/// The line of an obligation that is not covered, by its place from 0. Linear in its path's length.
pub(crate) fn push_missing_line(
    text: &mut List<u8>,
    net: &Network,
    plan: &Plan,
    o: u32,
) -> Result<(), Memory>
    requires { o < length plan.now.duties }
    ensures { OnOk result (text.new ≡ text.old ++ missing_line net.now.edges plan.now o) }
{
    text.extend_from_slice(b"missing ")?;
    push_decimal(text, i64::from(o) + 1)?;
    text.extend_from_slice(b" ")?;
    duty_text(net, plan, o, text)?;
    text.extend_from_slice(b"\n")
}
