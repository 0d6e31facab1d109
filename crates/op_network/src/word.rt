ghost use Rattle.std.specs.Prelude.{◌≡◌, ◌≤◌, ◌<◌, ◌-◌, ◌%◌, ◌^◌, ◌+ℤ◌, pos};
ghost use Rattle.op_network.specs.Values as spec;

use crate::limits::{LEAST_WIDTH, MOST_WIDTH};

/// A multiple of 2 to each width that makes a 64-bit number a natural one.
const OFFSET: i128 = 1 << 63;

/// Half of 2 to a width.
fn half_range(width: u32) -> u32
    requires narrowest { LEAST_WIDTH ≤ width }
    requires widest { width ≤ MOST_WIDTH }
    ensures { result ≡ 2 ^ (width - 1) }
{
    1u32 << (width - 1)
}

/// A number modulo 2 to a width.
#[tactic(auto, using(crate::proofs::Words::low_mask))]
fn low_bits(number: u128, width: u32) -> u32
    requires widest { width ≤ MOST_WIDTH }
    ensures { result ≡ number % 2 ^ width }
{
    (number & ((1u128 << width) - 1)) as u32
}

/// The sum, raised to a natural number by 2 to the 63rd.
fn raised(x: i64, half: u32) -> u128
    ensures { pos result ≡ x +ℤ pos half +ℤ pos (2 ^ 63) }
{
    (i128::from(x) + i128::from(half) + OFFSET) as u128
}

/// The word of a width that is `x` modulo 2 to the width. In constant time.
pub fn wrap(x: i64, width: u32) -> i32
    requires narrowest { LEAST_WIDTH ≤ width }
    requires widest { width ≤ MOST_WIDTH }
    ensures { result ≡ spec.wrap width x }
{
    let half = half_range(width);
    let low = low_bits(raised(x, half), width);
    (i64::from(low) - i64::from(half)) as i32
}

/// The word of a width that is a natural number modulo 2 to the width. In constant time.
#[tactic(auto, using(crate::proofs::Words::wrap_low))]
pub fn wrapped(number: u128, width: u32) -> i32
    requires narrowest { LEAST_WIDTH ≤ width }
    requires widest { width ≤ MOST_WIDTH }
    ensures { result ≡ spec.wrap width (pos number) }
{
    wrap(i64::from(low_bits(number, width)), width)
}
