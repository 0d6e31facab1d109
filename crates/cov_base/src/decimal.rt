ghost use Rattle.std.specs.Prelude.{◌≡◌, ◌≤◌, ◌++◌, OnOk, OnErr, codes};
ghost use Rattle.std.specs.Fmt.{signed_decimal};
ghost use Rattle.cov_base.specs.Numbers.{percent, tenths_text};

use crate::list::List;
use crate::memory::Memory;
use itoa::Buffer;

/// Adds a number at the end, in decimal digits after `-` where it is below 0, or answers `Memory`
/// for want of it. The cost is linear in the digits, over many calls.
pub fn push_decimal(out: &mut List<u8>, n: i64) -> Result<(), Memory>
    ensures ok { OnOk result (out.new ≡ out.old ++ signed_decimal n) }
    ensures err { OnErr result (out.new ≡ out.old) }
{
    let mut buffer = Buffer::new();
    out.extend_from_slice(buffer.format(n).as_bytes())
}

/// Adds at the end how much of `total` is `covered`, in percent rounded down to tenths, as `81.2%`,
/// or `-` where `total` is 0. `covered` is at most `total`. Answers `Memory` for want of it.
/// Constant time over many calls.
pub fn push_percent(out: &mut List<u8>, covered: u32, total: u32) -> Result<(), Memory>
    requires { covered ≤ total }
    ensures ok { OnOk result (out.new ≡ out.old ++ percent covered total) }
    ensures err { OnErr result (out.new ≡ out.old) }
{
    if total == 0 {
        return out.extend_from_slice(b"-");
    }
    let tenths = 1000 * u64::from(covered) / u64::from(total);
    push_tenths(out, tenths)
}

/// Adds a percentage, given in tenths of a percent, or nothing of it for want of memory.
#[tactic(auto, using(crate::proofs::Numbers::tenths_in_pieces))]
fn push_tenths(out: &mut List<u8>, tenths: u64) -> Result<(), Memory>
    ensures ok { OnOk result (out.new ≡ out.old ++ (tenths_text tenths ++ codes "%")) }
    ensures err { OnErr result (out.new ≡ out.old) }
{
    let before = out.len();
    let mut buffer = Buffer::new();
    out.extend_from_slice(buffer.format(tenths / 10).as_bytes())?;
    let last = b'0' + (tenths % 10) as u8;
    let pushed = out.extend_from_slice(&[b'.', last, b'%']);
    if pushed.is_err() {
        out.cut(before);
    }
    pushed
}
