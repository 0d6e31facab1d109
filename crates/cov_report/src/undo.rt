ghost use Rattle.std.specs.Prelude.{◌≡◌, ◌≤◌, length, take, OnErr, OnOk};

use cov_base::{List, Memory};

/// Takes back what was added to a list of `before` bytes, where memory was wanted on the way.
pub(crate) fn whole_or_none(
    out: &mut List<u8>,
    before: usize,
    added: Result<(), Memory>,
) -> Result<(), Memory>
    requires { before ≤ length out.old }
    ensures answer { result ≡ added }
    ensures ok { OnOk result (out.new ≡ out.old) }
    ensures err { OnErr result (out.new ≡ take before out.old) }
{
    if added.is_err() {
        out.cut(before);
    }
    added
}
