ghost use Rattle.std.specs.Prelude.{◌≡◌};

use std::alloc::AllocError;

/// The answer for want of memory.
#[derive(Clone, Copy, Debug, PartialEq, Eq)]
pub struct Memory;

impl From<AllocError> for Memory {
    fn from(_error: AllocError) -> Memory {
        Memory
    }
}
