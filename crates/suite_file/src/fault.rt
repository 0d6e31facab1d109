ghost use Rattle.std.specs.Prelude.{◌≡◌};

use cov_base::Memory;

/// What is wrong with a record.
#[derive(Clone, Copy, Debug, PartialEq, Eq)]
pub enum SuiteKind {
    /// There is no record.
    NoHeader,
    /// The first field of the header isn't `test`.
    NoTestColumn,
    /// A column of the header is named as no input.
    UnknownColumn,
    /// A column of the header is named as one before it.
    RepeatedColumn,
    /// An input has no column.
    MissingColumn,
    /// The record has more fields than the header, or fewer.
    Width,
    /// The name hasn't 1 to `MOST_NAME` bytes of 21 to 7E in hexadecimal.
    BadName,
    /// The test of this name ended in an earlier record.
    SplitTest,
    /// The field is no value of its column's input.
    BadValue,
}

/// Why a text is no suite, or no suite that can be read.
#[derive(Clone, Copy, Debug, PartialEq, Eq)]
pub enum SuiteFault {
    /// The first record at fault.
    Bad {
        /// The number of the record, from 0 for the header.
        row: u32,
        /// The place of the field, from 1 behind `test` or the name, for `UnknownColumn`,
        /// `RepeatedColumn` and `BadValue`, and 0 for the other kinds.
        column: u32,
        kind: SuiteKind,
    },
    /// There are more than `MOST_TESTS` tests: a record without another fault begins one too many.
    Tests,
    /// There are more than `MOST_INSTANTS` instants: a record without another fault, and of a test
    /// within the limit, is one too many.
    Instants,
    /// There was too little memory. It may come at any time, in place of any other answer.
    Memory,
}

impl From<Memory> for SuiteFault {
    ghost use Rattle.suite_file.specs.declared.fault.SuiteFault.TheVariants as fault;

    ghost from_gives = { λ _ e. e ≡ fault.Memory };

    fn from(_memory: Memory) -> SuiteFault {
        SuiteFault::Memory
    }
}
