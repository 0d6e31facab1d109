use op_network::Test;

/// Why a test is not kept. Where there are several reasons, the first of these counts.
#[derive(Clone, Copy, Debug, PartialEq, Eq)]
pub enum AddCause {
    /// A test of this name is kept.
    AlreadyKept,
    /// `MOST_TESTS` tests are kept.
    Full,
    /// The instants kept and those of the test would be more than `MOST_INSTANTS`.
    Instants,
    /// There was not enough memory.
    Memory,
}

/// The test, as it was handed in, and why it is not kept.
#[derive(Debug, Drop)]
pub struct AddFault {
    pub test: Test,
    pub cause: AddCause,
}

/// No test of this name is kept.
#[derive(Clone, Copy, Debug, PartialEq, Eq)]
pub struct NotKept;
