ghost use Rattle.std.specs.Prelude.{◌≡◌};

use cov_base::Memory;
use std::alloc::AllocError;

/// What is wrong with an occurrence of a program. Where several are, the first of this list counts.
#[derive(Clone, Copy, Debug, PartialEq, Eq)]
pub enum TypeKind {
    /// `when` or `current`.
    Clocked,
    /// The type `real`; a constant without value; the 257th enumerator; `->`, `pre`, `fby` or a
    /// call in a constant; `div`, `mod` and `fby` anywhere.
    Unsupported,
    /// The second declaration of a name in its space.
    Duplicate,
    /// A name that means no type, value, node or variable, as its place asks.
    Unknown,
    /// A called name that is declared and is no node.
    NotANode,
    /// A call with a wrong number of arguments or results, or an equation with a wrong number of
    /// left names.
    Arity,
    /// An operator, call, equation, assertion or typed constant with wrong types.
    Mismatch,
    /// A literal that is too great for the width.
    LiteralRange,
    /// An output or local without equation.
    Undefined,
    /// The second left occurrence of a variable in its node.
    DefinedTwice,
    /// An input on a left side.
    DefinesInput,
    /// A call of the calling node, or of a node that reaches it by calls.
    RecursiveNode,
    /// There is no node, or none of the name that was asked for.
    NoMain,
}

/// Why a program isn't typed.
#[derive(Clone, Copy, Debug, PartialEq, Eq)]
pub enum TypeFault {
    /// The first failing occurrence of the program is at this byte, and this is its first kind.
    Bad { kind: TypeKind, at: u32 },
    /// There was too little memory.
    Memory,
}

impl From<Memory> for TypeFault {
    ghost use Rattle.lus_types.specs.declared.fault.TypeFault.{TypeFault};

    ghost from_gives = { λ _ fault. fault ≡ TypeFault.Memory };

    fn from(_memory: Memory) -> TypeFault {
        TypeFault::Memory
    }
}

impl From<AllocError> for TypeFault {
    ghost use Rattle.lus_types.specs.declared.fault.TypeFault.{TypeFault};

    ghost from_gives = { λ _ fault. fault ≡ TypeFault.Memory };

    fn from(_error: AllocError) -> TypeFault {
        TypeFault::Memory
    }
}
