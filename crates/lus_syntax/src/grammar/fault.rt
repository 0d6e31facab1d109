ghost use Rattle.std.specs.Prelude.{◌≡◌};
ghost use Rattle.lus_syntax.specs.declared.grammar.fault.PartFault.TheVariants as part;
ghost use Rattle.lus_syntax.specs.declared.grammar.fault.SyntaxFault.TheVariants as fault;

use cov_base::Memory;

/// Why tokens derive no program.
#[derive(Clone, Copy, Debug, PartialEq, Eq)]
pub enum SyntaxFault {
    /// The place among the tokens, from 0, of the first one with which no program goes on; the
    /// number of tokens where a program goes on behind all of them.
    Token(u32),
    /// Want of memory.
    Memory,
}

impl From<Memory> for SyntaxFault {
    ghost from_gives = { λ _ e. e ≡ fault.Memory };

    fn from(_memory: Memory) -> SyntaxFault {
        SyntaxFault::Memory
    }
}

/// Why a part of the grammar isn't read.
#[derive(Clone, Copy, Debug, PartialEq, Eq)]
pub(crate) enum PartFault {
    /// How many tokens are left from the first one with which nothing goes on; 0 where the end of
    /// the tokens can't stand there.
    Stuck(usize),
    /// Want of memory.
    Memory,
}

impl From<Memory> for PartFault {
    ghost from_gives = { λ _ e. e ≡ part.Memory };

    fn from(_memory: Memory) -> PartFault {
        PartFault::Memory
    }
}
