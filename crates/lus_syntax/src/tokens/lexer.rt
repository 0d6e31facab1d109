ghost use Rattle.std.specs.Prelude.{◌≡◌, ◌≤◌, ℕ, List as Seq, length, IfOk, IfErr};
ghost use Rattle.lus_syntax.specs.Cuts.{Cuts, Fails, IsCutOnce, IsUncutAtFault, IsOneFault};
ghost use Rattle.lus_syntax.specs.Pieces.{fault_at};
ghost use Rattle.lus_syntax.specs.declared.tokens.lexer.LexFault.TheVariants as fault;

use crate::limits::MOST_BYTES;
use crate::token::Token;
use crate::tokens::pieces::{Cause, Piece, next_piece};
use cov_base::{List, Memory};
use std::alloc::Global;

/// Why a text can't be cut into tokens, blanks and comments. A place is a byte of the text, counted
/// from 0: up to there the text is cut, and nothing that begins there goes on.
#[derive(Clone, Copy, Debug, PartialEq, Eq)]
pub enum LexFault {
    /// No token, blank or comment begins with this byte.
    BadByte(u32),
    /// A comment `(*` that no `*)` ends; the place is its first byte.
    OpenComment(u32),
    /// A number of 2^128 or more; the place is its first byte.
    WideLiteral(u32),
    /// Want of memory.
    Memory,
}

impl From<Memory> for LexFault {
    ghost from_gives = { λ _ e. e ≡ fault.Memory };

    fn from(_memory: Memory) -> LexFault {
        LexFault::Memory
    }
}

/// The tokens of a text of at most `MOST_BYTES` bytes, each the longest that fits, without the
/// blanks and comments between them. Takes time and memory in proportion to the text.
pub fn lex(alloc: Global, text: &[u8]) -> Result<List<Token>, LexFault>
    requires { length text.now ≤ MOST_BYTES }
    ensures tokens { IfOk result (λ tokens. Cuts text.now 0 tokens (length text.now)) }
    // So the tokens of a text that `lex` takes are few enough for `crowded`.
    ensures count { IfOk result (λ tokens. length tokens ≤ length text.now) }
    ensures fault { IfErr result (λ fault. Fails text.now fault) }
{
    let mut tokens = List::new(alloc);
    let mut at = 0;
    while at < text.len() {
        match next_piece(text.split_at(at).1) {
            Ok(Piece::Gap(len)) => at += len,
            Ok(Piece::Token(len, kind)) => {
                tokens.add(Token {
                    kind,
                    start: at as u32,
                    end: (at + len) as u32,
                })?;
                at += len;
            }
            Err(cause) => return Err(fault_at(cause, at as u32)),
        }
    }
    Ok(tokens)
}

/// The fault of this cause at this place.
fn fault_at(cause: Cause, at: u32) -> LexFault
    ensures { result ≡ fault_at cause at }
{
    match cause {
        Cause::BadByte => LexFault::BadByte(at),
        Cause::OpenComment => LexFault::OpenComment(at),
        Cause::WideLiteral => LexFault::WideLiteral(at),
    }
}

/// The laws of cutting, for proofs of callers; it does nothing. A text is cut in one way at most, a
/// text that can be cut fails of memory alone, and a text has one fault at most beside that.
pub fn one_cutting()
    ensures once { (text : Seq ℕ) → IsCutOnce text }
    ensures no_cut_at_fault { (text : Seq ℕ) → IsUncutAtFault text }
    ensures one_fault { (text : Seq ℕ) → IsOneFault text }
{}

#[cfg(test)]
mod tests;
