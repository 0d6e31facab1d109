ghost use Rattle.std.specs.Prelude.{◌≡◌, ◌≤◌, ◌↔◌, IsTrue, Some, [], ◌∷◌, length, MatchOption, IfOk, IfErr};
ghost use Rattle.lus_syntax.specs.Operators.{infix_of};
ghost use Rattle.lus_syntax.specs.Parts.{Lacks};
ghost use Rattle.lus_syntax.specs.Reading.{front_rank, NoInfix};

use crate::grammar::fault::PartFault;
use crate::operators::{Infix, infix_of, operand_rank};
use crate::token::{Token, TokenKind};

/// The first token and those behind it.
pub(crate) fn head(tokens: &[Token]) -> Option<(Token, &[Token])>
    ensures { MatchOption result (tokens.now ≡ []) (λ f. tokens.now ≡ f.0 ∷ f.1.now) }
{
    if tokens.is_empty() {
        None
    } else {
        Some((tokens[0], tokens.split_at(1).1))
    }
}

/// Whether two tokens are of one kind, a number's value included.
pub(crate) fn same_kind(a: TokenKind, b: TokenKind) -> bool
    ensures { IsTrue result ↔ a ≡ b }
{
    a == b
}

/// The first token and those behind it, where the first is of this kind.
pub(crate) fn accept(tokens: &[Token], kind: TokenKind) -> Option<(Token, &[Token])>
    ensures whole { MatchOption result (Lacks tokens.now kind) (λ f. tokens.now ≡ f.0 ∷ f.1.now) }
    ensures kind { MatchOption result (Lacks tokens.now kind) (λ f. f.0.kind ≡ kind) }
{
    let (first, more) = head(tokens)?;
    if same_kind(first.kind, kind) {
        Some((first, more))
    } else {
        None
    }
}

/// The same, where the grammar goes on with nothing else.
pub(crate) fn expect(tokens: &[Token], kind: TokenKind) -> Result<(Token, &[Token]), PartFault>
    ensures whole { IfOk result (λ f. tokens.now ≡ f.0 ∷ f.1.now) }
    ensures kind { IfOk result (λ f. f.0.kind ≡ kind) }
    ensures lacks { IfErr result (λ fault. Lacks tokens.now kind) }
    ensures err { IfErr result (λ fault. fault ≡ PartFault.Stuck (length tokens.now)) }
{
    match accept(tokens, kind) {
        Some(front) => Ok(front),
        None => Err(PartFault::Stuck(tokens.len())),
    }
}

/// The rank of an operand that begins so, 0 where there is no token.
pub(crate) fn front_rank(tokens: &[Token]) -> u8
    ensures { result ≡ front_rank tokens.now }
{
    match head(tokens) {
        None => 0,
        Some((first, _)) => operand_rank(first.kind),
    }
}

/// The first token, where it is an operator between operands of this rank or a lower one, and the
/// tokens behind.
pub(crate) fn infix_in_front(tokens: &[Token], rank: u8) -> Option<(Token, Infix, &[Token])>
    ensures whole { MatchOption result (NoInfix rank tokens.now) (λ f. tokens.now ≡ f.0 ∷ f.2.now) }
    ensures op { MatchOption result (NoInfix rank tokens.now) (λ f. infix_of f.0.kind ≡ Some f.1) }
    ensures rank { MatchOption result (NoInfix rank tokens.now) (λ f. f.1.rank ≤ rank) }
{
    let (first, more) = head(tokens)?;
    let infix = infix_of(first.kind)?;
    if infix.rank <= rank {
        Some((first, infix, more))
    } else {
        None
    }
}
