ghost use Rattle.std.specs.Prelude.{◌≡◌, ◌↔◌, ◌<◌, ◌≤◌, IsTrue, [], ◌∷◌, length, Some, IfOk, IfErr};
ghost use Rattle.lus_syntax.specs.Grammar.{DerivesWhole};
ghost use Rattle.lus_syntax.specs.Operators.{prefix_of};
ghost use Rattle.lus_syntax.specs.Parts.{Parsed, EndsExpr, Lacks};
ghost use Rattle.lus_syntax.specs.Reading.{Answers, At, Operand, Nots, Arguments, front_rank, IsPreNot, Begins};
ghost use Rattle.lus_syntax.specs.declared.token.TokenKind.TheVariants.{Name, Word, Sign};
ghost use Rattle.lus_syntax.specs.declared.token.Keyword.TheVariants as word;
ghost use Rattle.lus_syntax.specs.declared.token.Symbol.TheVariants as sign;

use crate::ast::{Expr, ExprKind, UnOp};
use crate::grammar::builders::{add_argument, cond_of, leaf, literal_of, one_of, spelled, two_of};
use crate::grammar::fault::PartFault;
use crate::grammar::front::{accept, expect, front_rank, head, infix_in_front, same_kind};
use crate::operators::{Prefix, left_rank, prefix_of, right_rank};
use crate::token::{Keyword, Symbol, Token, TokenKind};
use sqlite_items::Items;
use std::alloc::Global;

/// The rank of a whole expression.
const LOOSEST: u8 = 10;

/// The rank of the operand of `pre not`.
const TIGHTEST: u8 = 1;

/// A whole expression, as long as it goes, and the tokens behind it.
pub(crate) fn expression<'a>(
    alloc: Global,
    text: &[u8],
    tokens: &'a [Token],
) -> Result<(Expr, &'a [Token]), PartFault>
    ensures parsed { Parsed (DerivesWhole text.now) EndsExpr tokens.now result }
    ensures shorter { IfOk result (λ f. length f.1.now < length tokens.now) }
{
    ranked(alloc, text, LOOSEST, tokens)
}

/// An expression of a rank, as long as it goes, and the tokens behind it.
#[cycle(expressions)]
fn ranked<'a>(
    alloc: Global,
    text: &[u8],
    rank: u8,
    tokens: &'a [Token],
) -> Result<(Expr, &'a [Token]), PartFault>
    ensures parsed { Answers text.now (At rank) tokens.now result }
    ensures shorter { IfOk result (λ f. length f.1.now < length tokens.now) }
{
    let mut level = front_rank(tokens);
    if rank < level {
        return Err(PartFault::Stuck(tokens.len()));
    }
    let (mut left, mut rest) = operand(alloc, text, tokens)?;
    while let Some((token, infix, more)) = infix_in_front(rest, rank) {
        if left_rank(infix) < level {
            return Err(PartFault::Stuck(rest.len()));
        }
        let (right, behind) = ranked(alloc, text, right_rank(infix), more)?;
        left = two_of(alloc, token.start, infix.op, left, right)?;
        level = infix.rank;
        rest = behind;
    }
    Ok((left, rest))
}

/// What stands before the first operator between operands: an operator with its operand, an `if`
/// or an atom.
#[cycle(expressions)]
fn operand<'a>(
    alloc: Global,
    text: &[u8],
    tokens: &'a [Token],
) -> Result<(Expr, &'a [Token]), PartFault>
    ensures parsed { Answers text.now (Operand (front_rank tokens.now)) tokens.now result }
    ensures shorter { IfOk result (λ f. length f.1.now < length tokens.now) }
{
    let Some((token, more)) = head(tokens) else {
        return Err(PartFault::Stuck(0));
    };
    if let Some(prefix) = prefix_of(token.kind) {
        return prefixed(alloc, text, token, prefix, more);
    }
    if same_kind(token.kind, TokenKind::Word(Keyword::If)) {
        return conditional(alloc, text, token, more);
    }
    atom(alloc, text, token, more)
}

/// An operator with its operand, behind the operator. A `pre` takes `not`s too.
#[cycle(expressions)]
fn prefixed<'a>(
    alloc: Global,
    text: &[u8],
    token: Token,
    prefix: Prefix,
    more: &'a [Token],
) -> Result<(Expr, &'a [Token]), PartFault>
    requires op { prefix_of token.kind ≡ Some prefix }
    ensures parsed { Answers text.now (Operand prefix.rank) (token ∷ more.now) result }
    ensures shorter { IfOk result (λ f. length f.1.now < length more.now) }
{
    if is_pre_not(token, more) {
        let (operand, rest) = nots(alloc, text, more)?;
        return Ok((one_of(alloc, token.start, prefix.op, operand)?, rest));
    }
    let (operand, rest) = ranked(alloc, text, prefix.rank, more)?;
    Ok((one_of(alloc, token.start, prefix.op, operand)?, rest))
}

/// Whether these are a `pre` and, behind it, a `not`.
fn is_pre_not(token: Token, more: &[Token]) -> bool
    ensures { IsTrue result ↔ IsPreNot token more.now }
{
    if !same_kind(token.kind, TokenKind::Word(Keyword::Pre)) {
        return false;
    }
    match accept(more, TokenKind::Word(Keyword::Not)) {
        Some(_) => true,
        None => false,
    }
}

/// `not`s in a row with the operand of the last one, behind a `pre`.
#[cycle(expressions)]
fn nots<'a>(
    alloc: Global,
    text: &[u8],
    tokens: &'a [Token],
) -> Result<(Expr, &'a [Token]), PartFault>
    ensures parsed { Answers text.now Nots tokens.now result }
    ensures shorter { IfOk result (λ f. length f.1.now < length tokens.now) }
{
    let (token, more) = expect(tokens, TokenKind::Word(Keyword::Not))?;
    match accept(more, TokenKind::Word(Keyword::Not)) {
        Some(_) => {
            let (operand, rest) = nots(alloc, text, more)?;
            Ok((one_of(alloc, token.start, UnOp::Not, operand)?, rest))
        }
        None => {
            let (operand, rest) = ranked(alloc, text, TIGHTEST, more)?;
            Ok((one_of(alloc, token.start, UnOp::Not, operand)?, rest))
        }
    }
}

/// An `if`, behind its word.
#[cycle(expressions)]
fn conditional<'a>(
    alloc: Global,
    text: &[u8],
    token: Token,
    more: &'a [Token],
) -> Result<(Expr, &'a [Token]), PartFault>
    requires { token.kind ≡ Word word.If }
    ensures parsed { Answers text.now (Operand 1) (token ∷ more.now) result }
    ensures shorter { IfOk result (λ f. length f.1.now < length more.now) }
{
    let (a, rest) = ranked(alloc, text, LOOSEST, more)?;
    let (_, rest) = expect(rest, TokenKind::Word(Keyword::Then))?;
    let (b, rest) = ranked(alloc, text, LOOSEST, rest)?;
    let (_, rest) = expect(rest, TokenKind::Word(Keyword::Else))?;
    let (c, rest) = ranked(alloc, text, LOOSEST, rest)?;
    Ok((cond_of(alloc, token.start, a, b, c)?, rest))
}

/// A name, a literal, a call or an expression in parentheses.
#[cycle(expressions)]
fn atom<'a>(
    alloc: Global,
    text: &[u8],
    token: Token,
    more: &'a [Token],
) -> Result<(Expr, &'a [Token]), PartFault>
    ensures parsed { Answers text.now (Operand 0) (token ∷ more.now) result }
    ensures shorter { IfOk result (λ f. length f.1.now ≤ length more.now) }
{
    if same_kind(token.kind, TokenKind::Sign(Symbol::OpenParen)) {
        return parens(alloc, text, token, more);
    }
    if same_kind(token.kind, TokenKind::Name) {
        return named(alloc, text, token, more);
    }
    match literal_of(token) {
        Some(e) => finished(e, more),
        None => Err(PartFault::Stuck(more.len() + 1)),
    }
}

/// An expression in parentheses, behind the first one.
#[cycle(expressions)]
fn parens<'a>(
    alloc: Global,
    text: &[u8],
    token: Token,
    more: &'a [Token],
) -> Result<(Expr, &'a [Token]), PartFault>
    requires { token.kind ≡ Sign sign.OpenParen }
    ensures parsed { Answers text.now (Operand 0) (token ∷ more.now) result }
    ensures shorter { IfOk result (λ f. length f.1.now < length more.now) }
{
    let (inner, rest) = ranked(alloc, text, LOOSEST, more)?;
    let (_, behind) = expect(rest, TokenKind::Sign(Symbol::CloseParen))?;
    finished(inner, behind)
}

/// A name or a call, behind the name.
#[cycle(expressions)]
fn named<'a>(
    alloc: Global,
    text: &[u8],
    token: Token,
    more: &'a [Token],
) -> Result<(Expr, &'a [Token]), PartFault>
    requires { token.kind ≡ Name }
    ensures parsed { Answers text.now (Operand 0) (token ∷ more.now) result }
    ensures shorter { IfOk result (λ f. length f.1.now ≤ length more.now) }
{
    match accept(more, TokenKind::Sign(Symbol::OpenParen)) {
        Some((_, behind)) => arguments(alloc, text, token, behind),
        None => {
            let name = spelled(alloc, text, token)?;
            Ok((leaf(token.start, ExprKind::Name(name)), more))
        }
    }
}

/// A call, behind its first parenthesis.
#[cycle(expressions)]
fn arguments<'a>(
    alloc: Global,
    text: &[u8],
    name: Token,
    tokens: &'a [Token],
) -> Result<(Expr, &'a [Token]), PartFault>
    ensures parsed { Answers text.now (Arguments name []) tokens.now result }
    ensures shorter { IfOk result (λ f. length f.1.now < length tokens.now) }
{
    let mut arguments = Items::new(alloc);
    let spelling = spelled(alloc, text, name)?;
    if let Some((_, behind)) = accept(tokens, TokenKind::Sign(Symbol::CloseParen)) {
        return finished(
            leaf(name.start, ExprKind::Call(spelling, arguments)),
            behind,
        );
    }
    let mut rest = tokens;
    loop {
        let (argument, behind) = ranked(alloc, text, LOOSEST, rest)?;
        add_argument(&mut arguments, argument)?;
        match accept(behind, TokenKind::Sign(Symbol::Comma)) {
            Some((_, more)) => rest = more,
            None => {
                let (_, behind) = expect(behind, TokenKind::Sign(Symbol::CloseParen))?;
                return finished(
                    leaf(name.start, ExprKind::Call(spelling, arguments)),
                    behind,
                );
            }
        }
    }
}

/// An expression that a `(` may not follow.
fn finished(e: Expr, rest: &[Token]) -> Result<(Expr, &[Token]), PartFault>
    ensures e { IfOk result (λ f. f.0 ≡ e) }
    ensures rest { IfOk result (λ f. f.1.now ≡ rest.now) }
    ensures lacks { IfOk result (λ f. Lacks rest.now (Sign sign.OpenParen)) }
    ensures stuck { IfErr result (λ fault. Begins rest.now (Sign sign.OpenParen)) }
    ensures err { IfErr result (λ fault. fault ≡ PartFault.Stuck (length rest.now)) }
{
    match accept(rest, TokenKind::Sign(Symbol::OpenParen)) {
        None => Ok((e, rest)),
        Some(_) => Err(PartFault::Stuck(rest.len())),
    }
}

#[cfg(test)]
mod tests;
