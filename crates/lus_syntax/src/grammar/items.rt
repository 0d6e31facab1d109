ghost use Rattle.std.specs.Prelude.{◌≡◌, true, false};
ghost use Rattle.lus_syntax.specs.Grammar.{DerivesItem, DerivesItems};
ghost use Rattle.lus_syntax.specs.Parts.{Parsed};
ghost use Rattle.lus_syntax.specs.Sections.{Anything, NoItem, Ended, LeftAndEquals};

use crate::ast::{Expr, Item, Spot};
use crate::grammar::expressions::expression;
use crate::grammar::fault::PartFault;
use crate::grammar::front::{accept, head};
use crate::grammar::groups::{names, token};
use crate::token::{Keyword, Symbol, Token, TokenKind};
use cov_base::List;
use std::alloc::Global;

/// An expression and the semicolon behind it.
pub(crate) fn ended<'a>(
    alloc: Global,
    text: &[u8],
    tokens: &'a [Token],
) -> Result<(Expr, &'a [Token]), PartFault>
    ensures { Parsed (Ended text.now) Anything tokens.now result }
{
    let (expr, behind) = expression(alloc, text, tokens)?;
    let (_, rest) = token(behind, TokenKind::Sign(Symbol::Semicolon))?;
    Ok((expr, rest))
}

/// The names on the left of an equation, and its `=`.
fn left_side<'a>(
    alloc: Global,
    text: &[u8],
    tokens: &'a [Token],
) -> Result<((List<Spot>, Token), &'a [Token]), PartFault>
    ensures { Parsed (LeftAndEquals text.now) Anything tokens.now result }
{
    match accept(tokens, TokenKind::Sign(Symbol::OpenParen)) {
        None => {
            let (left, behind) = names(alloc, text, tokens)?;
            let (equals, rest) = token(behind, TokenKind::Sign(Symbol::Equals))?;
            Ok(((left, equals), rest))
        }
        Some((_, more)) => {
            let (left, inside) = names(alloc, text, more)?;
            let (_, behind) = token(inside, TokenKind::Sign(Symbol::CloseParen))?;
            let (equals, rest) = token(behind, TokenKind::Sign(Symbol::Equals))?;
            Ok(((left, equals), rest))
        }
    }
}

/// An assertion or an equation.
fn item<'a>(
    alloc: Global,
    text: &[u8],
    tokens: &'a [Token],
) -> Result<(Item, &'a [Token]), PartFault>
    ensures { Parsed (DerivesItem text.now) Anything tokens.now result }
{
    match accept(tokens, TokenKind::Word(Keyword::Assert)) {
        Some((assert, more)) => {
            let (expr, rest) = ended(alloc, text, more)?;
            Ok((
                Item::Assert {
                    at: assert.start,
                    expr,
                },
                rest,
            ))
        }
        None => {
            let ((left, equals), behind) = left_side(alloc, text, tokens)?;
            let (expr, rest) = ended(alloc, text, behind)?;
            Ok((
                Item::Equation {
                    at: equals.start,
                    left,
                    expr,
                },
                rest,
            ))
        }
    }
}

/// Whether an item begins with such a token.
fn opens_item(kind: TokenKind) -> bool
    ensures { result ≡ Rattle.lus_syntax.specs.Sections.opens_item kind }
{
    match kind {
        TokenKind::Name => true,
        TokenKind::Word(Keyword::Assert) => true,
        TokenKind::Sign(Symbol::OpenParen) => true,
        _ => false,
    }
}

/// Whether an item begins here.
fn begins_item(tokens: &[Token]) -> bool
    ensures yes { result ≡ true → NoItem tokens.now → ⊥ }
    ensures no { result ≡ false → NoItem tokens.now }
{
    match head(tokens) {
        Some((first, _)) => opens_item(first.kind),
        None => false,
    }
}

/// Items, as long as one begins.
pub(crate) fn items<'a>(
    alloc: Global,
    text: &[u8],
    tokens: &'a [Token],
) -> Result<(List<Item>, &'a [Token]), PartFault>
    ensures { Parsed (DerivesItems text.now) NoItem tokens.now result }
{
    let mut items = List::new(alloc);
    let mut rest = tokens;
    'items: while begins_item(rest) {
        let (next, behind) = item(alloc, text, rest)?;
        items.add(next)?;
        rest = behind;
    }
    Ok((items, rest))
}
