ghost use Rattle.std.specs.Prelude.{◌≡◌, length, IfOk, IfErr};
ghost use Rattle.lus_syntax.specs.Grammar.{DerivesNames, DerivesClock, DerivesGroup, DerivesInputs, DerivesOutputs, DerivesLines};
ghost use Rattle.lus_syntax.specs.Parts.{Lacks, Parsed};
ghost use Rattle.lus_syntax.specs.Sections.{Anything, NoComma, NoWhen, NoName, IsToken, IsName, IsType, Closed, Line, LocalsAndLet, Opening};

use crate::ast::{Group, Spot};
use crate::grammar::builders::spot_of;
use crate::grammar::fault::PartFault;
use crate::grammar::front::{accept, expect, head};
use crate::token::{Keyword, Symbol, Token, TokenKind};
use cov_base::List;
use std::alloc::Global;

/// The first token, which has to be of this kind.
pub(crate) fn token(tokens: &[Token], kind: TokenKind) -> Result<(Token, &[Token]), PartFault>
    ensures { Parsed (IsToken kind) Anything tokens.now result }
{
    expect(tokens, kind)
}

/// Nothing, where the first token is not of this kind.
pub(crate) fn refuse(tokens: &[Token], kind: TokenKind) -> Result<(), PartFault>
    ensures ok { IfOk result (λ _. Lacks tokens.now kind) }
    ensures begins { IfErr result (λ fault. Lacks tokens.now kind → ⊥) }
    ensures err { IfErr result (λ fault. fault ≡ PartFault.Stuck (length tokens.now)) }
{
    match accept(tokens, kind) {
        None => Ok(()),
        Some(_) => Err(PartFault::Stuck(tokens.len())),
    }
}

/// A name.
pub(crate) fn name<'a>(
    alloc: Global,
    text: &[u8],
    tokens: &'a [Token],
) -> Result<(Spot, &'a [Token]), PartFault>
    ensures { Parsed (IsName text.now) Anything tokens.now result }
{
    let (token, rest) = token(tokens, TokenKind::Name)?;
    Ok((spot_of(alloc, text, token)?, rest))
}

/// Names with commas between.
pub(crate) fn names<'a>(
    alloc: Global,
    text: &[u8],
    tokens: &'a [Token],
) -> Result<(List<Spot>, &'a [Token]), PartFault>
    ensures { Parsed (DerivesNames text.now) NoComma tokens.now result }
{
    let mut names = List::new(alloc);
    let (first, mut rest) = name(alloc, text, tokens)?;
    names.add(first)?;
    while let Some((_, more)) = accept(rest, TokenKind::Sign(Symbol::Comma)) {
        let (next, behind) = name(alloc, text, more)?;
        names.add(next)?;
        rest = behind;
    }
    Ok((names, rest))
}

/// Whether a token is a type.
fn is_type(kind: TokenKind) -> bool
    ensures { result ≡ Rattle.lus_syntax.specs.Grammar.is_type kind }
{
    match kind {
        TokenKind::Name => true,
        TokenKind::Word(Keyword::Bool) => true,
        TokenKind::Word(Keyword::Int) => true,
        TokenKind::Word(Keyword::Real) => true,
        _ => false,
    }
}

/// A type.
pub(crate) fn type_name<'a>(
    alloc: Global,
    text: &[u8],
    tokens: &'a [Token],
) -> Result<(Spot, &'a [Token]), PartFault>
    ensures { Parsed (IsType text.now) Anything tokens.now result }
{
    match head(tokens) {
        None => Err(PartFault::Stuck(0)),
        Some((first, rest)) => {
            if is_type(first.kind) {
                Ok((spot_of(alloc, text, first)?, rest))
            } else {
                Err(PartFault::Stuck(tokens.len()))
            }
        }
    }
}

/// The clock behind a type, if there is one. Its place is its `when`.
fn clock<'a>(
    alloc: Global,
    text: &[u8],
    tokens: &'a [Token],
) -> Result<(Option<Spot>, &'a [Token]), PartFault>
    ensures { Parsed (DerivesClock text.now) NoWhen tokens.now result }
{
    match accept(tokens, TokenKind::Word(Keyword::When)) {
        None => Ok((None, tokens)),
        Some((when, more)) => {
            let (of, rest) = name(alloc, text, more)?;
            refuse(rest, TokenKind::Word(Keyword::When))?;
            Ok((
                Some(Spot {
                    at: when.start,
                    text: of.text,
                }),
                rest,
            ))
        }
    }
}

/// Names with their type and their clock.
pub(crate) fn group<'a>(
    alloc: Global,
    text: &[u8],
    tokens: &'a [Token],
) -> Result<(Group, &'a [Token]), PartFault>
    ensures { Parsed (DerivesGroup text.now) NoWhen tokens.now result }
{
    let (names, behind_names) = names(alloc, text, tokens)?;
    let (_, behind_colon) = token(behind_names, TokenKind::Sign(Symbol::Colon))?;
    let (ty, behind_type) = type_name(alloc, text, behind_colon)?;
    let (clock, rest) = clock(alloc, text, behind_type)?;
    Ok((Group { names, ty, clock }, rest))
}

/// Groups with semicolons between, up to the `)` behind them.
fn params<'a>(
    alloc: Global,
    text: &[u8],
    tokens: &'a [Token],
) -> Result<(List<Group>, &'a [Token]), PartFault>
    ensures { Parsed (Closed text.now) Anything tokens.now result }
{
    let mut groups = List::new(alloc);
    let (first, mut rest) = group(alloc, text, tokens)?;
    groups.add(first)?;
    while let Some((_, more)) = accept(rest, TokenKind::Sign(Symbol::Semicolon)) {
        if let Some((_, behind)) = accept(more, TokenKind::Sign(Symbol::CloseParen)) {
            return Ok((groups, behind));
        }
        let (next, behind) = group(alloc, text, more)?;
        groups.add(next)?;
        rest = behind;
    }
    let (_, behind) = token(rest, TokenKind::Sign(Symbol::CloseParen))?;
    Ok((groups, behind))
}

/// A node's inputs, in parentheses.
pub(crate) fn inputs<'a>(
    alloc: Global,
    text: &[u8],
    tokens: &'a [Token],
) -> Result<(List<Group>, &'a [Token]), PartFault>
    ensures { Parsed (DerivesInputs text.now) Anything tokens.now result }
{
    let (_, inside) = token(tokens, TokenKind::Sign(Symbol::OpenParen))?;
    match accept(inside, TokenKind::Sign(Symbol::CloseParen)) {
        Some((_, rest)) => Ok((List::new(alloc), rest)),
        None => params(alloc, text, inside),
    }
}

/// A node's outputs, in parentheses.
pub(crate) fn outputs<'a>(
    alloc: Global,
    text: &[u8],
    tokens: &'a [Token],
) -> Result<(List<Group>, &'a [Token]), PartFault>
    ensures { Parsed (DerivesOutputs text.now) Anything tokens.now result }
{
    let (_, inside) = token(tokens, TokenKind::Sign(Symbol::OpenParen))?;
    params(alloc, text, inside)
}

/// A group and its semicolon.
fn line<'a>(
    alloc: Global,
    text: &[u8],
    tokens: &'a [Token],
) -> Result<(Group, &'a [Token]), PartFault>
    ensures { Parsed (Line text.now) Anything tokens.now result }
{
    let (group, behind) = group(alloc, text, tokens)?;
    let (_, rest) = token(behind, TokenKind::Sign(Symbol::Semicolon))?;
    Ok((group, rest))
}

/// Groups with a semicolon behind each.
fn lines<'a>(
    alloc: Global,
    text: &[u8],
    tokens: &'a [Token],
) -> Result<(List<Group>, &'a [Token]), PartFault>
    ensures { Parsed (DerivesLines text.now) NoName tokens.now result }
{
    let mut groups = List::new(alloc);
    let (first, mut rest) = line(alloc, text, tokens)?;
    groups.add(first)?;
    'lines: while let Some(_) = accept(rest, TokenKind::Name) {
        let (next, behind) = line(alloc, text, rest)?;
        groups.add(next)?;
        rest = behind;
    }
    Ok((groups, rest))
}

/// The local groups, if there are any, up to the `let` behind them.
fn locals<'a>(
    alloc: Global,
    text: &[u8],
    tokens: &'a [Token],
) -> Result<(List<Group>, &'a [Token]), PartFault>
    ensures { Parsed (LocalsAndLet text.now) Anything tokens.now result }
{
    match accept(tokens, TokenKind::Word(Keyword::Var)) {
        None => {
            let (_, rest) = token(tokens, TokenKind::Word(Keyword::Let))?;
            Ok((List::new(alloc), rest))
        }
        Some((_, more)) => {
            let (groups, behind) = lines(alloc, text, more)?;
            let (_, rest) = token(behind, TokenKind::Word(Keyword::Let))?;
            Ok((groups, rest))
        }
    }
}

/// What stands between a node's outputs and its items.
pub(crate) fn opening<'a>(
    alloc: Global,
    text: &[u8],
    tokens: &'a [Token],
) -> Result<(List<Group>, &'a [Token]), PartFault>
    ensures { Parsed (Opening text.now) Anything tokens.now result }
{
    match accept(tokens, TokenKind::Sign(Symbol::Semicolon)) {
        Some((_, more)) => locals(alloc, text, more),
        None => locals(alloc, text, tokens),
    }
}
