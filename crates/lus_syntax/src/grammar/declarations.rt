ghost use Rattle.std.specs.Prelude.{◌≡◌, length, IfOk, IfErr};
ghost use Rattle.lus_syntax.specs.Grammar.{DerivesDecl, DerivesDecls};
ghost use Rattle.lus_syntax.specs.Parts.{Parsed};
ghost use Rattle.lus_syntax.specs.Sections.{Anything, EndsDecl, AtEnd, Choices, TypeParts, MayValue, ConstTail, ConstParts, Closing, Signature, Definition, NodeParts};

use crate::ast::{Decl, Expr, Group, Item, Spot};
use crate::grammar::fault::PartFault;
use crate::grammar::front::{accept, head};
use crate::grammar::groups::{inputs, name, names, opening, outputs, refuse, token, type_name};
use crate::grammar::items::{ended, items};
use crate::token::{Keyword, Symbol, Token, TokenKind};
use cov_base::List;
use std::alloc::Global;

/// What stands in front of a node's definition.
#[derive(Drop)]
struct Heading {
    at: u32,
    name: Spot,
    inputs: List<Group>,
    outputs: List<Group>,
}

/// What a node defines.
#[derive(Drop)]
struct Body {
    locals: List<Group>,
    items: List<Item>,
}

/// What stands behind a constant's name.
#[derive(Drop)]
struct Constant {
    ty: Option<Spot>,
    value: Option<Expr>,
}

/// The names of a type's values, behind its name.
fn choices<'a>(
    alloc: Global,
    text: &[u8],
    tokens: &'a [Token],
) -> Result<(List<Spot>, &'a [Token]), PartFault>
    ensures { Parsed (Choices text.now) Anything tokens.now result }
{
    let (_, behind_equals) = token(tokens, TokenKind::Sign(Symbol::Equals))?;
    let (_, behind_enum) = token(behind_equals, TokenKind::Word(Keyword::Enum))?;
    let (_, inside) = token(behind_enum, TokenKind::Sign(Symbol::OpenBrace))?;
    let (choices, behind) = names(alloc, text, inside)?;
    let (_, last) = token(behind, TokenKind::Sign(Symbol::CloseBrace))?;
    let (_, rest) = token(last, TokenKind::Sign(Symbol::Semicolon))?;
    Ok((choices, rest))
}

/// A type.
fn type_decl<'a>(
    alloc: Global,
    text: &[u8],
    tokens: &'a [Token],
) -> Result<(Decl, &'a [Token]), PartFault>
    ensures { Parsed (TypeParts text.now) Anything tokens.now result }
{
    let (keyword, behind_keyword) = token(tokens, TokenKind::Word(Keyword::TypeWord))?;
    let (name, behind) = name(alloc, text, behind_keyword)?;
    let (choices, rest) = choices(alloc, text, behind)?;
    Ok((
        Decl::TypeDecl {
            at: keyword.start,
            name,
            choices,
        },
        rest,
    ))
}

/// A constant's value behind its type, if it has one.
fn value_or_none<'a>(
    alloc: Global,
    text: &[u8],
    tokens: &'a [Token],
) -> Result<(Option<Expr>, &'a [Token]), PartFault>
    ensures { Parsed (MayValue text.now) Anything tokens.now result }
{
    match accept(tokens, TokenKind::Sign(Symbol::Equals)) {
        Some((_, more)) => {
            let (value, rest) = ended(alloc, text, more)?;
            Ok((Some(value), rest))
        }
        None => {
            let (_, rest) = token(tokens, TokenKind::Sign(Symbol::Semicolon))?;
            Ok((None, rest))
        }
    }
}

/// A constant's type and value, one of which it has.
fn type_and_value<'a>(
    alloc: Global,
    text: &[u8],
    tokens: &'a [Token],
) -> Result<(Constant, &'a [Token]), PartFault>
    ensures { Parsed (ConstTail text.now) Anything tokens.now result }
{
    match accept(tokens, TokenKind::Sign(Symbol::Equals)) {
        Some((_, more)) => {
            let (value, rest) = ended(alloc, text, more)?;
            Ok((
                Constant {
                    ty: None,
                    value: Some(value),
                },
                rest,
            ))
        }
        None => {
            let (_, behind_colon) = token(tokens, TokenKind::Sign(Symbol::Colon))?;
            let (ty, behind) = type_name(alloc, text, behind_colon)?;
            let (value, rest) = value_or_none(alloc, text, behind)?;
            Ok((
                Constant {
                    ty: Some(ty),
                    value,
                },
                rest,
            ))
        }
    }
}

/// A constant.
fn const_decl<'a>(
    alloc: Global,
    text: &[u8],
    tokens: &'a [Token],
) -> Result<(Decl, &'a [Token]), PartFault>
    ensures { Parsed (ConstParts text.now) Anything tokens.now result }
{
    let (keyword, behind_keyword) = token(tokens, TokenKind::Word(Keyword::Const))?;
    let (name, behind) = name(alloc, text, behind_keyword)?;
    let (constant, rest) = type_and_value(alloc, text, behind)?;
    let Constant { ty, value } = constant;
    Ok((
        Decl::ConstDecl {
            at: keyword.start,
            name,
            ty,
            value,
        },
        rest,
    ))
}

/// Nothing, where no `;` and no `.` stands in front.
fn refuse_signs(tokens: &[Token]) -> Result<(), PartFault>
    ensures ok { IfOk result (λ _. EndsDecl tokens.now) }
    ensures begins { IfErr result (λ fault. EndsDecl tokens.now → ⊥) }
    ensures err { IfErr result (λ fault. fault ≡ PartFault.Stuck (length tokens.now)) }
{
    refuse(tokens, TokenKind::Sign(Symbol::Semicolon))?;
    refuse(tokens, TokenKind::Sign(Symbol::Dot))
}

/// The sign behind a node's `tel`, if there is one.
fn closing(tokens: &[Token]) -> Result<(Option<Token>, &[Token]), PartFault>
    ensures { Parsed Closing EndsDecl tokens.now result }
{
    match accept(tokens, TokenKind::Sign(Symbol::Semicolon)) {
        Some((sign, rest)) => {
            refuse_signs(rest)?;
            Ok((Some(sign), rest))
        }
        None => match accept(tokens, TokenKind::Sign(Symbol::Dot)) {
            Some((sign, rest)) => {
                refuse_signs(rest)?;
                Ok((Some(sign), rest))
            }
            None => Ok((None, tokens)),
        },
    }
}

/// A node as far as its outputs.
fn signature<'a>(
    alloc: Global,
    text: &[u8],
    tokens: &'a [Token],
) -> Result<(Heading, &'a [Token]), PartFault>
    ensures { Parsed (Signature text.now) Anything tokens.now result }
{
    let (keyword, behind_keyword) = token(tokens, TokenKind::Word(Keyword::Node))?;
    let (name, behind_name) = name(alloc, text, behind_keyword)?;
    let (inputs, behind_inputs) = inputs(alloc, text, behind_name)?;
    let (_, behind_returns) = token(behind_inputs, TokenKind::Word(Keyword::Returns))?;
    let (outputs, rest) = outputs(alloc, text, behind_returns)?;
    Ok((
        Heading {
            at: keyword.start,
            name,
            inputs,
            outputs,
        },
        rest,
    ))
}

/// A node behind its outputs.
fn definition<'a>(
    alloc: Global,
    text: &[u8],
    tokens: &'a [Token],
) -> Result<(Body, &'a [Token]), PartFault>
    ensures { Parsed (Definition text.now) EndsDecl tokens.now result }
{
    let (locals, inside) = opening(alloc, text, tokens)?;
    let (items, behind_items) = items(alloc, text, inside)?;
    let (_, behind_tel) = token(behind_items, TokenKind::Word(Keyword::Tel))?;
    let (_, rest) = closing(behind_tel)?;
    Ok((Body { locals, items }, rest))
}

/// A node.
fn node_decl<'a>(
    alloc: Global,
    text: &[u8],
    tokens: &'a [Token],
) -> Result<(Decl, &'a [Token]), PartFault>
    ensures { Parsed (NodeParts text.now) EndsDecl tokens.now result }
{
    let (heading, behind) = signature(alloc, text, tokens)?;
    let (body, rest) = definition(alloc, text, behind)?;
    let Heading {
        at,
        name,
        inputs,
        outputs,
    } = heading;
    let Body { locals, items } = body;
    Ok((
        Decl::NodeDecl {
            at,
            name,
            inputs,
            outputs,
            locals,
            items,
        },
        rest,
    ))
}

/// A declaration, where no `;` and no `.` stands behind it.
fn sealed(decl: Decl, rest: &[Token]) -> Result<(Decl, &[Token]), PartFault>
    ensures decl { IfOk result (λ f. f.0 ≡ decl) }
    ensures rest { IfOk result (λ f. f.1.now ≡ rest.now) }
    ensures ends { IfOk result (λ f. EndsDecl rest.now) }
    ensures begins { IfErr result (λ fault. EndsDecl rest.now → ⊥) }
    ensures err { IfErr result (λ fault. fault ≡ PartFault.Stuck (length rest.now)) }
{
    match refuse_signs(rest) {
        Ok(()) => Ok((decl, rest)),
        Err(fault) => Err(fault),
    }
}

/// A declaration.
fn decl<'a>(
    alloc: Global,
    text: &[u8],
    tokens: &'a [Token],
) -> Result<(Decl, &'a [Token]), PartFault>
    ensures { Parsed (DerivesDecl text.now) EndsDecl tokens.now result }
{
    if let Some(_) = accept(tokens, TokenKind::Word(Keyword::TypeWord)) {
        let (decl, rest) = type_decl(alloc, text, tokens)?;
        return sealed(decl, rest);
    }
    if let Some(_) = accept(tokens, TokenKind::Word(Keyword::Const)) {
        let (decl, rest) = const_decl(alloc, text, tokens)?;
        return sealed(decl, rest);
    }
    node_decl(alloc, text, tokens)
}

/// Declarations, up to the end of the tokens.
pub(crate) fn decls<'a>(
    alloc: Global,
    text: &[u8],
    tokens: &'a [Token],
) -> Result<(List<Decl>, &'a [Token]), PartFault>
    ensures { Parsed (DerivesDecls text.now) AtEnd tokens.now result }
{
    let mut decls = List::new(alloc);
    let mut rest = tokens;
    'decls: while let Some(_) = head(rest) {
        let (next, behind) = decl(alloc, text, rest)?;
        decls.add(next)?;
        rest = behind;
    }
    Ok((decls, rest))
}
