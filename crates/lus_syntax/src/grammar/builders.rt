ghost use Rattle.std.specs.Prelude.{◌≡◌, List, ℕ, [], ◌∷◌, ◌++◌, IfOk, OnOk};
ghost use Rattle.lus_syntax.specs.Grammar.{node, spelling, spot, literal};
ghost use Rattle.lus_syntax.specs.declared.token.TokenKind.TheVariants.{Name};

use crate::ast::{BinOp, Expr, ExprKind, Spot, UnOp};
use crate::token::{Keyword, Token, TokenKind};
use cov_base::{Memory, Text};
use sqlite_items::{Boxed, Items};
use std::alloc::Global;

/// The bytes of a token.
pub(crate) fn spelled(alloc: Global, text: &[u8], token: Token) -> Result<Text, Memory>
    ensures { IfOk result (λ spelled. spelled ≡ spelling text.now token) }
{
    let start = (token.start as usize).min(text.len());
    let behind = text.split_at(start).1;
    let len = (token.end.saturating_sub(token.start) as usize).min(behind.len());
    Text::from_bytes(alloc, behind.split_at(len).0)
}

/// A token's word and place.
pub(crate) fn spot_of(alloc: Global, text: &[u8], token: Token) -> Result<Spot, Memory>
    ensures { IfOk result (λ s. s ≡ spot text.now token) }
{
    let text = spelled(alloc, text, token)?;
    Ok(Spot {
        at: token.start,
        text,
    })
}

/// An expression at a place.
pub(crate) fn leaf(at: u32, kind: ExprKind) -> Expr
    ensures { result ≡ node at kind }
{
    Expr { at, kind }
}

/// An operator before its operand.
pub(crate) fn one_of(alloc: Global, at: u32, op: UnOp, a: Expr) -> Result<Expr, Memory>
    ensures { IfOk result (λ e. e ≡ node at (ExprKind.One op a)) }
{
    let a = Boxed::new(alloc, a)?;
    Ok(leaf(at, ExprKind::One(op, a)))
}

/// An operator between its operands.
pub(crate) fn two_of(alloc: Global, at: u32, op: BinOp, a: Expr, b: Expr) -> Result<Expr, Memory>
    ensures { IfOk result (λ e. e ≡ node at (ExprKind.Two op a b)) }
{
    let a = Boxed::new(alloc, a)?;
    let b = Boxed::new(alloc, b)?;
    Ok(leaf(at, ExprKind::Two(op, a, b)))
}

/// An `if`.
pub(crate) fn cond_of(alloc: Global, at: u32, a: Expr, b: Expr, c: Expr) -> Result<Expr, Memory>
    ensures { IfOk result (λ e. e ≡ node at (ExprKind.Cond a b c)) }
{
    let a = Boxed::new(alloc, a)?;
    let b = Boxed::new(alloc, b)?;
    let c = Boxed::new(alloc, c)?;
    Ok(leaf(at, ExprKind::Cond(a, b, c)))
}

/// One argument more.
pub(crate) fn add_argument(arguments: &mut Items<Expr>, argument: Expr) -> Result<(), Memory>
    ensures { OnOk result (arguments.new ≡ arguments.old ++ argument ∷ []) }
{
    arguments.push(argument)?;
    Ok(())
}

/// The expression that a token is alone, where it is no name.
pub(crate) fn literal_of(token: Token) -> Option<Expr>
    requires { token.kind ≡ Name → ⊥ }
    ensures { (text : List ℕ) → result ≡ literal text token token.kind }
{
    match token.kind {
        TokenKind::Number(value) => Some(leaf(token.start, ExprKind::Number(value))),
        TokenKind::Word(Keyword::True) => Some(leaf(token.start, ExprKind::Truth(true))),
        TokenKind::Word(Keyword::False) => Some(leaf(token.start, ExprKind::Truth(false))),
        _ => None,
    }
}
