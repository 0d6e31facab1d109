ghost use Rattle.std.specs.Prelude.{◌≡◌};
ghost use Rattle.lus_syntax.specs.Operators.{infix_of, prefix_of, left_rank, right_rank};
ghost use Rattle.lus_syntax.specs.Reading.{operand_rank};

use crate::ast::{BinOp, UnOp};
use crate::token::{Keyword, Symbol, TokenKind};

/// How operators of one rank in a row are read: from the left, from the right, or not at all.
#[derive(Clone, Copy, Debug, PartialEq, Eq)]
pub enum Grouping {
    /// What stands before the operator is its left operand, as in `(a - b) - c`.
    ToLeft,
    /// What stands behind the operator is its right operand, as in `a -> (b -> c)`.
    ToRight,
    /// Only one may stand there: `a = b = c` is no expression.
    Alone,
}

/// An operator between two operands, with its place in the table of operators.
#[derive(Clone, Copy, Debug, PartialEq, Eq)]
pub struct Infix {
    /// How loosely it binds, from 2 to 10; atoms have rank 0.
    pub rank: u8,
    /// How it is read with others of its rank in a row.
    pub grouping: Grouping,
    /// The operator in the tree.
    pub op: BinOp,
}

/// An operator before its operand, with its place in the table of operators.
#[derive(Clone, Copy, Debug, PartialEq, Eq)]
pub struct Prefix {
    /// How loosely it binds, 1 or 5; atoms have rank 0.
    pub rank: u8,
    /// The operator in the tree.
    pub op: UnOp,
}

/// The operator that a token is between two operands.
pub(crate) fn infix_of(kind: TokenKind) -> Option<Infix>
    ensures { result ≡ infix_of kind }
{
    let (rank, grouping, op) = match kind {
        TokenKind::Word(Keyword::When) => (2, Grouping::ToLeft, BinOp::When),
        TokenKind::Sign(Symbol::Times) => (3, Grouping::ToLeft, BinOp::Mul),
        TokenKind::Word(Keyword::Div) => (3, Grouping::ToLeft, BinOp::Div),
        TokenKind::Word(Keyword::Mod) => (3, Grouping::ToLeft, BinOp::Mod),
        TokenKind::Sign(Symbol::Plus) => (4, Grouping::ToLeft, BinOp::Add),
        TokenKind::Sign(Symbol::Minus) => (4, Grouping::ToLeft, BinOp::Sub),
        TokenKind::Sign(Symbol::Equals) => (6, Grouping::Alone, BinOp::Eq),
        TokenKind::Sign(Symbol::NotEqual) => (6, Grouping::Alone, BinOp::Ne),
        TokenKind::Sign(Symbol::Less) => (6, Grouping::Alone, BinOp::Lt),
        TokenKind::Sign(Symbol::LessEqual) => (6, Grouping::Alone, BinOp::Le),
        TokenKind::Sign(Symbol::Greater) => (6, Grouping::Alone, BinOp::Gt),
        TokenKind::Sign(Symbol::GreaterEqual) => (6, Grouping::Alone, BinOp::Ge),
        TokenKind::Word(Keyword::And) => (7, Grouping::ToLeft, BinOp::And),
        TokenKind::Word(Keyword::Or) => (8, Grouping::ToLeft, BinOp::Or),
        TokenKind::Word(Keyword::Xor) => (8, Grouping::ToLeft, BinOp::Xor),
        TokenKind::Sign(Symbol::Implies) => (9, Grouping::ToRight, BinOp::Imp),
        TokenKind::Sign(Symbol::Arrow) => (10, Grouping::ToRight, BinOp::Arrow),
        TokenKind::Word(Keyword::Fby) => (10, Grouping::ToRight, BinOp::Fby),
        _ => return None,
    };
    Some(Infix { rank, grouping, op })
}

/// The operator that a token is before an operand.
pub(crate) fn prefix_of(kind: TokenKind) -> Option<Prefix>
    ensures { result ≡ prefix_of kind }
{
    let (rank, op) = match kind {
        TokenKind::Sign(Symbol::Minus) => (1, UnOp::Neg),
        TokenKind::Word(Keyword::Pre) => (1, UnOp::Pre),
        TokenKind::Word(Keyword::Current) => (1, UnOp::Current),
        TokenKind::Word(Keyword::Not) => (5, UnOp::Not),
        _ => return None,
    };
    Some(Prefix { rank, op })
}

/// The loosest rank of an operator's left operand.
pub(crate) fn left_rank(op: Infix) -> u8
    ensures { result ≡ left_rank op }
{
    match op.grouping {
        Grouping::ToLeft => op.rank,
        Grouping::ToRight => op.rank.saturating_sub(1),
        Grouping::Alone => op.rank.saturating_sub(1),
    }
}

/// The loosest rank of an operator's right operand.
pub(crate) fn right_rank(op: Infix) -> u8
    ensures { result ≡ right_rank op }
{
    match op.grouping {
        Grouping::ToLeft => op.rank.saturating_sub(1),
        Grouping::ToRight => op.rank,
        Grouping::Alone => op.rank.saturating_sub(1),
    }
}

/// The rank of an operand that begins with a token: its operator's, or 1 for `if`, or 0.
pub(crate) fn operand_rank(kind: TokenKind) -> u8
    ensures { result ≡ operand_rank kind }
{
    match prefix_of(kind) {
        Some(prefix) => prefix.rank,
        None => match kind {
            TokenKind::Word(Keyword::If) => 1,
            _ => 0,
        },
    }
}
