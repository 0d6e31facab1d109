//! The text of Lustre programs: tokens, and the trees that they derive.
#![tactic(auto)]

mod ast;
mod grammar;
mod limits;
mod operators;
mod printing;
#[cfg(test)]
mod test_helpers;
mod token;
mod tokens;

pub use ast::{Ast, BinOp, Decl, Expr, ExprKind, Group, Item, Spot, UnOp};
pub use grammar::fault::SyntaxFault;
pub use grammar::parser::{one_tree, parse};
pub use limits::{MOST_BYTES, MOST_COUNTED};
pub use operators::{Grouping, Infix, Prefix};
pub use printing::print;
pub use token::{Keyword, Symbol, Token, TokenKind};
pub use tokens::crowding::crowded;
pub use tokens::lexer::{LexFault, lex, one_cutting};
