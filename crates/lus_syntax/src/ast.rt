use cov_base::{List, Text};
use sqlite_items::{Boxed, Items};

/// A word of the text and its place, the byte at which it begins. A clock's place is its `when`.
#[derive(Debug, Drop)]
pub struct Spot {
    pub at: u32,
    pub text: Text,
}

/// Names that are declared together, with their type and their clock. The types `bool`, `int` and
/// `real` have these texts.
#[derive(Debug, Drop)]
pub struct Group {
    pub names: List<Spot>,
    pub ty: Spot,
    pub clock: Option<Spot>,
}

/// A declaration; its place is its keyword.
#[derive(Debug, Drop)]
pub enum Decl {
    TypeDecl {
        at: u32,
        name: Spot,
        choices: List<Spot>,
    },
    ConstDecl {
        at: u32,
        name: Spot,
        ty: Option<Spot>,
        value: Option<Expr>,
    },
    NodeDecl {
        at: u32,
        name: Spot,
        inputs: List<Group>,
        outputs: List<Group>,
        locals: List<Group>,
        items: List<Item>,
    },
}

/// An assertion, whose place is its `assert`, or an equation, whose place is its `=`.
#[derive(Debug, Drop)]
pub enum Item {
    Assert {
        at: u32,
        expr: Expr,
    },
    Equation {
        at: u32,
        left: List<Spot>,
        expr: Expr,
    },
}

/// An operator with one operand.
#[derive(Clone, Copy, Debug, PartialEq, Eq)]
pub enum UnOp {
    Not,
    Neg,
    Pre,
    Current,
}

/// An operator with two operands.
#[derive(Clone, Copy, Debug, PartialEq, Eq)]
pub enum BinOp {
    And,
    Or,
    Xor,
    Imp,
    Eq,
    Ne,
    Lt,
    Le,
    Gt,
    Ge,
    Add,
    Sub,
    Mul,
    Div,
    Mod,
    Arrow,
    Fby,
    When,
}

/// An expression; its place is its operator, `if`, name or literal. Parentheses leave no trace.
#[cycle(expr)]
#[derive(Debug, Drop)]
pub struct Expr {
    pub at: u32,
    pub kind: ExprKind,
}

/// What an expression is.
#[cycle(expr)]
#[derive(Debug, Drop)]
pub enum ExprKind {
    Name(Text),
    Number(u128),
    Truth(bool),
    One(UnOp, Boxed<Expr>),
    Two(BinOp, Boxed<Expr>, Boxed<Expr>),
    Cond(Boxed<Expr>, Boxed<Expr>, Boxed<Expr>),
    Call(Text, Items<Expr>),
}

/// A program: its declarations in the order of the text, and the text's length in bytes.
#[derive(Debug, Drop)]
pub struct Ast {
    pub decls: List<Decl>,
    pub length: u32,
}
