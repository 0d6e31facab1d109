/// A reserved word.
#[derive(Clone, Copy, Debug, PartialEq, Eq)]
pub enum Keyword {
    And,
    Assert,
    Bool,
    Const,
    Current,
    Div,
    Else,
    Enum,
    False,
    Fby,
    If,
    Int,
    Let,
    Mod,
    Node,
    Nor,
    Not,
    Or,
    Pre,
    Real,
    Returns,
    Tel,
    Then,
    True,
    TypeWord,
    Var,
    When,
    Xor,
}

/// A sign.
#[derive(Clone, Copy, Debug, PartialEq, Eq)]
pub enum Symbol {
    OpenParen,
    CloseParen,
    OpenBrace,
    CloseBrace,
    Comma,
    Semicolon,
    Colon,
    Dot,
    Equals,
    NotEqual,
    Less,
    LessEqual,
    Greater,
    GreaterEqual,
    Implies,
    Arrow,
    Plus,
    Minus,
    Times,
}

/// What a token is. A number has its value.
#[derive(Clone, Copy, Debug, PartialEq, Eq)]
pub enum TokenKind {
    Name,
    Number(u128),
    Word(Keyword),
    Sign(Symbol),
}

/// A token: what it is, its first byte and the byte behind its last, counted from 0.
#[derive(Clone, Copy, Debug, PartialEq, Eq)]
pub struct Token {
    pub kind: TokenKind,
    pub start: u32,
    pub end: u32,
}
