//! The one table of reserved words and signs, by which they are read and printed.

ghost use Rattle.std.specs.Prelude.{◌≡◌};
ghost use Rattle.lus_syntax.specs.Words.{word_text, word_of, word_among, sign_text, sign_of, sign_among};

use crate::token::{Keyword, Symbol};

/// All reserved words.
const WORDS: [Keyword; 28] = [
    Keyword::And,
    Keyword::Assert,
    Keyword::Bool,
    Keyword::Const,
    Keyword::Current,
    Keyword::Div,
    Keyword::Else,
    Keyword::Enum,
    Keyword::False,
    Keyword::Fby,
    Keyword::If,
    Keyword::Int,
    Keyword::Let,
    Keyword::Mod,
    Keyword::Node,
    Keyword::Nor,
    Keyword::Not,
    Keyword::Or,
    Keyword::Pre,
    Keyword::Real,
    Keyword::Returns,
    Keyword::Tel,
    Keyword::Then,
    Keyword::True,
    Keyword::TypeWord,
    Keyword::Var,
    Keyword::When,
    Keyword::Xor,
];

/// All signs.
const SIGNS: [Symbol; 19] = [
    Symbol::OpenParen,
    Symbol::CloseParen,
    Symbol::OpenBrace,
    Symbol::CloseBrace,
    Symbol::Comma,
    Symbol::Semicolon,
    Symbol::Colon,
    Symbol::Dot,
    Symbol::Equals,
    Symbol::NotEqual,
    Symbol::Less,
    Symbol::LessEqual,
    Symbol::Greater,
    Symbol::GreaterEqual,
    Symbol::Implies,
    Symbol::Arrow,
    Symbol::Plus,
    Symbol::Minus,
    Symbol::Times,
];

/// How a reserved word is spelled.
pub(crate) fn word_text(word: Keyword) -> &'static [u8]
    ensures { result.now ≡ word_text word }
{
    match word {
        Keyword::And => b"and",
        Keyword::Assert => b"assert",
        Keyword::Bool => b"bool",
        Keyword::Const => b"const",
        Keyword::Current => b"current",
        Keyword::Div => b"div",
        Keyword::Else => b"else",
        Keyword::Enum => b"enum",
        Keyword::False => b"false",
        Keyword::Fby => b"fby",
        Keyword::If => b"if",
        Keyword::Int => b"int",
        Keyword::Let => b"let",
        Keyword::Mod => b"mod",
        Keyword::Node => b"node",
        Keyword::Nor => b"nor",
        Keyword::Not => b"not",
        Keyword::Or => b"or",
        Keyword::Pre => b"pre",
        Keyword::Real => b"real",
        Keyword::Returns => b"returns",
        Keyword::Tel => b"tel",
        Keyword::Then => b"then",
        Keyword::True => b"true",
        Keyword::TypeWord => b"type",
        Keyword::Var => b"var",
        Keyword::When => b"when",
        Keyword::Xor => b"xor",
    }
}

/// How a sign is spelled.
pub(crate) fn sign_text(sign: Symbol) -> &'static [u8]
    ensures { result.now ≡ sign_text sign }
{
    match sign {
        Symbol::OpenParen => b"(",
        Symbol::CloseParen => b")",
        Symbol::OpenBrace => b"{",
        Symbol::CloseBrace => b"}",
        Symbol::Comma => b",",
        Symbol::Semicolon => b";",
        Symbol::Colon => b":",
        Symbol::Dot => b".",
        Symbol::Equals => b"=",
        Symbol::NotEqual => b"<>",
        Symbol::Less => b"<",
        Symbol::LessEqual => b"<=",
        Symbol::Greater => b">",
        Symbol::GreaterEqual => b">=",
        Symbol::Implies => b"=>",
        Symbol::Arrow => b"->",
        Symbol::Plus => b"+",
        Symbol::Minus => b"-",
        Symbol::Times => b"*",
    }
}

/// The reserved word that the bytes spell.
#[tactic(auto, unfolding(crate::specs::Words::word_of))]
pub(crate) fn word_of(bytes: &[u8]) -> Option<Keyword>
    ensures { result ≡ word_of bytes.now }
{
    word_among(&WORDS, bytes)
}

/// The sign that the bytes spell.
#[tactic(auto, unfolding(crate::specs::Words::sign_of))]
pub(crate) fn sign_of(bytes: &[u8]) -> Option<Symbol>
    ensures { result ≡ sign_of bytes.now }
{
    sign_among(&SIGNS, bytes)
}

/// The first of these words that the bytes spell.
fn word_among(words: &[Keyword], bytes: &[u8]) -> Option<Keyword>
    ensures { result ≡ word_among words.now bytes.now }
{
    for word in words {
        if bytes == word_text(*word) {
            return Some(*word);
        }
    }
    None
}

/// The first of these signs that the bytes spell.
fn sign_among(signs: &[Symbol], bytes: &[u8]) -> Option<Symbol>
    ensures { result ≡ sign_among signs.now bytes.now }
{
    for sign in signs {
        if bytes == sign_text(*sign) {
            return Some(*sign);
        }
    }
    None
}
