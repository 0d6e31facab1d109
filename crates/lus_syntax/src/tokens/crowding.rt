ghost use Rattle.std.specs.Prelude.{◌≡◌, ◌≤◌, ℕ, length, IfSome, IfNone};
ghost use Rattle.lus_syntax.specs.Crowding.{IsCrowd, IsLeastCrowd, is_counted, is_semicolon};

use crate::limits::{MOST_BYTES, MOST_COUNTED};
use crate::token::{Keyword, Symbol, Token, TokenKind};

/// The place, counted from 0, of the first token that is an operator, `=`, `if` or `(` behind
/// `MOST_COUNTED` others since the last `;`; `None` where there is none. Takes at most `MOST_BYTES`
/// tokens, as many as `lex` gives, time in proportion to them, and no memory.
pub fn crowded(tokens: &[Token]) -> Option<u32>
    requires { length tokens.now ≤ MOST_BYTES }
    ensures some { IfSome result (λ place. IsLeastCrowd tokens.now place) }
    ensures none { IfNone result ((place : ℕ) → IsCrowd tokens.now place → ⊥) }
{
    let mut count = 0u32;
    for (place, token) in tokens.iter().enumerate() {
        if is_semicolon(token.kind) {
            count = 0;
        } else if is_counted(token.kind) {
            if count == MOST_COUNTED {
                return Some(place as u32);
            }
            count += 1;
        }
    }
    None
}

fn is_semicolon(kind: TokenKind) -> bool
    ensures { result ≡ is_semicolon kind }
{
    match kind {
        TokenKind::Sign(symbol) => match symbol {
            Symbol::Semicolon => true,
            _ => false,
        },
        _ => false,
    }
}

fn is_counted(kind: TokenKind) -> bool
    ensures { result ≡ is_counted kind }
{
    match kind {
        TokenKind::Word(word) => is_counted_word(word),
        TokenKind::Sign(symbol) => is_counted_sign(symbol),
        _ => false,
    }
}

fn is_counted_word(word: Keyword) -> bool
    ensures { result ≡ is_counted (TokenKind.Word word) }
{
    match word {
        Keyword::And
        | Keyword::Current
        | Keyword::Div
        | Keyword::Fby
        | Keyword::If
        | Keyword::Mod
        | Keyword::Not
        | Keyword::Or
        | Keyword::Pre
        | Keyword::When
        | Keyword::Xor => true,
        _ => false,
    }
}

fn is_counted_sign(symbol: Symbol) -> bool
    ensures { result ≡ is_counted (TokenKind.Sign symbol) }
{
    match symbol {
        Symbol::OpenParen
        | Symbol::Equals
        | Symbol::NotEqual
        | Symbol::Less
        | Symbol::LessEqual
        | Symbol::Greater
        | Symbol::GreaterEqual
        | Symbol::Implies
        | Symbol::Arrow
        | Symbol::Plus
        | Symbol::Minus
        | Symbol::Times => true,
        _ => false,
    }
}
