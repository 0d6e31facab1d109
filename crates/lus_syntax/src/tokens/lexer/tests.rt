use super::*;
use crate::token::{Keyword, Symbol, TokenKind};
use crate::tokens::crowding::crowded;
use std::test::Fail;

/// Whether the text is cut into tokens of exactly these kinds.
fn has_kinds(alloc: Global, text: &[u8], kinds: &[TokenKind]) -> bool {
    if text.len() > MOST_BYTES {
        return false;
    }
    match lex(alloc, text) {
        Ok(tokens) => same_kinds(tokens.as_slice(), kinds),
        Err(_) => false,
    }
}

fn same_kinds(tokens: &[Token], kinds: &[TokenKind]) -> bool {
    if tokens.len() != kinds.len() {
        return false;
    }
    for (token, kind) in tokens.iter().zip(kinds) {
        if token.kind != *kind {
            return false;
        }
    }
    true
}

fn fault_of(alloc: Global, text: &[u8]) -> Option<LexFault> {
    if text.len() > MOST_BYTES {
        return None;
    }
    match lex(alloc, text) {
        Ok(_) => None,
        Err(fault) => Some(fault),
    }
}

/// Where a semicolon, so many `and` and a semicolon, three times, are crowded.
fn crowd_of(alloc: Global, counts: [u32; 3]) -> Result<Option<u32>, Fail> {
    let mut text = Vec::new(alloc);
    for count in counts {
        text.extend_from_slice(b";")?;
        push_ands(&mut text, count)?;
    }
    text.extend_from_slice(b";")?;
    if text.len() > MOST_BYTES {
        return Ok(None);
    }
    let tokens = lex(alloc, text.as_slice())?;
    Ok(crowded(tokens.as_slice()))
}

fn push_ands(text: &mut Vec<u8>, count: u32) -> Result<(), Fail> {
    for _ in 0..count {
        text.extend_from_slice(b" and")?;
    }
    Ok(())
}

#[test]
fn words(rt: HostRuntime) {
    for (text, word) in [
        (b"and".as_slice(), Keyword::And),
        (b"assert", Keyword::Assert),
        (b"bool", Keyword::Bool),
        (b"const", Keyword::Const),
        (b"current", Keyword::Current),
        (b"div", Keyword::Div),
        (b"else", Keyword::Else),
        (b"enum", Keyword::Enum),
        (b"false", Keyword::False),
        (b"fby", Keyword::Fby),
        (b"if", Keyword::If),
        (b"int", Keyword::Int),
        (b"let", Keyword::Let),
        (b"mod", Keyword::Mod),
        (b"node", Keyword::Node),
        (b"nor", Keyword::Nor),
        (b"not", Keyword::Not),
        (b"or", Keyword::Or),
        (b"pre", Keyword::Pre),
        (b"real", Keyword::Real),
        (b"returns", Keyword::Returns),
        (b"tel", Keyword::Tel),
        (b"then", Keyword::Then),
        (b"true", Keyword::True),
        (b"type", Keyword::TypeWord),
        (b"var", Keyword::Var),
        (b"when", Keyword::When),
        (b"xor", Keyword::Xor),
    ] {
        let kind = TokenKind::Word(word);
        assert!(rt; has_kinds(rt.alloc(), text, [kind].as_slice()), "{text:?}");
    }
}

#[test]
fn signs(rt: HostRuntime) {
    for (text, sign) in [
        (b"(".as_slice(), Symbol::OpenParen),
        (b")", Symbol::CloseParen),
        (b"{", Symbol::OpenBrace),
        (b"}", Symbol::CloseBrace),
        (b",", Symbol::Comma),
        (b";", Symbol::Semicolon),
        (b":", Symbol::Colon),
        (b".", Symbol::Dot),
        (b"=", Symbol::Equals),
        (b"<>", Symbol::NotEqual),
        (b"<", Symbol::Less),
        (b"<=", Symbol::LessEqual),
        (b">", Symbol::Greater),
        (b">=", Symbol::GreaterEqual),
        (b"=>", Symbol::Implies),
        (b"->", Symbol::Arrow),
        (b"+", Symbol::Plus),
        (b"-", Symbol::Minus),
        (b"*", Symbol::Times),
    ] {
        let kind = TokenKind::Sign(sign);
        assert!(rt; has_kinds(rt.alloc(), text, [kind].as_slice()), "{text:?}");
    }
}

#[test]
fn cuttings(rt: HostRuntime) {
    let name = TokenKind::Name;
    let comma = TokenKind::Sign(Symbol::Comma);
    let less_equal = TokenKind::Sign(Symbol::LessEqual);
    let greater = TokenKind::Sign(Symbol::Greater);
    let arrow = TokenKind::Sign(Symbol::Arrow);
    let minus = TokenKind::Sign(Symbol::Minus);
    for (text, kinds) in [
        (b"".as_slice(), [].as_slice()),
        (b" \t\r\n\x0c".as_slice(), [].as_slice()),
        (b"andx _a1 Pre".as_slice(), [name, name, name].as_slice()),
        (b"1a".as_slice(), [TokenKind::Number(1), name].as_slice()),
        (b"<=>".as_slice(), [less_equal, greater].as_slice()),
        (b"->-".as_slice(), [arrow, minus].as_slice()),
        (b"a-->b\n,".as_slice(), [name, comma].as_slice()),
        (b"-- \r a \x00\xff".as_slice(), [].as_slice()),
        (
            b"a(* -- (* \x00\xff\n ***),".as_slice(),
            [name, comma].as_slice(),
        ),
        (b"(**)a".as_slice(), [name].as_slice()),
        (
            b"340282366920938463463374607431768211455 007".as_slice(),
            [TokenKind::Number(u128::MAX), TokenKind::Number(7)].as_slice(),
        ),
    ] {
        assert!(rt; has_kinds(rt.alloc(), text, kinds), "{text:?}");
    }
}

#[test]
fn faults(rt: HostRuntime) {
    for (text, fault) in [
        (b"(*)".as_slice(), LexFault::OpenComment(0)),
        (b"a (* *".as_slice(), LexFault::OpenComment(2)),
        (b"a\x00".as_slice(), LexFault::BadByte(1)),
        (b"(* *)a \xff".as_slice(), LexFault::BadByte(7)),
        (b"a \xc3\xa9".as_slice(), LexFault::BadByte(2)),
        (b"/".as_slice(), LexFault::BadByte(0)),
        (
            b" 340282366920938463463374607431768211456".as_slice(),
            LexFault::WideLiteral(1),
        ),
    ] {
        assert_eq!(rt; fault_of(rt.alloc(), text), Some(fault));
    }
}

#[test]
fn crowds(rt: HostRuntime) -> Result<(), Fail> {
    for (counts, place) in [
        ([0, 500, 0], None),
        ([500, 500, 500], None),
        ([0, 501, 0], Some(502)),
        ([500, 500, 502], Some(1503)),
    ] {
        assert_eq!(rt; crowd_of(rt.alloc(), counts)?, place);
    }
    Ok(())
}
