ghost use Rattle.std.specs.Prelude.{◌≡◌, ◌+◌, ◌<◌, ◌≤◌, ◌^◌, ℕ, true, false, length, drop, take, slice_index, IfSome, IfNone, MatchOption};
ghost use Rattle.std.specs.Char.{is_ascii_digit};
ghost use Rattle.lus_syntax.specs.Words.{is_letter, is_part, word_of, name_or, single_of, pair_of, number_of, value_from};
ghost use Rattle.lus_syntax.specs.Cuts.{IsLongest, IsNarrow, NoToken, is_blank, is_blank_first, begins, IsLine, IsClose, IsDense, closes_block};
ghost use Rattle.lus_syntax.specs.Pieces.{Begins};

use crate::token::{Symbol, TokenKind};
use crate::tokens::spellings::{sign_of, word_of};

/// What a text begins with, and its length in bytes: a blank or a comment, or a token.
#[derive(Clone, Copy, Debug)]
pub(crate) enum Piece {
    Gap(usize),
    Token(usize, TokenKind),
}

/// Why a text begins with no piece.
#[derive(Clone, Copy, Debug)]
pub(crate) enum Cause {
    BadByte,
    OpenComment,
    WideLiteral,
}

/// The piece that a text begins with. Where a comment begins, no sign does.
pub(crate) fn next_piece(rest: &[u8]) -> Result<Piece, Cause>
    requires { 0 < length rest.now }
    ensures { Begins rest.now result }
{
    if is_blank_first(rest) {
        Ok(Piece::Gap(1))
    } else if begins(rest, b'-', b'-') {
        Ok(Piece::Gap(2 + line(rest.split_at(2).1)))
    } else if begins(rest, b'(', b'*') {
        match close(rest.split_at(2).1) {
            Some(inside) => Ok(Piece::Gap(4 + inside)),
            None => Err(Cause::OpenComment),
        }
    } else {
        token(rest)
    }
}

fn is_letter(byte: u8) -> bool
    ensures { result ≡ is_letter byte }
{
    byte.is_ascii_alphabetic() || byte == b'_'
}

fn is_part(byte: u8) -> bool
    ensures { result ≡ is_part byte }
{
    is_letter(byte) || byte.is_ascii_digit()
}

fn is_blank(byte: u8) -> bool
    ensures { result ≡ is_blank byte }
{
    byte == b' ' || byte == b'\t' || byte == b'\r' || byte == b'\n' || byte == b'\x0c'
}

fn is_blank_first(rest: &[u8]) -> bool
    ensures { result ≡ is_blank_first rest.now }
{
    rest.len() > 0 && is_blank(rest[0])
}

fn begins(rest: &[u8], first: u8, second: u8) -> bool
    ensures { result ≡ begins first second rest.now }
{
    rest.len() >= 2 && rest[0] == first && rest[1] == second
}

/// The bytes before the first line feed, or all.
fn line(rest: &[u8]) -> usize
    ensures { IsLine rest.now result }
{
    for (len, byte) in rest.iter().enumerate() {
        if *byte == b'\n' {
            return len;
        }
    }
    rest.len()
}

/// The bytes before the first `*)`.
fn close(rest: &[u8]) -> Option<usize>
    ensures some { IfSome result (λ len. IsClose rest.now len) }
    ensures within { IfSome result (λ len. len + 2 ≤ length rest.now) }
    ensures none { IfNone result ((n : ℕ) → closes_block (drop n rest.now) ≡ false) }
{
    for len in 0..rest.len() {
        if begins(rest.split_at(len).1, b'*', b')') {
            return Some(len);
        }
    }
    None
}

fn token(rest: &[u8]) -> Result<Piece, Cause>
    requires some { 0 < length rest.now }
    requires dense { IsDense rest.now }
    ensures { Begins rest.now result }
{
    if is_letter(rest[0]) {
        let len = name_len(rest);
        Ok(Piece::Token(len, named(rest.split_at(len).0)))
    } else if rest[0].is_ascii_digit() {
        let len = digits_len(rest);
        match value(rest.split_at(len).0) {
            Some(number) => Ok(Piece::Token(len, TokenKind::Number(number))),
            None => Err(Cause::WideLiteral),
        }
    } else {
        match sign(rest) {
            Some((len, symbol)) => Ok(Piece::Token(len, TokenKind::Sign(symbol))),
            None => Err(Cause::BadByte),
        }
    }
}

#[tactic(auto, using(crate::proofs::LongestTokens::name_longest))]
fn name_len(rest: &[u8]) -> usize
    requires some { 0 < length rest.now }
    requires first { is_letter (slice_index rest.now 0) ≡ true }
    ensures { IsLongest rest.now result (name_or (word_of (take result rest.now))) }
{
    let mut len = 1;
    while len < rest.len() && is_part(rest[len]) {
        len += 1;
    }
    len
}

#[tactic(auto, using(crate::proofs::LongestTokens::digits_longest))]
fn digits_len(rest: &[u8]) -> usize
    requires some { 0 < length rest.now }
    requires no_letter { is_letter (slice_index rest.now 0) ≡ false }
    requires first { is_ascii_digit (slice_index rest.now 0) ≡ true }
    ensures { IsLongest rest.now result (TokenKind.Number (value_from 0 (take result rest.now))) }
{
    let mut len = 1;
    while len < rest.len() && rest[len].is_ascii_digit() {
        len += 1;
    }
    len
}

/// The number that the digits write, if it is below 2^128.
#[tactic(auto, using(crate::proofs::LongestTokens::value_grows))]
fn value(digits: &[u8]) -> Option<u128>
    ensures { MatchOption result (2 ^ 128 ≤ number_of digits.now) (λ v. v ≡ number_of digits.now) }
{
    let mut sum: u128 = 0;
    for byte in digits {
        match sum.checked_mul(10) {
            Some(tens) => match tens.checked_add(u128::from(byte.saturating_sub(b'0'))) {
                Some(more) => sum = more,
                None => return None,
            },
            None => return None,
        }
    }
    Some(sum)
}

fn named(bytes: &[u8]) -> TokenKind
    ensures narrow { IsNarrow result }
    ensures value { result ≡ name_or (word_of bytes.now) }
{
    match word_of(bytes) {
        Some(word) => TokenKind::Word(word),
        None => TokenKind::Name,
    }
}

fn single(rest: &[u8]) -> Option<Symbol>
    ensures { result ≡ single_of rest.now }
{
    if rest.is_empty() {
        None
    } else {
        sign_of(rest.split_at(1).0)
    }
}

fn pair(rest: &[u8]) -> Option<Symbol>
    ensures { result ≡ pair_of rest.now }
{
    if rest.len() < 2 {
        None
    } else {
        sign_of(rest.split_at(2).0)
    }
}

#[tactic(auto, using(crate::proofs::LongestTokens::two_longest, crate::proofs::LongestTokens::one_longest, crate::proofs::LongestTokens::no_sign))]
fn sign(rest: &[u8]) -> Option<(usize, Symbol)>
    requires some { 0 < length rest.now }
    requires no_letter { is_letter (slice_index rest.now 0) ≡ false }
    requires no_digit { is_ascii_digit (slice_index rest.now 0) ≡ false }
    ensures some { IfSome result (λ s. IsLongest rest.now s.0 (TokenKind.Sign s.1)) }
    ensures none { IfNone result (NoToken rest.now) }
{
    match pair(rest) {
        Some(symbol) => Some((2, symbol)),
        None => match single(rest) {
            Some(symbol) => Some((1, symbol)),
            None => None,
        },
    }
}
