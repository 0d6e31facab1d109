ghost use Rattle.std.specs.Prelude.{◌≡◌, ◌==◌, [], ◌∷◌, slice_index, OnOk, OnErr};
ghost use Rattle.lus_syntax.specs.Phrases.{Extends, blank, fixed, gap, is_tight, keyword, name, number, symbol, type_name, write_one, written};

use crate::token::{Keyword, Symbol, TokenKind};
use crate::tokens::spellings::{sign_text, word_text};
use cov_base::{List, Memory};
use itoa::Buffer;

/// No blanks before a token: it can't go on the token before it.
pub(crate) const JOINED: &[u8] = b"";
/// A blank before a token.
pub(crate) const BLANK: &[u8] = b" ";
/// A token on a line of its own.
pub(crate) const LINE: &[u8] = b"\n";
/// A token on an indented line of its own.
pub(crate) const INDENT: &[u8] = b"\n  ";

/// Whether nothing or a `(` stands at the end, behind which there are no blanks.
fn is_tight(out: &[u8]) -> bool
    ensures { result ≡ is_tight out.now }
{
    let len = out.len();
    len == 0 || out[len - 1] == b'('
}

fn is_star(bytes: &[u8]) -> bool
    ensures { result ≡ (slice_index bytes.now 0 == 42) }
{
    bytes.len() > 0 && bytes[0] == b'*'
}

/// The blanks before a token.
fn gap<'a>(tight: bool, lead: &'a [u8], bytes: &[u8]) -> &'a [u8]
    ensures { result.now ≡ gap tight lead.now bytes.now }
{
    if tight && !is_star(bytes) { b"" } else { lead }
}

/// Appends a token behind its blanks.
#[tactic(auto, using(crate::proofs::Writing::extends_append, crate::proofs::Writing::extends_self), unfolding(crate::specs::Phrases::write_one))]
fn put(out: &mut List<u8>, lead: &[u8], bytes: &[u8]) -> Result<(), Memory>
    ensures ok { OnOk result (out.new ≡ write_one out.old lead.now bytes.now) }
    ensures err { OnErr result (Extends out.old out.new) }
{
    let gap = gap(is_tight(out.as_slice()), lead, bytes);
    out.extend_from_slice(gap)?;
    out.extend_from_slice(bytes)
}

/// Appends a reserved word.
pub(crate) fn put_word(out: &mut List<u8>, lead: &[u8], word: Keyword) -> Result<(), Memory>
    ensures ok { OnOk result (out.new ≡ written out.old (keyword lead.now word ∷ [])) }
    ensures err { OnErr result (Extends out.old out.new) }
{
    put(out, lead, word_text(word))
}

/// Appends a sign.
pub(crate) fn put_sign(out: &mut List<u8>, lead: &[u8], sign: Symbol) -> Result<(), Memory>
    ensures ok { OnOk result (out.new ≡ written out.old (symbol lead.now sign ∷ [])) }
    ensures err { OnErr result (Extends out.old out.new) }
{
    put(out, lead, sign_text(sign))
}

/// Appends an operator.
pub(crate) fn put_operator(out: &mut List<u8>, kind: TokenKind) -> Result<(), Memory>
    ensures ok { OnOk result (out.new ≡ written out.old (fixed blank kind ∷ [])) }
    ensures err { OnErr result (Extends out.old out.new) }
{
    match kind {
        TokenKind::Word(word) => put_word(out, BLANK, word),
        TokenKind::Sign(sign) => put_sign(out, BLANK, sign),
        TokenKind::Name | TokenKind::Number(_) => put(out, BLANK, b""),
    }
}

/// Appends a name.
pub(crate) fn put_name(out: &mut List<u8>, lead: &[u8], text: &[u8]) -> Result<(), Memory>
    ensures ok { OnOk result (out.new ≡ written out.old (name lead.now text.now ∷ [])) }
    ensures err { OnErr result (Extends out.old out.new) }
{
    put(out, lead, text)
}

/// Appends the name of a type.
pub(crate) fn put_type(out: &mut List<u8>, text: &[u8]) -> Result<(), Memory>
    ensures ok { OnOk result (out.new ≡ written out.old (type_name text.now ∷ [])) }
    ensures err { OnErr result (Extends out.old out.new) }
{
    put(out, BLANK, text)
}

/// Appends a number in decimal digits.
pub(crate) fn put_number(out: &mut List<u8>, n: u128) -> Result<(), Memory>
    ensures ok { OnOk result (out.new ≡ written out.old (number n ∷ [])) }
    ensures err { OnErr result (Extends out.old out.new) }
{
    let mut buffer = Buffer::new();
    put(out, BLANK, buffer.format(n).as_bytes())
}
