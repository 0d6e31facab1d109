//! The lines and words of a text, one after the other.
ghost use Rattle.std.specs.Prelude.{◌≡◌, ◌<◌, ◌∷◌, [], IfNone, IfSome, false, length, slice_index};
ghost use Rattle.std.specs.Str.{bytes_eq};
ghost use Rattle.std.specs.List.{position_or_len};
ghost use Rattle.cnf_form.specs.Lines.{is_feed as feed, is_blank as blank, is_comment as comment, is_skipped as skipped, without_return as returnless, lines, words};

/// Whether a text is this word. The cost is linear in the word.
pub fn is_word(text: &[u8], word: &[u8]) -> bool
    ensures { result ≡ bytes_eq text.now word.now }
{
    text == word
}

fn is_feed(byte: u8) -> bool
    ensures { result ≡ feed byte }
{
    byte == b'\n'
}

fn is_blank(byte: u8) -> bool
    ensures { result ≡ blank byte }
{
    byte == b' ' || byte == b'\t'
}

/// A line without a carriage return at its end.
fn without_return(line: &[u8]) -> &[u8]
    ensures { result.now ≡ returnless line.now }
{
    match line {
        [front @ .., last] => { if *last == b'\r' { front } else { line } }
        _ => line,
    }
}

/// How many bytes stand before the first line feed.
#[tactic(auto, using(crate::proofs::Cuts::not_before, crate::proofs::Cuts::stands_at, crate::proofs::Cuts::none_left))]
fn line_len(text: &[u8]) -> usize
    ensures { result ≡ position_or_len feed text.now }
{
    for i in 0..text.len() {
        if is_feed(text[i]) {
            return i;
        }
    }
    text.len()
}

/// How many bytes stand before the first space or tab.
#[tactic(auto, using(crate::proofs::Cuts::not_before, crate::proofs::Cuts::stands_at, crate::proofs::Cuts::none_left))]
fn word_len(text: &[u8]) -> usize
    ensures { result ≡ position_or_len blank text.now }
{
    for i in 0..text.len() {
        if is_blank(text[i]) {
            return i;
        }
    }
    text.len()
}

/// The first line, and the text behind it. The cost is linear in the line.
#[tactic(auto, using(crate::proofs::Cuts::line_last, crate::proofs::Cuts::line_more, crate::proofs::Cuts::no_line, crate::proofs::Cuts::position_within))]
pub fn next_line(text: &[u8]) -> Option<(&[u8], &[u8])>
    ensures none { IfNone result (lines text.now ≡ []) }
    ensures first { IfSome result (λ f. lines text.now ≡ f.0.now ∷ lines f.1.now) }
    ensures shorter { IfSome result (λ f. length f.1.now < length text.now) }
{
    if text.is_empty() {
        return None;
    }
    let end = line_len(text);
    if end < text.len() {
        let (line, _) = text.split_at(end);
        let (_, later) = text.split_at(end + 1);
        Some((without_return(line), later))
    } else {
        let (_, later) = text.split_at(text.len());
        Some((without_return(text), later))
    }
}

/// The word at the front of a text, and the text behind it.
#[tactic(auto, using(crate::proofs::Cuts::word_first, crate::proofs::Cuts::word_some, crate::proofs::Cuts::position_within))]
fn front_word(text: &[u8]) -> (&[u8], &[u8])
    requires some { 0 < length text.now }
    requires solid { blank (slice_index text.now 0) ≡ false }
    ensures words { words text.now ≡ result.0.now ∷ words result.1.now }
    ensures shorter { length result.1.now < length text.now }
{
    text.split_at(word_len(text))
}

/// The first word of a line, if it has one, and the line behind it. The cost is linear in the bytes
/// up to there.
#[tactic(auto, using(crate::proofs::Cuts::blank_first))]
pub fn next_word(line: &[u8]) -> Option<(&[u8], &[u8])>
    ensures none { IfNone result (words line.now ≡ []) }
    ensures first { IfSome result (λ f. words line.now ≡ f.0.now ∷ words f.1.now) }
    ensures shorter { IfSome result (λ f. length f.1.now < length line.now) }
{
    let mut rest = line;
    while let [byte, later @ ..] = rest {
        if !is_blank(*byte) {
            return Some(front_word(rest));
        }
        rest = later;
    }
    None
}

/// Whether a line begins with `c`.
pub(crate) fn is_comment(line: &[u8]) -> bool
    ensures { result ≡ comment line.now }
{
    match line {
        [first, ..] => *first == b'c',
        _ => false,
    }
}

/// Whether a line is a comment, which begins with `c`, or has no words. The cost is linear in its
/// bytes up to the first word.
pub fn is_skipped(line: &[u8]) -> bool
    ensures { result ≡ skipped line.now }
{
    if is_comment(line) {
        return true;
    }
    match next_word(line) {
        Some(_) => false,
        None => true,
    }
}
