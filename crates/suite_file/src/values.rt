//! The values that fields name.
ghost use Rattle.std.specs.Prelude.{◌≡◌, ◌≤◌, ◌<◌, cond, ◌&&◌, nat_le, Some, None, length};
ghost use Rattle.std.specs.Str.{bytes_eq};
ghost use Rattle.op_network.specs.Valid.{IsValid};
ghost use Rattle.suite_file.specs.Values.{truth_of, next_number, numeral as number_of_digits, word_below, enumerator_from, value_of as value_named};

use crate::limits::MOST_ABSOLUTE;
use cov_base::Text;
use op_network::{MOST_NAMES, Parts, Ty, Value};

/// Whether a text is this word.
pub(crate) fn is(text: &[u8], word: &[u8]) -> bool
    ensures { result ≡ bytes_eq text.now word.now }
{
    text == word
}

/// A truth: `0`, `1`, `false` or `true`.
fn truth(text: &[u8]) -> Option<Value>
    ensures { result ≡ truth_of text.now }
{
    if is(text, b"0") || is(text, b"false") {
        return Some(Value::Truth(false));
    }
    if is(text, b"1") || is(text, b"true") {
        return Some(Value::Truth(true));
    }
    None
}

/// The number behind one more digit, if it is one and the number isn't above `MOST_ABSOLUTE`.
fn with_digit(number: u32, digit: u8) -> Option<u32>
    requires { number ≤ MOST_ABSOLUTE }
    ensures { result ≡ next_number number digit }
{
    if !digit.is_ascii_digit() {
        return None;
    }
    let next = u64::from(number) * 10 + u64::from(digit - b'0');
    if next <= u64::from(MOST_ABSOLUTE) {
        Some(next as u32)
    } else {
        None
    }
}

/// The number of one or more digits, if it isn't above `MOST_ABSOLUTE`.
#[tactic(auto, using(crate::proofs::Digits::start, crate::proofs::Digits::end, crate::proofs::Digits::digit_some, crate::proofs::Digits::digit_none, crate::proofs::Digits::digit_ends))]
fn numeral(digits: &[u8]) -> Option<u32>
    ensures { result ≡ number_of_digits digits.now }
{
    if digits.is_empty() {
        return None;
    }
    let mut number = 0;
    for digit in digits {
        match with_digit(number, *digit) {
            Some(next) => number = next,
            None => return None,
        }
    }
    Some(number)
}

/// A word: an optional minus and digits, from `-half` to below `half`.
fn word(half: u32, text: &[u8]) -> Option<Value>
    requires { half ≤ MOST_ABSOLUTE }
    ensures { result ≡ word_below half text.now }
{
    match text {
        [b'-', digits @ ..] => {
            let number = numeral(digits)?;
            if number <= half {
                Some(Value::Word((0 - i64::from(number)) as i32))
            } else {
                None
            }
        }
        _ => {
            let number = numeral(text)?;
            if number < half {
                Some(Value::Word(number as i32))
            } else {
                None
            }
        }
    }
}

/// The enumerator of a name, by its place.
fn enumerator(names: &[Text], text: &[u8]) -> Option<Value>
    requires { length names.now ≤ MOST_NAMES }
    ensures { result ≡ enumerator_from 0 names.now text.now }
{
    for k in 0..names.len() {
        if is(text, names[k].bytes()) {
            return Some(Value::Choice(k as u8));
        }
    }
    None
}

/// The value of a type that a field names.
pub(crate) fn value_of(parts: &Parts, ty: Ty, text: &[u8]) -> Option<Value>
    requires { IsValid parts.now }
    ensures { result ≡ value_named parts.now ty text.now }
{
    match ty {
        Ty::Truth => truth(text),
        Ty::Word => word(1 << (parts.width - 1), text),
        Ty::Choice(c) => match parts.choices.as_slice().get(c as usize) {
            Some(choice) => enumerator(choice.names.as_slice(), text),
            None => None,
        },
    }
}
