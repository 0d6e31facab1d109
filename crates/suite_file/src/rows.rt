//! The records of a text, one after the other.
ghost use Rattle.std.specs.Prelude.{◌≡◌, length, option_map, slice_get, IfOk};
ghost use Rattle.csv.specs.Reading.{strip_bom, is_bom};
ghost use Rattle.suite_file.specs.Reading.{IsReading, ReadsOne, unread};
ghost use Rattle.suite_file.specs.Records.{suite_records, fields, is_blank as blank, trimmed_start as start_trimmed, trimmed_end as end_trimmed};

use cov_base::Memory;
use csv::{ByteRecord, Reader, ReaderBuilder};
use std::alloc::Global;

/// Whether three bytes are the byte order mark.
fn is_mark(a: u8, b: u8, c: u8) -> bool
    ensures { result ≡ is_bom a b c }
{
    a == 0xEF && b == 0xBB && c == 0xBF
}

/// The bytes behind a byte order mark, where they begin with one.
#[tactic(auto, using(crate::proofs::Behind::mark_is, crate::proofs::Behind::no_mark))]
fn without_mark(bytes: &[u8]) -> &[u8]
    ensures { result.now ≡ strip_bom bytes.now }
{
    match bytes {
        [a, b, c, rest @ ..] => { if is_mark(*a, *b, *c) { rest } else { bytes } }
        _ => bytes,
    }
}

/// A reader that has all records of the text before it.
pub(crate) fn reader_of(alloc: Global, bytes: &[u8]) -> Reader<&[u8]>
    ensures reading { IsReading result }
    ensures unread { unread result ≡ suite_records bytes.now }
{
    ReaderBuilder::new()
        .has_headers(false)
        .flexible(true)
        .from_reader(alloc, without_mark(bytes))
}

/// Reads the next record, if there is one.
#[tactic(auto, using(crate::proofs::Behind::row_read))]
pub(crate) fn next_row(reader: &mut Reader<&[u8]>, row: &mut ByteRecord) -> Result<bool, Memory>
    requires { IsReading reader.old }
    ensures { IfOk result (λ found. ReadsOne found reader.old reader.new row.new) }
{
    let Ok(found) = reader.read_byte_record(row) else {
        return Err(Memory);
    };
    Ok(found)
}

/// Whether a byte doesn't count at the ends of a field.
fn is_blank(byte: u8) -> bool
    ensures { result ≡ blank byte }
{
    byte == b' ' || byte == b'\t'
}

/// A field without the blanks at its start.
fn trimmed_start(field: &[u8]) -> &[u8]
    ensures { result.now ≡ start_trimmed field.now }
{
    let mut rest = field;
    while let [byte, later @ ..] = rest {
        if !is_blank(*byte) {
            return rest;
        }
        rest = later;
    }
    rest
}

/// A field without the blanks at its end.
fn trimmed_end(field: &[u8]) -> &[u8]
    ensures { result.now ≡ end_trimmed field.now }
{
    let mut rest = field;
    while let [front @ .., byte] = rest {
        if !is_blank(*byte) {
            return rest;
        }
        rest = front;
    }
    rest
}

/// How many fields a record has.
#[tactic(auto, using(crate::proofs::Behind::field_number))]
pub(crate) fn width(row: &ByteRecord) -> usize
    ensures { result ≡ length (fields row.now) }
{
    row.len()
}

/// A field of a record, without the blanks at its ends.
#[tactic(auto, using(crate::proofs::Behind::trimmed_at))]
pub(crate) fn field(row: &ByteRecord, i: usize) -> Option<&[u8]>
    ensures { option_map (λ s. s.now) result ≡ slice_get (fields row.now) i }
{
    match row.get(i) {
        Some(field) => Some(trimmed_end(trimmed_start(field))),
        None => None,
    }
}
