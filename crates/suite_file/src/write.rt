//! Writing suites.
ghost use Rattle.std.specs.Prelude.{◌≡◌, ◌≤◌, ◌++◌, ◌∷◌, ◌*◌, [], ℕ, length, map, option_map, IfOk, OnErr, OnOk, All};
ghost use Rattle.op_network.specs.Valid.{FitsTest};
ghost use Rattle.std.specs.List.{flat_map};
ghost use Rattle.op_network.specs.Run.{rows};
ghost use Rattle.csv.specs.Records.{fields_of, partial_of};
ghost use Rattle.suite_file.specs.Writing.{written, IsWriting, Writes};
ghost use Rattle.suite_file.specs.Written.{value_text, texts_of, instant_record, test_records, header_record, suite_text, text_of, enumerator_name};

use crate::header::{name_of, type_at};
use cov_base::{List, Memory, push_decimal};
use csv::{ByteRecord, Writer, WriterBuilder};
use op_network::{Choice, Network, Parts, Test, Ty, Value};
use std::alloc::Global;

/// The name of an enumerator.
fn enumerator(choice: Option<&Choice>, k: u8) -> &[u8]
    ensures { result.now ≡ enumerator_name (option_map (λ c. c.now) choice.entry) k }
{
    match choice {
        Some(choice) => match choice.names.as_slice().get(usize::from(k)) {
            Some(name) => name.bytes(),
            None => b"",
        },
        None => b"",
    }
}

/// Adds the text of a value of a type.
fn push_value(parts: &Parts, ty: Ty, value: Value, text: &mut List<u8>) -> Result<(), Memory>
    ensures { OnOk result (text.new ≡ text.old ++ value_text parts.now ty value) }
{
    match value {
        Value::Truth(truth) => text.extend_from_slice(if truth { b"1" } else { b"0" }),
        Value::Word(word) => push_decimal(text, i64::from(word)),
        Value::Choice(k) => match ty {
            Ty::Truth => Ok(()),
            Ty::Word => Ok(()),
            Ty::Choice(c) => {
                text.extend_from_slice(enumerator(parts.choices.as_slice().get(c as usize), k))
            }
        },
    }
}

/// Adds a field.
fn push_field(row: &mut ByteRecord, field: &[u8]) -> Result<(), Memory>
    requires { partial_of row.old ≡ [] }
    ensures fields { OnOk result (fields_of row.new ≡ fields_of row.old ++ field.now ∷ []) }
    ensures partial { OnOk result (partial_of row.new ≡ []) }
{
    row.push_field(field)?;
    Ok(())
}

/// Adds the values of the inputs in their order.
fn push_values(
    parts: &Parts,
    values: &[Value],
    text: &mut List<u8>,
    row: &mut ByteRecord,
) -> Result<(), Memory>
    requires size { length values.now ≡ length parts.now.inputs }
    requires partial { partial_of row.old ≡ [] }
    ensures fields { OnOk result (fields_of row.new
        ≡ fields_of row.old ++ texts_of parts.now parts.now.inputs values.now) }
    ensures partial { OnOk result (partial_of row.new ≡ []) }
{
    let inputs = parts.inputs.as_slice();
    for i in 0..inputs.len() {
        text.cut(0);
        let ty = type_at(parts.edges.as_slice(), inputs[i].0);
        push_value(parts, ty, values[i], text)?;
        push_field(row, text.as_slice())?;
    }
    Ok(())
}

/// Writes a record.
#[tactic(auto, using(crate::proofs::Writers::row_written, crate::proofs::Writers::still_writing))]
fn put_row(writer: &mut Writer<Vec<u8>>, row: &ByteRecord) -> Result<(), Memory>
    requires { IsWriting writer.old }
    ensures writing { OnOk result (IsWriting writer.new) }
    ensures written { OnOk result (Writes writer.old writer.new (fields_of row.now)) }
{
    let Ok(()) = writer.write_byte_record(row) else {
        return Err(Memory);
    };
    Ok(())
}

/// Writes the header.
fn put_header(alloc: Global, parts: &Parts, writer: &mut Writer<Vec<u8>>) -> Result<(), Memory>
    requires { IsWriting writer.old }
    ensures writing { OnOk result (IsWriting writer.new) }
    ensures written { OnOk result (Writes writer.old writer.new (header_record parts.now)) }
{
    let mut row = ByteRecord::new(alloc);
    push_field(&mut row, b"test")?;
    for e in parts.inputs.as_slice() {
        push_field(&mut row, name_of(parts.edges.as_slice(), *e))?;
    }
    put_row(writer, &row)
}

/// Writes the record of an instant.
fn put_instant(
    parts: &Parts,
    name: &[u8],
    values: &[Value],
    text: &mut List<u8>,
    row: &mut ByteRecord,
    writer: &mut Writer<Vec<u8>>,
) -> Result<(), Memory>
    requires size { length values.now ≡ length parts.now.inputs }
    requires writing { IsWriting writer.old }
    ensures writing { OnOk result (IsWriting writer.new) }
    ensures written { OnOk result (Writes writer.old writer.new
        (instant_record parts.now name.now values.now)) }
{
    row.clear();
    push_field(row, name)?;
    push_values(parts, values, text, row)?;
    put_row(writer, row)
}

/// Writes the records of a test.
#[tactic(auto, using(crate::proofs::Writers::rows_more))]
fn put_test(
    parts: &Parts,
    test: &Test,
    text: &mut List<u8>,
    row: &mut ByteRecord,
    writer: &mut Writer<Vec<u8>>,
) -> Result<(), Memory>
    requires size { length test.now.values ≡ test.now.instants * length parts.now.inputs }
    requires writing { IsWriting writer.old }
    ensures writing { OnOk result (IsWriting writer.new) }
    ensures written { OnOk result (written writer.new
        ≡ written writer.old ++ text_of (test_records parts.now test.now)) }
{
    let width = parts.inputs.len();
    let mut rest = test.values.as_slice();
    for _instant in 0..test.instants {
        let (values, later) = rest.split_at(width);
        put_instant(parts, test.name.bytes(), values, text, row, writer)?;
        rest = later;
    }
    Ok(())
}

/// Adds the text of a suite: the header with the inputs in their order, and the records of the
/// tests in theirs. For want of memory it answers `Memory` and adds nothing. The cost is linear in
/// the text, in time and in memory.
#[tactic(auto, using(crate::proofs::Writers::tests_more, crate::proofs::Writers::no_more_tests))]
pub fn write_suite(
    alloc: Global,
    net: &Network,
    tests: &[Test],
    out: &mut List<u8>,
) -> Result<(), Memory>
    requires { All (FitsTest net.now) tests.now }
    ensures ok { OnOk result (out.new ≡ out.old ++ suite_text net.now tests.now) }
    ensures err { OnErr result (out.new ≡ out.old) }
{
    let parts = net.parts();
    let mut writer = WriterBuilder::new().from_writer(Vec::new(alloc));
    put_header(alloc, parts, &mut writer)?;
    let mut row = ByteRecord::new(alloc);
    let mut text = List::new(alloc);
    for test in tests {
        put_test(parts, test, &mut text, &mut row, &mut writer)?;
    }
    let Ok(bytes) = writer.into_inner() else {
        return Err(Memory);
    };
    out.extend_from_slice(bytes.as_slice())
}
