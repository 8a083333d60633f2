//! From names to what the files hold.
ghost use Rattle.std.specs.Prelude.{◌≡◌, ◌≤◌, length, IfOk, chars};
ghost use Rattle.std.specs.Str.Lossy.{utf8_lossy};
ghost use Rattle.rbbi_model.specs.Words.{IsText};
ghost use Rattle.rbbi_text.specs.Bytes.{most_bytes};
ghost use Rattle.rbbi_segment.specs.Contents.{IsRead};

use crate::colors::Colors;
use crate::escapes::append_name;
use crate::failure::{Failure, Status};
use crate::faults::{Place, fault_of};
use rbbi_io::{Files, ReadErr, Sink, put_all, read_at_most};
use rbbi_text::{PlainText, Raw, RawErr, Steps, TextErr, append, append_number};
use std::alloc::{AllocError, Global};
use std::io::{self, Read};
use std::sync::ledger::Ledger;

/// The most bytes of a rule file.
pub(crate) const RULES_LIMIT: u64 = 1_048_576;

/// The most bytes of a property file.
pub(crate) const PROPERTIES_LIMIT: u64 = 8_388_608;

/// The most bytes of a table file.
pub(crate) const TABLE_LIMIT: u64 = 100_663_296;

/// The most bytes of a filter file.
pub(crate) const FILTER_LIMIT: u64 = 65_536;

/// The most bytes of a text that is explained.
const TEXT_LIMIT: u64 = 67_108_864;

/// All bytes of the file of this name, at most `limit`, or all that the standard input has left if
/// it is `-`. What the files hold stays. What the system says of a read that fails is kept in
/// `fault`.
fn bytes_of<F: Files, R: Read>(
    alloc: Global,
    name: &str,
    limit: u64,
    files: &mut F,
    input: &mut R,
    fault: &mut Option<io::Error>,
) -> Result<Raw, ReadErr>
    ensures within { IfOk result (λ bytes. length bytes ≤ limit) }
    ensures read { IfOk result (λ bytes. IsRead (F.contents files.old) (R.remaining input.old)
        name.now bytes (R.remaining input.new)) }
    ensures same { F.contents files.new ≡ F.contents files.old }
{
    if name == "-" {
        read_at_most(alloc, input, limit, fault)
    } else {
        let outcome = files.read(alloc, name, limit);
        *fault = files.read_fault();
        outcome
    }
}

/// The same, with what is reported if they can't be read.
pub(crate) fn read<F: Files, R: Read>(
    alloc: Global,
    name: &str,
    limit: u64,
    colors: Colors,
    files: &mut F,
    input: &mut R,
) -> Result<Raw, Failure>
    ensures within { IfOk result (λ bytes. length bytes ≤ limit) }
    ensures read { IfOk result (λ bytes. IsRead (F.contents files.old) (R.remaining input.old)
        name.now bytes (R.remaining input.new)) }
    ensures same { F.contents files.new ≡ F.contents files.old }
{
    let mut fault = None;
    let failure = match bytes_of(alloc, name, limit, files, input, &mut fault) {
        Ok(bytes) => return Ok(bytes),
        Err(ReadErr::Failed) => Failure::Unread(String::from_str(alloc, name)?, fault, colors),
        Err(ReadErr::TooLong) => fault_of(
            alloc,
            Status::IsRefused,
            name,
            "TooLong",
            Place::Whole,
            colors,
        ),
        Err(ReadErr::Memory) => Failure::Memory,
    };
    Err(failure)
}

/// The text of these bytes as they are.
fn strict_text(alloc: Global, name: &str, bytes: &Raw, colors: Colors) -> Result<PlainText, Failure>
    requires { length bytes.now ≤ most_bytes }
    ensures { IfOk result (λ x. IsText x × (x ≡ chars bytes.now)) }
{
    let (label, place) = match PlainText::from_raw(alloc, bytes) {
        Ok(text) => return Ok(text),
        Err(RawErr::NotUtf8(at)) => ("NotUtf8", Place::Byte(at.into())),
        Err(RawErr::TooManyChars) => ("TooManyChars", Place::Whole),
        Err(RawErr::Memory) => return Err(Failure::Memory),
    };
    Err(fault_of(alloc, Status::IsRefused, name, label, place, colors))
}

/// The text of these bytes with U+FFFD in place of each sequence that isn't UTF-8.
fn lossy_text(alloc: Global, name: &str, bytes: &[u8], colors: Colors) -> Result<PlainText, Failure>
    ensures { IfOk result (λ x. IsText x × (x ≡ chars (utf8_lossy bytes.now))) }
{
    let text = String::from_utf8_lossy(alloc, bytes)?;
    match PlainText::new(alloc, text.as_str()) {
        Ok(text) => Ok(text),
        Err(TextErr::TooManyChars) => {
            let place = Place::Whole;
            Err(fault_of(
                alloc,
                Status::IsRefused,
                name,
                "TooManyChars",
                place,
                colors,
            ))
        }
        Err(TextErr::Memory) => Err(Failure::Memory),
    }
}

/// How many sequences of the bytes aren't UTF-8, each as long as it could begin a character.
fn count_replaced(bytes: &[u8]) -> u32 {
    let mut count: u32 = 0;
    for chunk in bytes.utf8_chunks() {
        if !chunk.invalid().is_empty() {
            count = count.saturating_add(1);
        }
    }
    count
}

/// The text of a file, or of the standard input, and how many sequences of its bytes were replaced.
/// None are, and bytes that aren't UTF-8 are refused, unless `is_lossy`.
pub(crate) fn read_text<F: Files, R: Read, L: Ledger>(
    alloc: Global,
    name: &str,
    is_lossy: bool,
    colors: Colors,
    files: &mut F,
    input: &mut R,
    steps: &mut Steps<L>,
) -> Result<(PlainText, u32), Failure>
    ensures { IfOk result (λ (x, replaced). IsText x) }
{
    let bytes = read(alloc, name, TEXT_LIMIT, colors, files, input)?;
    if is_lossy {
        let bytes = bytes.bytes(steps);
        Ok((
            lossy_text(alloc, name, bytes, colors)?,
            count_replaced(bytes),
        ))
    } else {
        Ok((strict_text(alloc, name, &bytes, colors)?, 0))
    }
}

/// Says on the standard error how many sequences of each text's bytes were replaced, if any were.
pub(crate) fn say_replaced<E: Sink>(
    alloc: Global,
    names: &[&str],
    replaced: &[u32],
    errors: &mut E,
) {
    for (name, count) in names.iter().zip(replaced) {
        if *count > 0 {
            let mut message = Vec::new(alloc);
            let _ = append_replaced(name, *count, &mut message);
            let _ = put_all(errors, &message);
        }
    }
}

/// Appends the line that says how many sequences were replaced.
fn append_replaced(name: &str, replaced: u32, out: &mut Vec<u8>) -> Result<(), AllocError> {
    append_name(name, out)?;
    append(b": ", out)?;
    append_number(replaced, out)?;
    let noun = if replaced == 1 {
        "sequence"
    } else {
        "sequences"
    };
    append(b" ill-formed ", out)?;
    append(noun.as_bytes(), out)?;
    append(b" replaced by U+FFFD\n", out)
}
