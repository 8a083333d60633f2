//! What is reported of a fault.
ghost use Rattle.std.specs.Prelude.{◌≤◌, length};
ghost use Rattle.rbbi_text.specs.Bytes.{most_bytes};

use crate::colors::{Color, Colors};
use crate::escapes::{append_name, append_plain, is_hidden};
use crate::failure::{Failure, Status};
use crate::fault_texts::{FaultText, TABLE_FILE, text_of};
use crate::hints::{class_help, help_at, no_rules_help};
use crate::missing::{missing_at, open_set_at};
use crate::numbers::append_long;
use crate::source::{Position, position_of};
use crate::unknown::{append_advice, cause_of};
use crate::variables::append_name_advice;
use rbbi_builtin::advice_at;
use rbbi_props::PropTable;
use rbbi_text::{append, append_number};
use std::alloc::{AllocError, Global};
use std::io;
use unicode_width::UnicodeWidthChar;

/// At most this many characters of a line are shown.
const SHOWN: usize = 160;

/// A rule file.
#[derive(Clone, Copy)]
pub(crate) struct Source<'a> {
    pub(crate) name: &'a str,
    pub(crate) text: &'a str,
    pub(crate) colors: Colors,
}

/// Where in a file that is no rule file a fault stands.
#[derive(Clone, Copy)]
pub(crate) enum Place {
    Whole,
    /// The byte, from 0.
    Byte(u64),
    /// The line, from 1.
    Line(u32),
    /// The place of the text, in the unit, from 0.
    Offset(u64),
}

/// Where a fault is shown, and what is wrong there.
#[derive(Clone, Copy)]
struct Shown {
    place: u32,
    cause: &'static str,
}

/// Appends the part of a first line that follows the name and the place.
fn append_cause(
    label: &str,
    cause: &str,
    colors: Colors,
    out: &mut Vec<u8>,
) -> Result<(), AllocError> {
    append(b": ", out)?;
    colors.append(Color::Fault, b"error", out)?;
    append(b": ", out)?;
    append(label.as_bytes(), out)?;
    append(b": ", out)?;
    append(cause.as_bytes(), out)
}

/// Appends how to mend it, in a line of its own.
fn append_help(help: &[u8], out: &mut Vec<u8>) -> Result<(), AllocError> {
    append(b"\n", out)?;
    append(help, out)?;
    append(b"\n", out)
}

/// Appends the characters of a line from a number on. What isn't printed as it is, but for a tab,
/// is shown as U+FFFD.
fn append_line(line: &str, from: usize, out: &mut Vec<u8>) -> Result<(), AllocError> {
    for c in line.chars().skip(from).take(SHOWN) {
        let shown = if c != '\t' && is_hidden(c) {
            '\u{FFFD}'
        } else {
            c
        };
        append_plain(shown, out)?;
    }
    append(b"\n", out)
}

/// Appends as much space as the characters of a line take from one number up to another.
fn append_space(line: &str, from: usize, to: usize, out: &mut Vec<u8>) -> Result<(), AllocError> {
    for c in line.chars().take(to).skip(from) {
        if c == '\t' {
            append(b"\t", out)?;
            continue;
        }
        let columns = if is_hidden(c) {
            1
        } else {
            c.width().unwrap_or(1)
        };
        for _ in 0..columns {
            append(b" ", out)?;
        }
    }
    Ok(())
}

/// Appends the name of a rule file and a place in it.
pub(crate) fn append_position(
    name: &str,
    position: &Position<'_>,
    out: &mut Vec<u8>,
) -> Result<(), AllocError> {
    append_name(name, out)?;
    append(b":", out)?;
    append_number(position.row, out)?;
    append(b":", out)?;
    append_number(position.column, out)
}

/// Appends the line in which a place stands, and a caret below the place.
pub(crate) fn append_shown(
    position: &Position<'_>,
    colors: Colors,
    out: &mut Vec<u8>,
) -> Result<(), AllocError> {
    let to = position.column.saturating_sub(1) as usize;
    let from = to.saturating_sub(SHOWN / 2);
    append(b"\n", out)?;
    append_line(position.line, from, out)?;
    append_space(position.line, from, to, out)?;
    colors.append(Color::Fault, b"^", out)
}

/// Appends the name of a rule file, a place in it and what is wrong there, and shows the place.
fn append_at(
    source: &Source<'_>,
    shown: Shown,
    label: &str,
    out: &mut Vec<u8>,
) -> Result<(), AllocError> {
    let position = position_of(source.text, shown.place);
    append_position(source.name, &position, out)?;
    append_cause(label, shown.cause, source.colors, out)?;
    append_shown(&position, source.colors, out)
}

/// What is wrong at a place, as a text says. Appends how to mend it.
fn report_text(
    found: Option<(u32, FaultText)>,
    help: &mut Vec<u8>,
) -> Result<Option<Shown>, AllocError> {
    let Some((place, text)) = found else {
        return Ok(None);
    };
    append(text.help.as_bytes(), help)?;
    let cause = text.cause;
    Ok(Some(Shown { place, cause }))
}

/// What is wrong with a property. Appends how to mend it.
fn report_unknown(
    alloc: Global,
    source: &Source<'_>,
    place: u32,
    given: &PropTable,
    help: &mut Vec<u8>,
) -> Result<Option<Shown>, AllocError>
    requires { length source.now.text.now ≤ most_bytes }
{
    let Some(advice) = advice_at(alloc, source.text, place, given)? else {
        return Ok(None);
    };
    match class_help(&position_of(source.text, place)) {
        Some(class) => append(class.as_bytes(), help)?,
        None => append_advice(&advice, help)?,
    }
    Ok(Some(Shown {
        place,
        cause: cause_of(advice.unknown),
    }))
}

/// What helps with a fault of a label at a place, if what stands there is known.
fn hint_of(source: &Source<'_>, label: &str, place: u32) -> Option<&'static str> {
    if label == "NoRules" {
        return no_rules_help(source.text);
    }
    help_at(label, &position_of(source.text, place))
}

/// How to mend a fault of a label. A table file is no rule file.
fn help_of(source: &Source<'_>, label: &str, place: u32, text: FaultText) -> &'static str {
    if source.text.starts_with("RBBITBL") {
        return TABLE_FILE;
    }
    hint_of(source, label, place).unwrap_or(text.help)
}

/// What is wrong by the label alone. Appends how to mend it.
fn report_label(
    alloc: Global,
    source: &Source<'_>,
    label: &str,
    place: u32,
    help: &mut Vec<u8>,
) -> Result<Shown, AllocError>
    requires { length source.now.text.now ≤ most_bytes }
{
    if label == "Undefined" || label == "Redefined" {
        append_name_advice(alloc, source.text, label == "Redefined", place, help)?;
    }
    let text = text_of(label);
    append(help_of(source, label, place, text).as_bytes(), help)?;
    Ok(Shown {
        place,
        cause: text.cause,
    })
}

/// What is wrong by what stands at the place, if that is known. Appends how to mend it.
fn report_there(
    alloc: Global,
    source: &Source<'_>,
    label: &str,
    place: u32,
    given: &PropTable,
    help: &mut Vec<u8>,
) -> Result<Option<Shown>, AllocError>
    requires { length source.now.text.now ≤ most_bytes }
{
    match label {
        "Syntax" => report_text(missing_at(alloc, source.text, place)?, help),
        "BadChar" => report_text(open_set_at(alloc, source.text, place)?, help),
        "UnknownProperty" => report_unknown(alloc, source, place, given, help),
        _ => Ok(None),
    }
}

/// Where a fault of a rule file is shown, and what is wrong there. Appends how to mend it.
fn report(
    alloc: Global,
    source: &Source<'_>,
    label: &str,
    place: u32,
    given: &PropTable,
    help: &mut Vec<u8>,
) -> Result<Shown, AllocError>
    requires { length source.now.text.now ≤ most_bytes }
{
    match report_there(alloc, source, label, place, given, help)? {
        Some(shown) => Ok(shown),
        None => report_label(alloc, source, label, place, help),
    }
}

/// Appends what is reported of a fault at a place of a rule file.
fn append_fault(
    alloc: Global,
    source: &Source<'_>,
    label: &str,
    place: u32,
    given: &PropTable,
    out: &mut Vec<u8>,
) -> Result<(), AllocError>
    requires { length source.now.text.now ≤ most_bytes }
{
    let mut help = Vec::new(alloc);
    let shown = report(alloc, source, label, place, given, &mut help)?;
    append_at(source, shown, label, out)?;
    append_help(&help, out)
}

/// Appends words and a number.
fn append_long_after(words: &[u8], number: u64, out: &mut Vec<u8>) -> Result<(), AllocError> {
    append(words, out)?;
    append_long(number, out)
}

/// Appends what is reported of a fault of a file.
fn append_of(
    name: &str,
    label: &str,
    place: Place,
    colors: Colors,
    out: &mut Vec<u8>,
) -> Result<(), AllocError> {
    let text = text_of(label);
    append_name(name, out)?;
    if let Place::Line(line) = place {
        append(b":", out)?;
        append_number(line, out)?;
    }
    append_cause(label, text.cause, colors, out)?;
    match place {
        Place::Byte(at) => append_long_after(b", at byte ", at, out)?,
        Place::Offset(at) => append_long_after(b", from place ", at, out)?,
        _ => {}
    }
    append_help(text.help.as_bytes(), out)
}

/// A reason in the system's words, without its number.
fn without_number(reason: &str) -> &str {
    match reason.split_once(" (os error") {
        Some((words, _)) => words,
        None => reason,
    }
}

/// Appends a reason in the system's words, without its number.
pub(crate) fn append_reason(
    alloc: Global,
    reason: io::Error,
    out: &mut Vec<u8>,
) -> Result<(), AllocError> {
    let text = format!(in alloc; "{reason}")?;
    append(without_number(text.as_str()).as_bytes(), out)
}

/// What is reported of a file that can't be read, with the system's reason if that is known.
pub(crate) fn unread(
    alloc: Global,
    name: &str,
    reason: Option<io::Error>,
    colors: Colors,
) -> Result<Vec<u8>, AllocError> {
    let mut out = Vec::new(alloc);
    let Some(reason) = reason else {
        append_of(name, "Unreadable", Place::Whole, colors, &mut out)?;
        return Ok(out);
    };
    append_name(name, &mut out)?;
    append_cause("Unreadable", "", colors, &mut out)?;
    append_reason(alloc, reason, &mut out)?;
    append(b"\n", &mut out)?;
    Ok(out)
}

/// The failure that a rule file has a fault of this label at a place, in characters from 0, with
/// the property files that are given.
///
/// It is reported at the place, but for a `;` or a bracket that is missing, which is reported where
/// it is missing.
pub(crate) fn fault_at(
    alloc: Global,
    source: &Source<'_>,
    label: &str,
    place: u32,
    given: &PropTable,
) -> Failure
    requires { length source.now.text.now ≤ most_bytes }
{
    let mut message = Vec::new(alloc);
    match append_fault(alloc, source, label, place, given, &mut message) {
        Ok(()) => Failure::Told(Status::HasFault, message),
        Err(_) => Failure::Memory,
    }
}

/// The failure that a file has a fault of this label.
pub(crate) fn fault_of(
    alloc: Global,
    status: Status,
    name: &str,
    label: &str,
    place: Place,
    colors: Colors,
) -> Failure {
    let mut message = Vec::new(alloc);
    match append_of(name, label, place, colors, &mut message) {
        Ok(()) => Failure::Told(status, message),
        Err(_) => Failure::Memory,
    }
}
