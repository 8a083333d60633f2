//! A row of a property file.
ghost use Rattle.std.specs.Prelude.{◌≡◌, ◌<◌, ◌≤◌, length, IfOk, IfSome, IsTrue};
ghost use Rattle.rbbi_sets.specs.Rising.{IsRange};
ghost use Rattle.rbbi_props.specs.RowLines as spec;

use crate::loose::{has_letter_or_digit, loose};
use crate::text::after_last;
use rbbi_sets::CodeRange;
use rbbi_text::{before_byte, hexadecimal, place_or_len, trim};
use std::alloc::{AllocError, Global};
use std::marker::Model;

/// The greatest code point.
const LAST: u32 = 0x10_FFFF;

/// A row of a property file: a value, and the code points that have it.
#[derive(Drop)]
pub(crate) struct PropRow {
    /// The value in loose form, which is computed once, since each look-up compares it. It is
    /// bytes, since it is only compared.
    pub(crate) value: Vec<u8>,
    /// The code points.
    pub(crate) range: CodeRange,
}

impl Model for PropRow {
    ghost use Rattle.rbbi_sets.specs.Rising.{IsRange};
    ghost use Rattle.rbbi_props.specs.Rows.{Row};

    ghost Value = { Row };

    ghost view = { λ row. record { value = row.value.items; range = row.range } };

    ghost invariant = { λ row. IsRange row.range };
}

/// The row that a line writes, and None where it isn't of the form.
pub(crate) fn property_row(alloc: Global, line: &[u8]) -> Result<Option<PropRow>, AllocError>
    ensures { IfOk result (λ row. row ≡ spec.property_row line.now) }
{
    let fields = before_byte(line, b'#');
    let end = place_or_len(fields, b';');
    if end == fields.len() {
        return Ok(None);
    }
    let range = range_of(trim(&fields[..end]));
    let value = trim(after_last(&fields[end + 1..], b';'));
    row_with(alloc, range, value)
}

/// The row of a range and a value, which has a letter or digit.
fn row_with(
    alloc: Global,
    range: Option<CodeRange>,
    value: &[u8],
) -> Result<Option<PropRow>, AllocError>
    requires { IfSome range IsRange }
    ensures { IfOk result (λ row. row ≡ spec.row_with range value.now) }
{
    if !has_letter_or_digit(value) {
        return Ok(None);
    }
    let Some(range) = range else {
        return Ok(None);
    };
    let value = loose(alloc, value)?;
    Ok(Some(PropRow { value, range }))
}

/// The range that a field writes: one code point, or two joined by `..`, the first not greater than
/// the second.
fn range_of(field: &[u8]) -> Option<CodeRange>
    ensures value { result ≡ spec.range_of field.now }
    ensures form { IfSome result IsRange }
{
    let end = place_or_len(field, b'.');
    if end == field.len() {
        return span_between(field, field);
    }
    let rest = &field[end + 1..];
    if rest.is_empty() || rest[0] != b'.' {
        return None;
    }
    span_between(&field[..end], &rest[1..])
}

/// The range between two code points, each of four to six hexadecimal digits, where the first isn't
/// greater than the second.
fn span_between(low: &[u8], high: &[u8]) -> Option<CodeRange>
    ensures value { result ≡ spec.span_between low.now high.now }
    ensures form { IfSome result IsRange }
{
    let low = hexadecimal(low, 4, 6, LAST)?;
    let high = hexadecimal(high, 4, 6, LAST)?;
    if low > high {
        return None;
    }
    Some(CodeRange { low, high })
}
