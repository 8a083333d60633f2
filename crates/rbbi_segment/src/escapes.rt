//! Characters as they are printed: those that would do something to a terminal as escapes.
ghost use Rattle.std.specs.Prelude.{◌≡◌, ◌++◌, OnOk, chars, encode_utf8};
ghost use Rattle.rbbi_segment.specs.declared.escapes.Within.TheVariants.{Nothing};
ghost use Rattle.rbbi_segment.specs.Escapes as spec;
ghost use Rattle.rbbi_segment.specs.Lines.{shown_all};

use rbbi_text::append;
use std::alloc::AllocError;

/// In what a character stands.
#[derive(Clone, Copy)]
pub(crate) enum Within {
    /// In no quotes, as a name of a file.
    Nothing,
    /// In quotes, with `\u{HHHH}`.
    Quotes,
    /// In a string of JSON.
    Json,
    /// In nothing, and each character as it is.
    Bare,
}

/// Whether quotes and backslashes are escaped here.
fn is_quoted(within: Within) -> bool
    ensures { result ≡ spec.is_quoted within }
{
    match within {
        Within::Nothing => false,
        Within::Quotes => true,
        Within::Json => true,
        Within::Bare => false,
    }
}

/// Whether each character is itself here.
fn is_bare(within: Within) -> bool
    ensures { result ≡ spec.is_bare within }
{
    match within {
        Within::Bare => true,
        Within::Nothing | Within::Quotes | Within::Json => false,
    }
}

/// The hexadecimal digit of a number's last four bits.
fn digit(number: u32) -> u8
    ensures { result ≡ spec.hex_digit number }
{
    let last = (number % 16) as u8;
    if last < 10 { 48 + last } else { 87 + last }
}

/// Whether a number is one of those from the first to the last.
fn is_from(first: u32, last: u32, number: u32) -> bool
    ensures { result ≡ spec.is_from first last number }
{
    first <= number && number <= last
}

/// Whether a character isn't printed as it is: a control character, a line or paragraph separator,
/// or one that turns the direction of what follows.
pub(crate) fn is_hidden(c: char) -> bool
    ensures { result ≡ spec.is_hidden c }
{
    let code = c as u32;
    code < 0x20
        || is_from(0x7F, 0x9F, code)
        || code == 0x61C
        || is_from(0x200E, 0x200F, code)
        || is_from(0x2028, 0x202E, code)
        || is_from(0x2066, 0x2069, code)
}

/// Appends the last sixteen bits of a number in hexadecimal.
fn append_digits(number: u32, out: &mut Vec<u8>) -> Result<(), AllocError>
    ensures { OnOk result (out.new.items ≡ out.old.items ++ spec.four_digits number) }
{
    let digits = [
        digit(number / 4096),
        digit(number / 256),
        digit(number / 16),
        digit(number),
    ];
    append(&digits, out)
}

/// Appends the escape of a hidden character, which is below U+10000.
fn append_hidden(c: char, within: Within, out: &mut Vec<u8>) -> Result<(), AllocError>
    ensures { OnOk result (out.new.items ≡ out.old.items ++ spec.escape_of within c) }
{
    match within {
        Within::Json => {
            append(b"\\u", out)?;
            append_digits(c as u32, out)
        }
        Within::Nothing | Within::Quotes | Within::Bare => {
            append(b"\\u{", out)?;
            append_digits(c as u32, out)?;
            append(b"}", out)
        }
    }
}

/// Whether a character is one byte that is printed as it is anywhere: printable ASCII, but for
/// quotes and backslashes.
fn is_plain(c: char) -> bool
    ensures { result ≡ spec.is_plain c }
{
    is_from(0x20, 0x7E, c as u32) && c != '"' && c != '\\'
}

/// Appends a character, or the escape of it. Quotes and backslashes are escaped in quotes.
#[inline]
pub(crate) fn append_character(c: char, within: Within, out: &mut Vec<u8>) -> Result<(), AllocError>
    ensures { OnOk result (out.new.items ≡ out.old.items ++ spec.shown within c) }
{
    if is_plain(c) {
        out.push(c as u8)?;
        return Ok(());
    }
    append_other(c, within, out)
}

/// Appends a character that is printable ASCII or not, or the escape of it.
fn append_other(c: char, within: Within, out: &mut Vec<u8>) -> Result<(), AllocError>
    ensures { OnOk result (out.new.items ≡ out.old.items ++ spec.shown within c) }
{
    if is_bare(within) {
        return append_plain(c, out);
    }
    if c == '\n' {
        return append(b"\\n", out);
    }
    if c == '\r' {
        return append(b"\\r", out);
    }
    if c == '\t' {
        return append(b"\\t", out);
    }
    if is_quoted(within) && c == '"' {
        return append(b"\\\"", out);
    }
    if is_quoted(within) && c == '\\' {
        return append(b"\\\\", out);
    }
    if is_hidden(c) {
        return append_hidden(c, within, out);
    }
    append_plain(c, out)
}

/// Appends a character in UTF-8.
pub(crate) fn append_plain(c: char, out: &mut Vec<u8>) -> Result<(), AllocError>
    ensures { OnOk result (out.new.items ≡ out.old.items ++ encode_utf8 c) }
{
    let mut bytes = [0; 4];
    append(c.encode_utf8(&mut bytes).as_bytes(), out)
}

/// Appends the characters of a text, or their escapes.
pub(crate) fn append_characters(
    text: &str,
    within: Within,
    out: &mut Vec<u8>,
) -> Result<(), AllocError>
    ensures { OnOk result (out.new.items ≡ out.old.items ++ shown_all within (chars text.now)) }
{
    for c in text.chars() {
        append_character(c, within, out)?;
    }
    Ok(())
}

/// Appends a name that stands in no quotes.
pub(crate) fn append_name(name: &str, out: &mut Vec<u8>) -> Result<(), AllocError>
    ensures { OnOk result (out.new.items ≡ out.old.items
        ++ shown_all Nothing (chars name.now)) }
{
    append_characters(name, Within::Nothing, out)
}
