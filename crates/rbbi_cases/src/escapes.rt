//! The bytes that a text of a case file stands for, by its escapes.
use crate::error::CaseErr;
use rbbi_text::{append, decimal, hexadecimal};
use std::alloc::Global;

/// The letters of numbered names.
const LETTERS: &[u8; 52] = b"ABCDEFGHIJKLMNOPQRSTUVWXYZabcdefghijklmnopqrstuvwxyz";

/// Braces without hexadecimal digits of a character.
const NO_CHARACTER: CaseErr = CaseErr::Wrong("an escape of no character");

/// The text before the first of this byte, and the text after it.
pub(crate) fn split_once(text: &[u8], byte: u8) -> Option<(&[u8], &[u8])> {
    for (at, found) in text.iter().enumerate() {
        if *found == byte {
            return Some((&text[..at], &text[at + 1..]));
        }
    }
    None
}

/// The bytes of a text in which `%HH` is a byte, `%{H..}` a character, `%{H....H..}` all characters
/// from the first to the last, `%{N*TEXT}` the text so many times, and `%{N#TEXT}` likewise, with
/// numbers in it.
pub(crate) fn unescaped(alloc: Global, text: &[u8]) -> Result<Vec<u8>, CaseErr> {
    let mut bytes = Vec::new(alloc);
    let mut rest = text;
    for _ in 0..text.len() {
        let Some((before, after)) = split_once(rest, b'%') else {
            break;
        };
        append(before, &mut bytes)?;
        rest = match after.split_first() {
            Some((b'{', braced)) => push_braced(alloc, braced, &mut bytes)?,
            _ => push_byte(after, &mut bytes)?,
        };
    }
    append(rest, &mut bytes)?;
    Ok(bytes)
}

/// The string of a text with escapes.
pub(crate) fn unescaped_string(alloc: Global, text: &[u8]) -> Result<String, CaseErr> {
    let bytes = unescaped(alloc, text)?;
    let text = str::from_utf8(bytes.as_slice())?;
    Ok(String::from_str(alloc, text)?)
}

/// The name of a file, with escapes.
pub(crate) fn unescaped_name(alloc: Global, text: &[u8]) -> Result<String, CaseErr> {
    if text.is_empty() {
        return Err(CaseErr::Wrong("a name is wanted"));
    }
    unescaped_string(alloc, text)
}

/// Appends the byte of two hexadecimal digits, and gives what follows them.
fn push_byte<'a>(after: &'a [u8], bytes: &mut Vec<u8>) -> Result<&'a [u8], CaseErr> {
    if after.len() < 2 {
        return Err(CaseErr::Wrong("no escape after %"));
    }
    let byte = hexadecimal(&after[..2], 2, 2, 255).ok_or(CaseErr::Wrong("no escape after %"))?;
    bytes.push(byte as u8)?;
    Ok(&after[2..])
}

/// Appends what an escape in braces stands for, and gives what follows it.
fn push_braced<'a>(
    alloc: Global,
    after: &'a [u8],
    bytes: &mut Vec<u8>,
) -> Result<&'a [u8], CaseErr> {
    let (inner, rest) = split_once(after, b'}').ok_or(CaseErr::Wrong("no } after %{"))?;
    if let Some((times, piece)) = split_once(inner, b'*') {
        let one = with_bytes(alloc, piece)?;
        for _ in 0..number_of(times)? {
            append(one.as_slice(), bytes)?;
        }
    } else if let Some((times, piece)) = split_once(inner, b'#') {
        let one = with_bytes(alloc, piece)?;
        for number in 0..number_of(times)? {
            push_numbered(one.as_slice(), number, bytes)?;
        }
    } else {
        push_characters(alloc, inner, bytes)?;
    }
    Ok(rest)
}

/// How many times a text stands.
fn number_of(times: &[u8]) -> Result<u32, CaseErr> {
    decimal(times, 999_999_999).ok_or(CaseErr::Wrong("a number is wanted"))
}

/// The text with its escapes of bytes replaced.
fn with_bytes(alloc: Global, piece: &[u8]) -> Result<Vec<u8>, CaseErr> {
    let mut one = Vec::new(alloc);
    let mut rest = piece;
    for _ in 0..piece.len() {
        let Some((before, after)) = split_once(rest, b'%') else {
            break;
        };
        append(before, &mut one)?;
        rest = push_byte(after, &mut one)?;
    }
    append(rest, &mut one)?;
    Ok(one)
}

/// Appends the piece with the number of this time, from 1, for each `#`, and for each `@` that of
/// the time before.
fn push_numbered(piece: &[u8], before: u32, bytes: &mut Vec<u8>) -> Result<(), CaseErr> {
    for byte in piece {
        match *byte {
            b'#' => push_number(before as usize + 1, bytes)?,
            b'@' => push_number(before as usize, bytes)?,
            other => bytes.push(other)?,
        }
    }
    Ok(())
}

/// Appends a number in three letters, `AAA` for 0, which begin again after 140,608 numbers.
fn push_number(number: usize, bytes: &mut Vec<u8>) -> Result<(), CaseErr> {
    for unit in [2704, 52, 1] {
        bytes.push(LETTERS[number / unit % 52])?;
    }
    Ok(())
}

/// Appends the character of hexadecimal digits, or those from the first to the last.
fn push_characters(alloc: Global, digits: &[u8], bytes: &mut Vec<u8>) -> Result<(), CaseErr> {
    let (first, last) = match split_once(digits, b'.') {
        Some((first, [b'.', last @ ..])) => (first, last),
        Some(_) => return Err(NO_CHARACTER),
        None => (digits, digits),
    };
    let first = hexadecimal(first, 1, 6, 0x10_FFFF).ok_or(NO_CHARACTER)?;
    let last = hexadecimal(last, 1, 6, 0x10_FFFF).ok_or(NO_CHARACTER)?;
    let mut characters = String::new(alloc);
    for code in first..=last {
        characters.push(char::from_u32(code).ok_or(NO_CHARACTER)?)?;
    }
    append(characters.as_bytes(), bytes)?;
    Ok(())
}
