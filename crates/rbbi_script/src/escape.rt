//! The text of an edit.
ghost use Rattle.std.specs.Prelude.{IfOk, MatchOption};
ghost use Rattle.rbbi_script.specs.inner.Readings.{IsNoEscape, IsNoNumberEscape, IsOnlyEscape};
ghost use Rattle.rbbi_script.specs.inner.Readings.{AreCharactersOf};

use crate::pieces::{after, cut_at};
use rbbi_text::{Word, hexadecimal, push_character};
use std::alloc::{AllocError, Global};

/// The greatest code point.
const LAST: u32 = 0x10_FFFF;

/// The character of the escape at the start of a text, after its backslash, and what follows it.
fn escape_at(text: &str) -> Option<(char, &str)>
    ensures { MatchOption result (IsNoEscape text.now)
        (λ escape. IsOnlyEscape text.now escape.0 escape.1.now) }
{
    if let Some(rest) = after(text, "n") {
        return Some(('\n', rest));
    }
    if let Some(rest) = after(text, "r") {
        return Some(('\r', rest));
    }
    if let Some(rest) = after(text, "t") {
        return Some(('\t', rest));
    }
    if let Some(rest) = after(text, "\\") {
        return Some(('\\', rest));
    }
    numbered(text)
}

/// The character of the escape `u{H..}` at the start of a text, of one to six hexadecimal digits,
/// and what follows it.
fn numbered(text: &str) -> Option<(char, &str)>
    ensures { MatchOption result (IsNoNumberEscape text.now)
        (λ escape. IsOnlyEscape text.now escape.0 escape.1.now) }
{
    let digits = after(text, "u{")?;
    let cut = cut_at(digits, '}')?;
    let number = hexadecimal(cut.0.as_bytes(), 1, 6, LAST)?;
    let character = char::from_u32(number)?;
    Some((character, cut.1))
}

/// The characters that the text of an edit writes, each as itself or as an escape; none where a
/// backslash begins no escape.
pub(crate) fn word_of(alloc: Global, text: &str) -> Result<Option<Word>, AllocError>
    ensures { IfOk result (AreCharactersOf text.now) }
{
    let mut word = String::new(alloc);
    let mut rest = text;
    while let Some((before, escaped)) = cut_at(rest, '\\') {
        let Some((character, next)) = escape_at(escaped) else {
            return Ok(None);
        };
        word.push_str(before)?;
        push_character(&mut word, character)?;
        rest = next;
    }
    word.push_str(rest)?;
    let word = Word::new(alloc, &word)?;
    Ok(Some(word))
}
