//! A line of a test file.
ghost use Rattle.std.specs.Prelude.{◌≡◌, ◌≤◌, [], ℕ, Bool, List, length, IfOk, MatchOption};
ghost use Rattle.std.specs.Prelude.{chars, string_bytes};
ghost use Rattle.std.specs.List.{position_or_len};
ghost use Rattle.rbbi_text.specs.LineParts as line_parts;
ghost use Rattle.rbbi_conform.specs.Grammar.{words_of, IsMark, IsHexadecimalOf, ArePairs};
ghost use Rattle.rbbi_conform.specs.Grammar.{WritesTest};
ghost use Rattle.rbbi_conform.specs.inner.Readings.{IsFirstWord, IsNoPair, IsPairOf, IsMarkedOf};
ghost use Rattle.rbbi_conform.specs.inner.Readings.{AreMarkedBy};

use rbbi_text::{before_byte, hexadecimal, is_blank, push_character, trim_start};
use std::alloc::{AllocError, Global};

/// The greatest code point.
const LAST: u32 = 0x10_FFFF;

/// The text and the marks that a line writes.
#[derive(Drop)]
pub(crate) struct Marked {
    pub(crate) text: String,
    pub(crate) marks: Vec<bool>,
}

/// How many bytes stand before the first space or tab.
fn word_len(text: &[u8]) -> usize
    ensures place { result ≡ position_or_len line_parts.is_blank text.now }
    ensures bound { result ≤ length text.now }
{
    for (place, byte) in text.iter().enumerate() {
        if is_blank(*byte) {
            return place;
        }
    }
    text.len()
}

/// The first word between spaces and tabs, and what follows it; none where there is no word.
fn first_word(text: &[u8]) -> Option<(&[u8], &[u8])>
    ensures { MatchOption result (words_of text.now ≡ [])
        (λ cut. IsFirstWord text.now cut.0.now cut.1.now) }
{
    let text = trim_start(text);
    let end = word_len(text);
    if end == 0 {
        return None;
    }
    Some((&text[..end], &text[end..]))
}

/// Whether the word marks a boundary (U+00F7) or none (U+00D7).
fn mark_of(word: &[u8]) -> Option<bool>
    ensures { MatchOption result ((mark : Bool) → ¬ IsMark word.now mark) (IsMark word.now) }
{
    if word == [0xC3, 0xB7].as_slice() {
        return Some(true);
    }
    if word == [0xC3, 0x97].as_slice() {
        return Some(false);
    }
    None
}

/// The character of a word of four to six hexadecimal digits.
fn character_of(word: &[u8]) -> Option<char>
    ensures { MatchOption result ((c : ℕ) → ¬ IsHexadecimalOf word.now c)
        (λ c. IsHexadecimalOf word.now c × (4 ≤ length word.now)) }
{
    let number = hexadecimal(word, 4, 6, LAST)?;
    char::from_u32(number)
}

/// The code point of this word and the mark that follows it, and what follows both.
fn pair_of<'a>(point: &[u8], after: &'a [u8]) -> Option<(char, bool, &'a [u8])>
    ensures { MatchOption result (IsNoPair point.now (words_of after.now))
        (λ pair. IsPairOf point.now after.now pair.0 pair.1 pair.2.now) }
{
    let character = character_of(point)?;
    let sign = first_word(after)?;
    let mark = mark_of(sign.0)?;
    Some((character, mark, sign.1))
}

/// The text and the marks that a line writes, or `None` if it writes no test.
pub(crate) fn marked_text(alloc: Global, line: &[u8]) -> Result<Option<Marked>, AllocError>
    ensures { IfOk result (λ found. MatchOption found
        ((text : List ℕ) (marks : List Bool) → ¬ WritesTest line.now text marks)
        (λ marked. IsMarkedOf line.now (chars (string_bytes marked.text)) marked.marks.items)) }
{
    let Some((first, rest)) = first_word(before_byte(line, b'#')) else {
        return Ok(None);
    };
    let Some(_mark) = mark_of(first) else {
        return Ok(None);
    };
    marked_pairs(alloc, rest)
}

/// The text and the marks that the words after the first mark write.
fn marked_pairs(alloc: Global, words: &[u8]) -> Result<Option<Marked>, AllocError>
    ensures { IfOk result (λ found. MatchOption found
        ((text : List ℕ) (marks : List Bool) → ¬ ArePairs (words_of words.now) text marks)
        (λ marked. AreMarkedBy words.now (chars (string_bytes marked.text)) marked.marks.items)) }
{
    let mut text = String::new(alloc);
    let mut marks = Vec::new(alloc);
    let mut rest = words;
    while let Some((point, after)) = first_word(rest) {
        let Some((character, mark, next)) = pair_of(point, after) else {
            return Ok(None);
        };
        push_character(&mut text, character)?;
        marks.push(mark)?;
        rest = next;
    }
    Ok(Some(Marked { text, marks }))
}
