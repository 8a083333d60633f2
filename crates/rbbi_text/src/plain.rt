//! A text in one flat list.
ghost use Rattle.std.specs.Prelude.{◌≡◌, ◌+◌, ◌++◌, ◌^◌, ◌<◌, ◌≤◌, IfOk, OnOk, OnErr, MatchOption};
ghost use Rattle.std.specs.Prelude.{length, chars};
ghost use Rattle.std.specs.List.{splice};
ghost use Rattle.rbbi_model.specs.Words.{most_characters};
ghost use Rattle.rbbi_text.specs.Bytes.{most_bytes};
ghost use Rattle.rbbi_text.specs.Texts.{IsShortText};
ghost use Rattle.rbbi_text.specs.Answers.{TakesText, ReadsText, ChecksEdit};
ghost use Rattle.rbbi_model.specs.Units.{offset_of};

use crate::ascii::is_ascii;
use crate::measure::{fit_characters, taken, taken_between};
use crate::{
    Chars, EditErr, EditText, Excerpt, FlatText, Index, Raw, RawErr, Steps, TextErr, Unit, UnitText,
};
use std::alloc::{AllocError, Global};
use std::fmt;
use std::marker::Model;
use std::sync::ledger::Ledger;

/// The most characters that a text may have.
pub(crate) const MOST_CHARACTERS: usize = 16_777_216;

/// A text in one flat list of characters. Contracts see it as that list.
///
/// It takes four bytes a character. A character is found in one step, and a change copies all that
/// stands after it. A place in UTF-8 or in UTF-16 is found by a walk from the text's start.
#[derive(Drop)]
pub struct PlainText {
    items: Vec<char>,
}

impl Model for PlainText {
    ghost use Rattle.std.specs.Prelude.{List, ℕ};
    ghost use Rattle.rbbi_text.specs.Texts.{IsShortText};

    ghost Value = { List ℕ };

    ghost view = { λ text. text.items.items };

    ghost invariant = { λ text. IsShortText text.items.items };
}

/// It writes the type's name and none of the characters, which only `char_at` gives.
impl fmt::Debug for PlainText {
    fn fmt<W: fmt::Write>(&self, f: &mut fmt::Formatter<W>) -> fmt::Result {
        f.write_str("PlainText")
    }
}

/// So many bytes are decoded at once where all are ASCII, and otherwise so many characters are
/// before that is asked again.
const BLOCK: usize = 64;

/// Appends ASCII bytes as characters.
fn push_ascii(items: &mut Vec<char>, block: &[u8]) -> Result<(), AllocError>
    requires { length block.now ≤ 64 }
    ensures { OnOk result (items.new.items ≡ items.old.items ++ block.now) }
{
    let mut characters = ['\0'; BLOCK];
    for k in 0..block.len() {
        characters[k] = block[k] as char;
    }
    items.extend_from_slice(&characters[..block.len()])
}

/// Appends the first characters of a text, and gives what follows them.
fn push_some<'a>(items: &mut Vec<char>, text: &'a str) -> Result<&'a str, AllocError>
    requires { 0 < length text.now }
    ensures { IfOk result (λ rest. (items.new.items ++ chars rest.now
        ≡ items.old.items ++ chars text.now) × (length rest.now < length text.now)) }
{
    let mut left = text.chars();
    for _turn in 0..BLOCK {
        match left.next() {
            Some(c) => items.push(c)?,
            None => return Ok(left.as_str()),
        }
    }
    Ok(left.as_str())
}

/// The same, by a block where it is ASCII.
fn push_front<'a>(items: &mut Vec<char>, text: &'a str) -> Result<&'a str, AllocError>
    requires { 0 < length text.now }
    ensures { IfOk result (λ rest. (items.new.items ++ chars rest.now
        ≡ items.old.items ++ chars text.now) × (length rest.now < length text.now)) }
{
    let bytes = text.as_bytes();
    if bytes.len() >= BLOCK {
        let block = &bytes[..BLOCK];
        if is_ascii(block) {
            push_ascii(items, block)?;
            return Ok(&text[BLOCK..]);
        }
    }
    push_some(items, text)
}

/// The characters of a string, or nothing where they are more than a text may have.
fn decoded(alloc: Global, text: &str) -> Result<Option<Vec<char>>, AllocError>
    ensures { IfOk result (λ found. MatchOption found
        (most_characters < length (chars text.now))
        (λ items. (items.items ≡ chars text.now) × IsShortText items.items)) }
{
    let room = text.len().min(MOST_CHARACTERS + BLOCK);
    let mut items = Vec::with_capacity(alloc, room)?;
    let mut rest = text;
    while !rest.is_empty() {
        rest = push_front(&mut items, rest)?;
        if items.len() > MOST_CHARACTERS {
            return Ok(None);
        }
    }
    Ok(Some(items))
}

impl PlainText {
    /// The text of this string.
    ///
    /// Refuses `TooManyChars` where it has more than 16,777,216 characters.
    pub fn new(alloc: Global, text: &str) -> Result<PlainText, TextErr>
        ensures { TakesText (chars text.now) result }
    {
        match decoded(alloc, text)? {
            Some(items) => Ok(PlainText { items }),
            None => Err(TextErr::TooManyChars),
        }
    }

    /// The text that the bytes spell in UTF-8. It counts no step. A U+FEFF at the start is a
    /// character of the text.
    ///
    /// Refuses `NotUtf8` where the bytes are not UTF-8, at the first byte past the longest valid
    /// prefix; otherwise `TooManyChars` where they spell more than 16,777,216 characters.
    pub fn from_raw(alloc: Global, raw: &Raw) -> Result<PlainText, RawErr>
        requires { length raw.now ≤ most_bytes }
        ensures { ReadsText raw.now result }
    {
        match decoded(alloc, raw.text()?)? {
            Some(items) => Ok(PlainText { items }),
            None => Err(RawErr::TooManyChars),
        }
    }

    /// How much of a unit the characters from one place to another take together. It gives none of
    /// them, and goes over them once.
    pub fn units_between(&self, unit: Unit, from: u32, to: u32) -> u32
        requires forward { from ≤ to }
        requires within { to ≤ length self.now }
        ensures sum { offset_of unit self.now from + result ≡ offset_of unit self.now to }
        ensures small { offset_of unit self.now to < 2 ^ 32 }
    {
        taken_between(&self.items, unit, from, to)
    }
}

impl Chars for PlainText {
    ghost characters = { λ text. text };

    fn len(&self) -> u32 {
        self.items.len() as u32
    }

    fn char_at<L: Ledger>(&self, i: u32, steps: &mut Steps<L>) -> char {
        steps.tick();
        self.items[i as usize]
    }

    fn excerpt(&self, _i: u32) -> Excerpt<'_> {
        Excerpt {
            from: 0,
            items: &self.items,
        }
    }
}

/// How many characters a string has that is to replace `remove` characters from the place `at` of a
/// text of `len` characters.
///
/// Refuses `Outside` and `TooLong` as `EditText::replace` does.
pub fn check_edit(len: usize, at: u32, remove: u32, insert: &str) -> Result<u32, EditErr>
    requires { len ≤ most_characters }
    ensures { ChecksEdit len at remove (length (chars insert.now)) result }
{
    if at as usize + remove as usize > len {
        return Err(EditErr::Outside);
    }
    let added = insert.chars().count();
    if added > MOST_CHARACTERS - (len - remove as usize) {
        return Err(EditErr::TooLong);
    }
    Ok(added as u32)
}

/// Replaces the characters from one place to another by those of a string. If memory runs out, they
/// stay as they were.
pub(crate) fn put(
    items: &mut Vec<char>,
    start: usize,
    end: usize,
    text: &str,
) -> Result<(), AllocError>
    requires forward { start ≤ end }
    requires within { end ≤ length items.old.items }
    ensures ok { OnOk result (items.new.items ≡ splice items.old.items start end (chars text.now)) }
    ensures err { OnErr result (items.new.items ≡ items.old.items) }
{
    let _removed = items.splice(start..end, text.chars())?;
    Ok(())
}

impl EditText for PlainText {
    fn replace(&mut self, at: u32, remove: u32, insert: &str) -> Result<(), EditErr> {
        let _added = check_edit(self.items.len(), at, remove, insert)?;
        let start = at as usize;
        put(&mut self.items, start, start + remove as usize, insert)?;
        Ok(())
    }
}

impl UnitText for PlainText {
    fn offset(&self, unit: Unit, i: u32) -> u32 {
        taken(&self.items[..i as usize], unit)
    }

    fn make_ready(&mut self, _unit: Unit) {}

    fn index(&self, unit: Unit, o: u32) -> Index {
        let fit = fit_characters(&self.items, unit, o);
        Index {
            at: fit.count as u32,
            whole: fit.units == o,
        }
    }
}

impl FlatText for PlainText {
    fn units_between(&self, unit: Unit, from: u32, to: u32) -> u32 {
        PlainText::units_between(self, unit, from, to)
    }
}
