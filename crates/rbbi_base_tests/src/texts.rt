//! Each public call once, on values from outside.
ghost use Rattle.std.specs.Prelude.{◌≡◌, ◌<◌, ◌≤◌, length, IfOk};
ghost use Rattle.rbbi_text.specs.Bytes.{most_bytes};

use rbbi_text::{
    Chars, EditText, Index, Pieces, PlainText, Raw, RawErr, Steps, TextErr, Unit, UnitText, Word,
    decimal, hexadecimal, without_mark,
};
use std::alloc::{AllocError, Global};
use std::marker::Brand;
use std::sync::ledger::{Blank, Ledger};

/// Whether a text has these characters, as a text by pieces has them.
fn is_text(host: &HostRuntime, text: &PlainText, wanted: &str) -> bool {
    match Pieces::new(host.alloc(), wanted) {
        Ok(pieces) => are_same(host, &pieces, text),
        Err(_) => false,
    }
}

/// Whether a file has these bytes.
fn holds<L: Ledger>(host: &HostRuntime, raw: &Raw, wanted: &[u8], blank: Blank) -> bool
    requires name { blank.name ≡ L.name }
    requires parts { blank.parts ≡ L.parts }
    requires some { 0 < blank.parts }
{
    let mut steps = Steps::<L>::new(host, blank);
    raw.bytes(&mut steps) == wanted
}

/// The same, with a counter of its own.
pub(crate) fn is_raw(host: &HostRuntime, raw: &Raw, wanted: &[u8]) -> bool {
    holds::<Brand>(host, raw, wanted, Blank::new(1))
}

fn raw_of(alloc: Global, text: &str) -> Result<Raw, AllocError>
    ensures { IfOk result (λ raw. raw ≡ text.now) }
{
    Ok(Raw::new(text.as_bytes().to_vec(alloc)?))
}

const TEXTS: [&str; 4] = ["", "a", "caf\u{e9}", "\u{feff}a\u{e9}\u{4e00}\u{1f1e6}"];

#[test]
fn texts_of_strings_and_bytes(rt: HostRuntime) {
    for row in &TEXTS {
        let text = *row;
        assert!(rt; text.len() < 100);
        let plain = PlainText::new(rt.alloc(), text).expect(&rt, text);
        assert!(rt; is_text(&rt, &plain, text));
        let raw = raw_of(rt.alloc(), text).expect(&rt, text);
        assert!(rt; is_raw(&rt, &raw, text.as_bytes()));
        let plain = PlainText::from_raw(rt.alloc(), &raw).expect(&rt, text);
        assert!(rt; is_text(&rt, &plain, text));
    }
}

#[test]
fn words(rt: HostRuntime) {
    let word = Word::new(rt.alloc(), "\u{e9}\u{1f1e6}").expect(&rt, "a word");
    assert!(rt; word.as_str() == "\u{e9}\u{1f1e6}");
}

/// Whether an edit is refused by this name, or taken where that is empty.
fn answers<T: EditText>(text: &mut T, at: u32, remove: u32, insert: &str, name: &str) -> bool {
    match text.replace(at, remove, insert) {
        Ok(()) => name.is_empty(),
        Err(refusal) => refusal.label() == name && refusal.place().is_none(),
    }
}

const EDITS: [(u32, u32, &str, &str, &str); 8] = [
    (0, 0, "", "", "ab\u{e9}cd"),
    (5, 1, "x", "Outside", "ab\u{e9}cd"),
    (6, 0, "", "Outside", "ab\u{e9}cd"),
    (u32::MAX, u32::MAX, "x", "Outside", "ab\u{e9}cd"),
    (5, 0, "e", "", "ab\u{e9}cde"),
    (1, 4, "\u{1f1e6}", "", "a\u{1f1e6}e"),
    (0, 1, "xyz", "", "xyz\u{1f1e6}e"),
    (0, 5, "", "", ""),
];

#[test]
fn edits(rt: HostRuntime) {
    let mut plain = PlainText::new(rt.alloc(), "ab\u{e9}cd").expect(&rt, "a text");
    for row in &EDITS {
        let (at, remove, insert, name, after) = *row;
        assert!(rt; answers(&mut plain, at, remove, insert, name), "at {at}");
        assert!(rt; is_text(&rt, &plain, after), "at {at}");
    }
}

const MARKS: [(&str, &str); 6] = [
    ("", ""),
    ("a", "a"),
    ("\u{feff}", ""),
    ("\u{feff}a", "a"),
    ("\u{feff}\u{feff}a", "\u{feff}a"),
    ("a\u{feff}", "a\u{feff}"),
];

#[test]
fn marks(rt: HostRuntime) {
    for row in &MARKS {
        assert!(rt; without_mark(row.0) == row.1, "of {:?}", row.0);
    }
}

const NUMBERS: [(&[u8], Option<u32>, Option<u32>); 9] = [
    (b"", None, None),
    (b"0", Some(0), None),
    (b"0041", Some(41), Some(0x41)),
    (b"10fFfF", None, Some(0x10FFFF)),
    (b"110000", Some(110_000), None),
    (b"4294967295", Some(u32::MAX), None),
    (b"4294967296", None, None),
    (b"36893488147419103232", None, None),
    (b"+41", None, None),
];

#[test]
fn numbers(rt: HostRuntime) {
    for row in &NUMBERS {
        assert!(rt; decimal(row.0, u32::MAX) == row.1, "of {:?}", row.0);
        assert!(rt;
            hexadecimal(row.0, 4, 6, 0x10FFFF) == row.2,
            "of {:?}",
            row.0
        );
    }
}

const REFUSALS: [(RawErr, &str, Option<u32>); 3] = [
    (RawErr::NotUtf8(7), "NotUtf8", Some(7)),
    (RawErr::TooManyChars, "TooManyChars", None),
    (RawErr::Memory, "Memory", None),
];

#[test]
fn names_of_refusals(rt: HostRuntime) {
    for row in &REFUSALS {
        assert!(rt; row.0.label() == row.1 && row.0.place() == row.2);
    }
    assert!(rt; TextErr::TooManyChars.label() == "TooManyChars");
}

/// Whether two texts have the same characters.
fn have_same<L: Ledger>(host: &HostRuntime, text: &Pieces, plain: &PlainText, blank: Blank) -> bool
    requires name { blank.name ≡ L.name }
    requires parts { blank.parts ≡ L.parts }
    requires some { 0 < blank.parts }
{
    let mut steps = Steps::<L>::new(host, blank);
    if text.len() != plain.len() {
        return false;
    }
    for i in 0..plain.len() {
        if i < text.len() && text.char_at(i, &mut steps) != plain.char_at(i, &mut steps) {
            return false;
        }
    }
    true
}

/// The same, with a counter of its own.
fn are_same(host: &HostRuntime, text: &Pieces, plain: &PlainText) -> bool {
    have_same::<Brand>(host, text, plain, Blank::new(1))
}

/// An edit, and the name of its refusal, empty where it is taken. None inserts 3,000 letters.
type Edit = (u32, u32, Option<&'static str>, &'static str);

/// Edits that join pieces, split them, and leave nothing.
const EDITS_OF_PIECES: [Edit; 8] = [
    (3501, 0, Some("x"), "Outside"),
    (100, 3300, Some("\u{e9}"), ""),
    (50, 100, Some(""), ""),
    (0, 0, None, ""),
    (1000, 1500, None, ""),
    (4600, 0, Some("z"), ""),
    (10, 4500, Some(""), ""),
    (0, 200, Some(""), "Outside"),
];

/// Whether two texts take an edit or refuse it alike.
fn are_edited(text: &mut Pieces, plain: &mut PlainText, edit: Edit, letters: &str) -> bool {
    let (at, remove, insert, name) = edit;
    let insert = insert.unwrap_or(letters);
    answers(text, at, remove, insert, name) && answers(plain, at, remove, insert, name)
}

/// Whether two texts take 500 edits alike.
fn are_split(text: &mut Pieces, plain: &mut PlainText) -> bool {
    for n in 0..500 {
        if !are_edited(text, plain, (7 * n, 1, Some("bc"), ""), "") {
            return false;
        }
    }
    true
}

#[test]
fn edits_by_pieces(rt: HostRuntime) {
    let letters = "a".repeat(rt.alloc(), 3000).expect(&rt, "letters");
    let mut text = Pieces::new(rt.alloc(), &letters).expect(&rt, "a text");
    let mut plain = PlainText::new(rt.alloc(), &letters).expect(&rt, "a text");
    assert!(rt; are_split(&mut text, &mut plain));
    for row in &EDITS_OF_PIECES {
        let are_alike = are_edited(&mut text, &mut plain, *row, &letters);
        assert!(rt; are_alike && are_same(&rt, &text, &plain));
    }
}

/// As many letters `a` as a text may have, and so many more.
fn letters(alloc: Global, more: usize) -> Result<String, AllocError> {
    let mut letters = "a".repeat(alloc, 16_777_216)?;
    letters.push_str(&"a".repeat(alloc, more)?)?;
    Ok(letters)
}

/// A text that is as long as a text may be stays where one character more is put in, and takes one
/// in place of another.
#[test]
fn longest_plain_text(rt: HostRuntime) {
    let letters = letters(rt.alloc(), 0).expect(&rt, "letters");
    let mut text = PlainText::new(rt.alloc(), &letters).expect(&rt, "a text");
    assert!(rt; answers(&mut text, 16_777_216, 0, "a", "TooLong"));
    assert!(rt; is_text(&rt, &text, &letters));
    assert!(rt; answers(&mut text, 0, 1, "b", ""));
    assert!(rt; text.len() == 16_777_216);
}

/// Whether letters make no text, since they are too many.
fn are_too_many(alloc: Global, letters: &str) -> bool {
    matches!(PlainText::new(alloc, letters), Err(TextErr::TooManyChars))
        && matches!(Pieces::new(alloc, letters), Err(TextErr::TooManyChars))
}

/// Whether the bytes of a file make no text, since they spell too many characters.
fn spells_too_many(alloc: Global, raw: &Raw) -> bool
    requires { length raw.now ≤ most_bytes }
{
    matches!(PlainText::from_raw(alloc, raw), Err(RawErr::TooManyChars))
        && matches!(Pieces::from_raw(alloc, raw), Err(RawErr::TooManyChars))
}

/// One character more is no text.
#[test]
fn too_many_characters(rt: HostRuntime) {
    let letters = letters(rt.alloc(), 1).expect(&rt, "letters");
    assert!(rt; letters.len() == 16_777_217);
    let raw = raw_of(rt.alloc(), &letters).expect(&rt, "bytes");
    assert!(rt; are_too_many(rt.alloc(), &letters) && spells_too_many(rt.alloc(), &raw));
}

/// Where a place lies in a unit; none past the text's end.
fn offset_at<T: UnitText>(text: &T, unit: Unit, i: u32) -> Option<u32> {
    if i > text.len() {
        return None;
    }
    Some(text.offset(unit, i))
}

/// What is found of an offset; none past the text's end.
fn index_at<T: UnitText>(text: &T, unit: Unit, o: u32) -> Option<Index> {
    if o > text.offset(unit, text.len()) {
        return None;
    }
    Some(text.index(unit, o))
}

/// Whether a place lies at an offset, and is found there.
fn lies_at<T: UnitText>(text: &T, unit: Unit, at: u32, offset: u32) -> bool {
    offset_at(text, unit, at) == Some(offset)
        && index_at(text, unit, offset) == Some(Index { at, whole: true })
}

/// Whether a place is found from another one, each with where it lies, and its offset too.
fn lies_from<T: UnitText>(text: &T, unit: Unit, from: (u32, u32), to: (u32, u32)) -> bool {
    let len = text.len();
    if from.0 > len || to.0 > len || text.offset(unit, from.0) != from.1 {
        return false;
    }
    text.offset_from(unit, from.0, from.1, to.0) == to.1
        && text.index_from(unit, from.0, from.1, to.1)
            == (Index {
                at: to.0,
                whole: true,
            })
}

/// A unit, and the offset of each place in it.
const OFFSETS: [(Unit, [u32; 7]); 3] = [
    (Unit::Chars, [0, 1, 2, 3, 4, 5, 6]),
    (Unit::Utf8, [0, 3, 4, 6, 7, 11, 12]),
    (Unit::Utf16, [0, 1, 2, 3, 4, 6, 7]),
];

/// Offsets that are inside of the character after a place.
const INSIDE: [(Unit, u32, u32); 7] = [
    (Unit::Utf8, 1, 0),
    (Unit::Utf8, 2, 0),
    (Unit::Utf8, 5, 2),
    (Unit::Utf8, 8, 4),
    (Unit::Utf8, 9, 4),
    (Unit::Utf8, 10, 4),
    (Unit::Utf16, 5, 4),
];

/// Whether each place lies where it must, also as it is found from the first one.
fn are_offsets<T: UnitText>(text: &T, unit: Unit, offsets: &[u32]) -> bool {
    let mut at = 0;
    for offset in offsets {
        if !lies_at(text, unit, at, *offset) || !lies_from(text, unit, (0, 0), (at, *offset)) {
            return false;
        }
        at = at.saturating_add(1);
    }
    at == text.len().saturating_add(1)
}

/// Whether no place is found at the offsets inside of characters, and none past the end.
fn are_inside<T: UnitText>(text: &T) -> bool {
    for row in &INSIDE {
        let (unit, offset, at) = *row;
        if index_at(text, unit, offset) != Some(Index { at, whole: false }) {
            return false;
        }
    }
    true
}

/// A U+FEFF, a letter with a combining mark, a lone CR, a character past U+FFFF and a letter.
/// Places are right whichever units the text is ready for.
#[test]
fn places_in_units(rt: HostRuntime) {
    let text = "\u{feff}e\u{301}\r\u{1d11e}b";
    let mut plain = PlainText::new(rt.alloc(), text).expect(&rt, "a text");
    let mut pieces = Pieces::new(rt.alloc(), text).expect(&rt, "a text");
    for row in &OFFSETS {
        plain.make_ready(row.0);
        pieces.make_ready(row.0);
        for row in &OFFSETS {
            assert!(rt; are_offsets(&plain, row.0, &row.1) && are_offsets(&pieces, row.0, &row.1));
        }
        assert!(rt; are_inside(&plain) && are_inside(&pieces));
    }
}

/// How much so many times `a`, U+00E9 and U+1D11E take.
fn thirds_take(unit: Unit, count: u32) -> u32
    requires { count < 100000 }
    ensures { result < 1000000 }
{
    match unit {
        Unit::Chars => 3 * count,
        Unit::Utf8 => 7 * count,
        Unit::Utf16 => 4 * count,
    }
}

/// Whether the end of each 45th character of `a`, U+00E9, U+1D11E in turn lies where it must, in a
/// text of 90,000 of them after so many characters that take so much of the unit.
fn are_thirds<T: UnitText>(text: &T, unit: Unit, before: (u32, u32)) -> bool
    requires { (before.0 < 1000) × (before.1 < 1000) }
{
    for k in 0..2001 {
        let offset = before.1 + thirds_take(unit, 15 * k);
        if !lies_at(text, unit, before.0 + 45 * k, offset) {
            return false;
        }
    }
    true
}

/// Whether the ends of such characters are found from those before and after, as many further on.
fn are_found_on(text: &Pieces, unit: Unit, before: (u32, u32), step: u32) -> bool
    requires before { (before.0 < 1000) × (before.1 < 1000) }
    requires step { step < 100 }
{
    for k in 0..500 {
        let here = (before.0 + 3 * k, before.1 + thirds_take(unit, k));
        let next = (here.0 + 3 * step, before.1 + thirds_take(unit, k + step));
        if !lies_from(text, unit, here, next) || !lies_from(text, unit, next, here) {
            return false;
        }
    }
    true
}

/// Whether places are right in a long text that is ready for a unit, and after edits at its start,
/// by which one and two characters that take so much stand before the others.
fn is_right<T: UnitText>(text: &mut T, unit: Unit, one: u32, two: u32) -> bool
    requires { (one < 1000) × (two < 1000) }
{
    text.make_ready(unit);
    are_thirds(text, unit, (0, 0))
        && answers(text, 0, 0, "\u{1d11e}", "")
        && are_thirds(text, unit, (1, one))
        && answers(text, 0, 1, "\u{e9}b", "")
        && are_thirds(text, unit, (2, two))
}

/// A unit, and how much one U+1D11E takes in it, and how much U+00E9 and `b`.
const STARTS: [(Unit, u32, u32); 3] = [
    (Unit::Chars, 1, 2),
    (Unit::Utf8, 4, 3),
    (Unit::Utf16, 2, 2),
];

#[test]
fn places_in_long_texts(rt: HostRuntime) {
    let thirds = "a\u{e9}\u{1d11e}"
        .repeat(rt.alloc(), 30_000)
        .expect(&rt, "thirds");
    for row in &STARTS {
        let (unit, one, two) = *row;
        assert!(rt; one < 1000 && two < 1000);
        let mut plain = PlainText::new(rt.alloc(), &thirds).expect(&rt, "a text");
        assert!(rt; is_right(&mut plain, unit, one, two));
        let mut pieces = Pieces::new(rt.alloc(), &thirds).expect(&rt, "a text");
        assert!(rt; is_right(&mut pieces, unit, one, two));
        // Within 64 of the unit, past that, and past the piece.
        for step in [1, 9, 90] {
            assert!(rt; are_found_on(&pieces, unit, (2, two), step));
        }
    }
}
