//! Pairs of characters, as a file lists them.
ghost use Rattle.std.specs.Prelude.{◌≡◌, ℕ, List, ◌++◌, ◌∷◌, ◌<◌, ◌≤◌, [], length, slice_index_or};
ghost use Rattle.std.specs.Prelude.{None, OnOk, OnErr};
ghost use Rattle.std.specs.List.{AllByRecursion};
ghost use Rattle.rbbi_model.specs.Words.{IsCharacter};
ghost use Rattle.rbbi_text.specs.Bytes.{most_bytes};
ghost use Rattle.rbbi_filter.specs.Pairs as spec;
ghost use Rattle.rbbi_filter.specs.Pairs.{second_of};
ghost use Rattle.rbbi_filter.specs.PairFiles.{ReadsPairs, character_of, pair_of};
ghost use Rattle.rbbi_text.specs.LineValues.{AreValues};
ghost use Rattle.rbbi_filter.specs.inner.PairLines.{IsAnyLine, PairsOf};

use crate::Pair;
use rbbi_text::{
    Line, LineValue, LinesErr, Values, before_byte, hexadecimal, is_skipped, place_or_len,
    read_lines, trim,
};
use std::alloc::{AllocError, Global};
use std::marker::Model;

/// Why a tailoring file is refused: `BadLine` has the first line that is neither skipped nor a
/// pair, or whose first character is that of an earlier line.
pub type TailorErr = LinesErr;

/// Pairs of characters with distinct first ones, in the order of their file. Contracts see them as
/// their list.
#[derive(Drop)]
pub struct Tailoring {
    pairs: Vec<Pair>,
    /// For each character up to the greatest that is turned, the one that it is turned into, if it
    /// is. So a look-up is one step, and a character past them all takes none.
    seconds: Vec<Option<char>>,
}

impl Model for Tailoring {
    ghost use Rattle.std.specs.Prelude.{List};
    ghost use Rattle.rbbi_filter.specs.declared.pair.Pair.{Pair};
    ghost use Rattle.rbbi_filter.specs.inner.Turning.{AreSeconds};

    ghost Value = { List Pair };

    ghost view = { λ tailoring. tailoring.pairs.items };

    ghost invariant = { λ tailoring. AreSeconds tailoring.pairs.items tailoring.seconds.items };
}

impl Tailoring {
    /// The pairs of a file.
    ///
    /// The bytes are at most 100,663,296. One U+FEFF at their start isn't part of the file. A line
    /// ends at LF, and one CR before it isn't part of the line. It is cut before its first `#`, and
    /// skipped where only spaces and tabs are left. Every other line is two characters with a `;`
    /// between them, each of four to six hexadecimal digits of either case, with spaces and tabs
    /// round either.
    ///
    /// Refuses `NotUtf8` with the first byte past the longest valid prefix, `BadLine` with the
    /// first line that is neither skipped nor of this form, or whose first character is that of an
    /// earlier line, and `Memory`.
    pub fn read(alloc: Global, bytes: &[u8]) -> Result<Tailoring, TailorErr>
        requires { length bytes.now ≤ most_bytes }
        ensures { ReadsPairs bytes.now result }
    {
        match read_lines(alloc, bytes) {
            Ok(lines) => pairs_of_lines(alloc, &lines),
            Err(error) => Err(error),
        }
    }

    /// The character that a character is turned into: the second of the pair whose first it is, or
    /// itself.
    pub fn turn(&self, c: char) -> char
        ensures { result ≡ spec.turn self.now c }
    {
        self.second_of(c).unwrap_or(c)
    }

    /// That characters are turned into characters. It is there for proofs, and does nothing when it
    /// runs.
    pub fn turns_to_characters(&self)
        ensures { AllByRecursion (λ pair. IsCharacter pair.to) self.now }
    {
        let _pairs = &self.pairs;
    }

    /// The second character of the pair whose first this is, if there is one.
    fn second_of(&self, c: char) -> Option<char>
        ensures { result ≡ second_of self.now c }
    {
        let place = c as usize;
        if place < self.seconds.len() {
            self.seconds[place]
        } else {
            None
        }
    }

    /// Adds a pair at the end, whose first character no earlier one has.
    fn add(&mut self, from: char, to: char) -> Result<(), AllocError>
        requires { second_of self.old from ≡ None }
        ensures ok { OnOk result (self.new ≡ self.old ++ record { from = from; to = to } ∷ []) }
        ensures err { OnErr result (self.new ≡ self.old) }
    {
        let place = from as usize;
        make_room(&mut self.seconds, place)?;
        self.pairs.push(Pair { from, to })?;
        self.seconds[place] = Some(to);
        Ok(())
    }
}

/// The pairs that these lines write.
fn pairs_of_lines(alloc: Global, lines: &Values<PairLine>) -> Result<Tailoring, TailorErr>
    ensures { (all : List (List ℕ)) → AreValues IsAnyLine all 0 lines.now → PairsOf all result }
{
    let mut tailoring = Tailoring {
        pairs: Vec::new(alloc),
        seconds: Vec::new(alloc),
    };
    for i in 0..lines.len() {
        let line = lines.get(i);
        let Some(pair) = line.pair else {
            return Err(LinesErr::BadLine(line.number));
        };
        if tailoring.second_of(pair.from).is_some() {
            return Err(LinesErr::BadLine(line.number));
        }
        tailoring.add(pair.from, pair.to)?;
    }
    Ok(tailoring)
}

/// Makes the list long enough for a place, by places that hold nothing.
fn make_room(seconds: &mut Vec<Option<char>>, place: usize) -> Result<(), AllocError>
    requires near { place < 0x110000 }
    requires few { length seconds.old.items ≤ 0x110000 }
    ensures same { (c : ℕ) → slice_index_or seconds.new.items c None
        ≡ slice_index_or seconds.old.items c None }
    ensures few { length seconds.new.items ≤ 0x110000 }
    ensures long { OnOk result (place < length seconds.new.items) }
{
    if place >= seconds.len() {
        seconds.resize(place + 1, None)?;
    }
    Ok(())
}

/// A line that isn't skipped: its number, and the pair that it writes, if it is of that form.
#[derive(Drop)]
struct PairLine {
    number: u32,
    pair: Option<Pair>,
}

impl LineValue for PairLine {
    ghost use Rattle.rbbi_filter.specs.inner.PairLines.{IsAnyLine};

    ghost IsLine = { IsAnyLine };

    fn from_line(_alloc: Global, line: &str, number: u32) -> Result<Line<PairLine>, AllocError> {
        let line = line.as_bytes();
        if is_skipped(line) {
            return Ok(Line::Skipped);
        }
        let pair = pair_of(line);
        Ok(Line::Writes(PairLine { number, pair }))
    }
}

/// The pair that a line writes.
fn pair_of(line: &[u8]) -> Option<Pair>
    ensures { result ≡ pair_of line.now }
{
    let fields = before_byte(line, b'#');
    let end = place_or_len(fields, b';');
    if end == fields.len() {
        return None;
    }
    let from = character_of(&fields[..end])?;
    let to = character_of(&fields[end + 1..])?;
    Some(Pair { from, to })
}

/// The character that a field writes in hexadecimal digits.
fn character_of(field: &[u8]) -> Option<char>
    ensures { result ≡ character_of field.now }
{
    char::from_u32(hexadecimal(trim(field), 4, 6, 0x10_FFFF)?)
}
