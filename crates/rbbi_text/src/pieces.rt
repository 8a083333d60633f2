//! A text by pieces.
ghost use Rattle.std.specs.Prelude.{ℕ, ◌≡◌, ◌+◌, ◌-◌, ◌^◌, ◌<◌, ◌≤◌, [], ◌∷◌, ◌++◌, length, take};
ghost use Rattle.std.specs.Prelude.{drop, slice_index, slice_index_or, slice_set, chars, IfOk};
ghost use Rattle.std.specs.Prelude.{OnOk, OnErr, MatchBool, MatchOption, ⊤, IsTrue};
ghost use Rattle.rbbi_model.specs.Words.{most_characters};
ghost use Rattle.rbbi_model.specs.Spelling.{joined};
ghost use Rattle.rbbi_model.specs.Scripts.{splice};
ghost use Rattle.rbbi_text.specs.Bytes.{most_bytes};
ghost use Rattle.rbbi_text.specs.Cuts.{ArePieces};
ghost use Rattle.rbbi_text.specs.inner.Cuts.{AreWholeCut, IsMiddle, shifted, pieces_with};
ghost use Rattle.rbbi_text.specs.inner.Cuts.{starts_with_new, edited_piece};
ghost use Rattle.rbbi_model.specs.Units.{offset_of};
ghost use Rattle.rbbi_text.specs.Milestones.{AreMilestones};
ghost use Rattle.rbbi_text.specs.Weighed.{weight_of, IsSingle};
ghost use Rattle.rbbi_text.specs.Indexes.{IsIndex};
ghost use Rattle.rbbi_text.specs.Answers.{TakesText, ReadsText};

use crate::measure::{Measure, each_takes_one, fit_in, total};
use crate::milestones::{Milestones, before, find, shift_milestones};
use crate::piece::{FEW, FULL, Piece, QUARTER, cut, pieces_of};
use crate::places::{character, locate, piece_around, push_starts, shift};
use crate::plain::{check_edit, put};
use crate::{
    Chars, EditErr, EditText, Excerpt, Index, Raw, RawErr, Steps, TextErr, Unit, UnitText,
};
use std::alloc::{AllocError, Global};
use std::fmt;
use std::marker::Model;
use std::sync::ledger::Ledger;

/// A text by pieces of at most 1,024 characters. Contracts see it as the list of all characters.
///
/// All pieces but the last are between a quarter full and full. A place is found by where the
/// pieces start, from the piece on in which it would be if all were full: some nanoseconds in a
/// text that was hardly edited, and logarithmic in one that was. An edit moves the characters of
/// one piece, or of the few that it touches, and the starts after it.
#[derive(Drop)]
pub struct Pieces {
    pieces: Vec<Piece>,
    /// Where each piece starts, in characters from 0.
    starts: Vec<u32>,
    /// The number of characters.
    len: u32,
    /// Where each 8th piece starts in the unit for which the text is ready.
    milestones: Milestones,
    /// Whether each character is known to take one of that unit.
    single: bool,
    /// Where the memory of further pieces comes from.
    alloc: Global,
}

impl Model for Pieces {
    ghost use Rattle.std.specs.Prelude.{List, ℕ, IsTrue};
    ghost use Rattle.rbbi_model.specs.Spelling.{joined};
    ghost use Rattle.rbbi_text.specs.Cuts.{AreCut};
    ghost use Rattle.rbbi_text.specs.Milestones.{AreMilestones};
    ghost use Rattle.rbbi_text.specs.Weighed.{weight_of, IsSingle};

    ghost Value = { List ℕ };

    ghost view = { λ text. joined text.pieces.items };

    ghost invariant = { λ text. AreCut text.pieces.items text.starts.items text.len
        × AreMilestones (weight_of text.milestones.unit) text.pieces.items
        text.milestones.sums.items
        × (IsTrue text.single → IsSingle text.milestones.unit (joined text.pieces.items)) };
}

/// It writes the type's name and none of the characters, which only `char_at` gives.
impl fmt::Debug for Pieces {
    fn fmt<W: fmt::Write>(&self, f: &mut fmt::Formatter<W>) -> fmt::Result {
        f.write_str("Pieces")
    }
}

/// The text of these pieces.
fn text_of(alloc: Global, pieces: Vec<Piece>) -> Result<Pieces, AllocError>
    requires { ArePieces pieces.items }
    ensures { IfOk result (λ text. text ≡ joined pieces.items) }
{
    let mut starts = Vec::with_capacity(alloc, pieces.len())?;
    let len = push_starts(&mut starts, 0, &pieces)?;
    let milestones = Milestones::none(alloc);
    Ok(Pieces {
        pieces,
        starts,
        len,
        milestones,
        single: false,
        alloc,
    })
}

impl Pieces {
    /// The text of this string.
    ///
    /// Refuses `TooManyChars` where it has more than 16,777,216 characters.
    pub fn new(alloc: Global, text: &str) -> Result<Pieces, TextErr>
        ensures { TakesText (chars text.now) result }
    {
        match pieces_of(alloc, text)? {
            Some(pieces) => Ok(text_of(alloc, pieces)?),
            None => Err(TextErr::TooManyChars),
        }
    }

    /// The text that the bytes spell in UTF-8. It counts no step. A U+FEFF at the start is a
    /// character of the text.
    ///
    /// Refuses `NotUtf8` where the bytes are not UTF-8, at the first byte past the longest valid
    /// prefix; otherwise `TooManyChars` where they spell more than 16,777,216 characters.
    pub fn from_raw(alloc: Global, raw: &Raw) -> Result<Pieces, RawErr>
        requires { length raw.now ≤ most_bytes }
        ensures { ReadsText raw.now result }
    {
        match pieces_of(alloc, raw.text()?)? {
            Some(pieces) => Ok(text_of(alloc, pieces)?),
            None => Err(RawErr::TooManyChars),
        }
    }
}

impl Chars for Pieces {
    ghost characters = { λ text. text };

    fn len(&self) -> u32 {
        self.len
    }

    #[inline]
    fn char_at<L: Ledger>(&self, i: u32, steps: &mut Steps<L>) -> char {
        steps.tick();
        character(&self.pieces, &self.starts, i as usize)
    }

    fn excerpt(&self, i: u32) -> Excerpt<'_> {
        piece_around(&self.pieces, &self.starts, i as usize)
    }
}

/// Edits one piece: it replaces `remove` characters from `from` by those of a string, `added` of
/// them, and moves the starts after it. If memory runs out, the pieces stay as they were.
fn edit_piece(
    pieces: &mut Vec<Piece>,
    starts: &mut Vec<u32>,
    milestones: &mut Milestones,
    first: usize,
    from: usize,
    remove: u32,
    insert: &str,
    added: u32,
) -> Result<(), AllocError>
    requires number { first < length pieces.old.items }
    requires number_of_start { first < length starts.old.items }
    requires from { from < 2 ^ 32 }
    requires within { from + remove ≤ length (slice_index_or pieces.old.items first []) }
    requires few { length (slice_index_or pieces.old.items first []) - remove
        + length (chars insert.now) ≤ 1024 }
    requires behind { (k : ℕ) → first + 1 ≤ k → k < length starts.old.items
        → remove ≤ slice_index starts.old.items k }
    requires small { (k : ℕ) → first + 1 ≤ k → k < length starts.old.items
        → slice_index starts.old.items k + added < 2 ^ 32 }
    requires milestones { AreMilestones (weight_of milestones.old.unit) pieces.old.items
        milestones.old.sums.items }
    requires short { length (joined pieces.old.items) ≤ most_characters }
    ensures pieces { OnOk result (pieces.new.items ≡ slice_set pieces.old.items first
        (edited_piece pieces.old.items first from remove (chars insert.now))) }
    ensures starts { OnOk result (starts.new.items ≡ take (first + 1) starts.old.items
        ++ shifted remove added (drop (first + 1) starts.old.items)) }
    ensures milestones { OnOk result (AreMilestones (weight_of milestones.new.unit)
        pieces.new.items milestones.new.sums.items) }
    ensures unit { OnOk result (milestones.new.unit ≡ milestones.old.unit) }
    ensures err { OnErr result (pieces.new.items ≡ pieces.old.items) }
    ensures err_starts { OnErr result (starts.new.items ≡ starts.old.items) }
    ensures err_milestones { OnErr result (milestones.new ≡ milestones.old) }
{
    let unit = milestones.unit;
    let old = pieces[first].units(unit);
    pieces[first].put(from, from + remove as usize, insert)?;
    shift(starts, first + 1, remove, added);
    let new = pieces[first].units(unit);
    shift_milestones(&mut milestones.sums, first, old, new);
    Ok(())
}

/// The starts with those of new pieces in place of those from `first` to the one before `past`.
/// Those after are moved.
fn starts_with(
    alloc: Global,
    starts: &[u32],
    first: usize,
    past: usize,
    new: &[Piece],
    removed: u32,
    added: u32,
) -> Result<Vec<u32>, AllocError>
    requires first { first < length starts.now }
    requires past { past ≤ length starts.now }
    requires few { slice_index starts.now first + length (joined new.now) < 2 ^ 32 }
    requires behind { (k : ℕ) → past ≤ k → k < length starts.now
        → removed ≤ slice_index starts.now k }
    requires small { (k : ℕ) → past ≤ k → k < length starts.now
        → slice_index starts.now k + added < 2 ^ 32 }
    ensures { IfOk result (λ all.
        all.items ≡ starts_with_new starts.now first past new.now removed added) }
{
    let mut all = Vec::with_capacity(alloc, starts.len())?;
    all.extend_from_slice(&starts[..first])?;
    let _end = push_starts(&mut all, starts[first], new)?;
    let behind = all.len();
    all.extend_from_slice(&starts[past..])?;
    shift(&mut all, behind, removed, added);
    Ok(all)
}

/// Characters, those of a string and further ones, one after the other.
fn gathered(
    alloc: Global,
    front: &[char],
    insert: &str,
    back: &[char],
) -> Result<Vec<char>, AllocError>
    ensures { IfOk result (λ all. all.items ≡ front.now ++ (chars insert.now ++ back.now)) }
{
    let mut all = Vec::with_capacity(alloc, FULL)?;
    all.extend_from_slice(front)?;
    put(&mut all, front.len(), front.len(), insert)?;
    all.extend_from_slice(back)?;
    Ok(all)
}

/// The characters of the pieces that an edit touches, after the edit.
#[derive(Drop)]
struct Middle {
    characters: Vec<char>,
    /// The number of the first piece after them.
    past: usize,
}

/// Whether so many characters make a piece, or piece `last` is the last one.
fn is_enough(len: usize, last: usize, count: usize) -> bool
    requires { last < count }
    ensures { MatchBool result (last + 1 < count → 256 ≤ len) (last + 1 < count) }
{
    len >= QUARTER || last + 1 == count
}

/// What an edit makes of the pieces that it touches: what it leaves in front, the characters of the
/// string, and what it leaves from the place `end` on. If these are few, the next piece comes too.
fn make_middle(
    alloc: Global,
    pieces: &[Piece],
    starts: &[u32],
    front: &[char],
    insert: &str,
    end: usize,
) -> Result<Middle, AllocError>
    requires cut { AreWholeCut pieces.now starts.now }
    requires inside { end ≤ length (joined pieces.now) }
    ensures { IfOk result (λ middle. IsMiddle pieces.now starts.now front.now (chars insert.now) end
        middle.characters.items middle.past) }
{
    let last = locate(pieces, starts, end);
    let left = end - starts[last] as usize;
    let back = pieces[last].behind(left);
    let mut characters = gathered(alloc, front, insert, back)?;
    if is_enough(characters.len(), last, pieces.len()) {
        return Ok(Middle {
            characters,
            past: last + 1,
        });
    }
    characters.extend_from_slice(pieces[last + 1].as_slice())?;
    Ok(Middle {
        characters,
        past: last + 2,
    })
}

/// Whether an edit is within a piece and leaves it full enough, or the last, and not too full.
fn fits(size: usize, from: usize, remove: usize, added: usize, behind: usize) -> bool
    requires small { from + remove < 2 ^ 40 }
    requires few { added < 2 ^ 32 }
    requires size { size < 2 ^ 32 }
    ensures { MatchBool result ((from + remove ≤ size) × (size - remove + added ≤ 1024)
        × (0 < behind → 256 ≤ size - remove + added)) ⊤ }
{
    if from + remove > size || size - remove + added > FULL {
        return false;
    }
    behind == 0 || size - remove + added >= QUARTER
}

/// Replaces `remove` characters from a place by those of a string, `added` of them.
fn edit(
    alloc: Global,
    pieces: &mut Vec<Piece>,
    starts: &mut Vec<u32>,
    milestones: &mut Milestones,
    place: usize,
    remove: u32,
    insert: &str,
    added: u32,
) -> Result<(), AllocError>
    requires cut { AreWholeCut pieces.old.items starts.old.items }
    requires inside { place + remove ≤ length (joined pieces.old.items) }
    requires added { added ≡ length (chars insert.now) }
    requires few { length (joined pieces.old.items) - remove + added ≤ most_characters }
    requires milestones { AreMilestones (weight_of milestones.old.unit) pieces.old.items
        milestones.old.sums.items }
    ensures cut { OnOk result (AreWholeCut pieces.new.items starts.new.items) }
    ensures text { OnOk result (joined pieces.new.items
        ≡ splice (joined pieces.old.items) place remove (chars insert.now)) }
    ensures milestones { OnOk result (AreMilestones (weight_of milestones.new.unit)
        pieces.new.items milestones.new.sums.items) }
    ensures unit { OnOk result (milestones.new.unit ≡ milestones.old.unit) }
    ensures err { OnErr result (pieces.new.items ≡ pieces.old.items) }
    ensures err_starts { OnErr result (starts.new.items ≡ starts.old.items) }
    ensures err_milestones { OnErr result (milestones.new ≡ milestones.old) }
{
    let first = locate(pieces, starts, place);
    let from = place - starts[first] as usize;
    let size = pieces[first].len();
    let behind = pieces.len() - first - 1;
    if fits(size, from, remove as usize, added as usize, behind) {
        edit_piece(
            pieces, starts, milestones, first, from, remove, insert, added,
        )?;
        return Ok(());
    }
    let end = place + remove as usize;
    let front = pieces[first].before(from);
    let middle = make_middle(alloc, pieces, starts, front, insert, end)?;
    let new = cut(alloc, &middle.characters, milestones.unit)?;
    let new_starts = starts_with(alloc, starts, first, middle.past, &new, remove, added)?;
    let _gone = pieces.splice(first..middle.past, new)?;
    *starts = new_starts;
    milestones.renew(pieces, first);
    Ok(())
}

impl EditText for Pieces {
    fn replace(&mut self, at: u32, remove: u32, insert: &str) -> Result<(), EditErr> {
        let added = check_edit(self.len as usize, at, remove, insert)?;
        edit(
            self.alloc,
            &mut self.pieces,
            &mut self.starts,
            &mut self.milestones,
            at as usize,
            remove,
            insert,
            added,
        )?;
        self.len = self.len - remove + added;
        self.single = self.single && each_takes_one(insert, self.milestones.unit);
        Ok(())
    }
}

/// Where a place of the pieces lies in a unit, by its milestones.
fn offset_in(pieces: &[Piece], starts: &[u32], sums: &[u32], unit: Unit, place: usize) -> u32
    requires cut { AreWholeCut pieces.now starts.now }
    requires sums { AreMilestones (weight_of unit) pieces.now sums.now }
    requires inside { place ≤ length (joined pieces.now) }
    ensures { result ≡ offset_of unit (joined pieces.now) place }
{
    let piece = locate(pieces, starts, place);
    let front = pieces[piece].taken_before(place - starts[piece] as usize, unit);
    before(pieces, sums, unit, piece) + front
}

/// How much of a unit the characters from one place to another take together, where they are in
/// one piece and each takes one, or they are few.
#[inline]
fn units_near(pieces: &[Piece], starts: &[u32], unit: Unit, from: u32, to: u32) -> Option<u32>
    requires cut { AreWholeCut pieces.now starts.now }
    requires forward { from ≤ to }
    requires inside { from ≤ length (joined pieces.now) }
    ensures { MatchOption result ⊤ (λ units.
        offset_of unit (joined pieces.now) from + units ≡ offset_of unit (joined pieces.now) to) }
{
    let number = locate(pieces, starts, from as usize);
    let start = starts[number];
    pieces[number].taken_few(from - start, to - start, unit)
}

/// The place at an offset in a unit, by its milestones, or the last place before it.
fn index_in(pieces: &[Piece], starts: &[u32], sums: &[u32], unit: Unit, o: u32) -> Index
    requires cut { AreWholeCut pieces.now starts.now }
    requires sums { AreMilestones (weight_of unit) pieces.now sums.now }
    ensures { IsIndex unit (joined pieces.now) o result }
{
    let front = find(pieces, sums, unit, o);
    if front.count == pieces.len() {
        let last = front.count - 1;
        return Index {
            at: starts[last] + pieces[last].len() as u32,
            whole: front.units == o,
        };
    }
    let rest = pieces[front.count].fit(unit, o - front.units);
    Index {
        at: starts[front.count] + rest.count as u32,
        whole: front.units + rest.units == o,
    }
}

/// The place at an offset in a unit, or the last place before it, by a place before it in the same
/// piece and where that lies. None if it may be further on.
#[inline]
fn index_near(
    pieces: &[Piece],
    starts: &[u32],
    unit: Unit,
    from: u32,
    offset: u32,
    o: u32,
) -> Option<Index>
    requires cut { AreWholeCut pieces.now starts.now }
    requires inside { from ≤ length (joined pieces.now) }
    requires offset { offset ≡ offset_of unit (joined pieces.now) from }
    ensures { MatchOption result ⊤ (λ index. IsIndex unit (joined pieces.now) o index) }
{
    if o < offset || o - offset > FEW {
        return None;
    }
    let number = locate(pieces, starts, from as usize);
    let rest = pieces[number].behind((from - starts[number]) as usize);
    let fit = fit_in(rest, unit, o - offset);
    if fit.count == rest.len() {
        return None;
    }
    Some(Index {
        at: from + fit.count as u32,
        whole: offset + fit.units == o,
    })
}

/// Makes the pieces ready for a unit.
fn measure_in(pieces: &mut Vec<Piece>, unit: Unit)
    ensures { pieces.new.items ≡ pieces.old.items }
{
    for i in 0..pieces.len() {
        pieces[i].measure_in(unit);
    }
}

impl Pieces {
    /// Whether each character is known to take one of a unit, so that it lies where its place is.
    #[inline(always)]
    fn is_single(&self, unit: Unit) -> bool
        ensures { IsTrue result → IsSingle unit self.now }
    {
        match unit {
            Unit::Chars => true,
            Unit::Utf8 | Unit::Utf16 => self.single && unit == self.milestones.unit,
        }
    }

    /// A unit in which each place lies where it does in this one: characters, where each is known
    /// to take one of it.
    pub fn simplest(&self, unit: Unit) -> Unit
        ensures { (i : ℕ) → offset_of result self.now i ≡ offset_of unit self.now i }
    {
        if self.is_single(unit) {
            Unit::Chars
        } else {
            unit
        }
    }

    /// Where a place lies, as `offset_from`, where characters may take more than one.
    #[inline(never)]
    fn offset_near(&self, unit: Unit, from: u32, offset: u32, i: u32) -> u32
        requires from { from ≤ length self.now }
        requires offset { offset ≡ offset_of unit self.now from }
        requires within { i ≤ length self.now }
        ensures { result ≡ offset_of unit self.now i }
    {
        match units_near(&self.pieces, &self.starts, unit, from.min(i), from.max(i)) {
            Some(units) if from <= i => offset + units,
            Some(units) => offset - units,
            None => self.offset(unit, i),
        }
    }
}

impl UnitText for Pieces {
    #[inline]
    fn offset(&self, unit: Unit, i: u32) -> u32 {
        if self.is_single(unit) {
            return i;
        }
        let sums = self.milestones.sums_in(unit);
        offset_in(&self.pieces, &self.starts, sums, unit, i as usize)
    }

    #[inline]
    fn offset_from(&self, unit: Unit, from: u32, offset: u32, i: u32) -> u32 {
        if self.is_single(unit) {
            return i;
        }
        self.offset_near(unit, from, offset, i)
    }

    fn make_ready(&mut self, unit: Unit) {
        match unit {
            Unit::Chars => {}
            Unit::Utf8 | Unit::Utf16 => {
                measure_in(&mut self.pieces, unit);
                self.milestones.unit = unit;
                self.milestones.renew(&self.pieces, 0);
                self.single = total(&self.pieces, unit) == self.len;
            }
        }
    }

    #[inline]
    fn index(&self, unit: Unit, o: u32) -> Index {
        if self.is_single(unit) {
            return Index {
                at: o.min(self.len),
                whole: o <= self.len,
            };
        }
        let sums = self.milestones.sums_in(unit);
        index_in(&self.pieces, &self.starts, sums, unit, o)
    }

    #[inline]
    fn index_from(&self, unit: Unit, from: u32, offset: u32, o: u32) -> Index {
        if self.is_single(unit) {
            return self.index(unit, o);
        }
        match index_near(&self.pieces, &self.starts, unit, from, offset, o) {
            Some(index) => index,
            None => self.index(unit, o),
        }
    }
}
