//! The pieces that a text is cut into.
ghost use Rattle.std.specs.Prelude.{◌≡◌, ◌+◌, ◌≤◌, ◌<◌, ◌++◌, length, take, drop, slice_index};
ghost use Rattle.std.specs.Prelude.{IfOk, OnOk, OnErr, MatchOption, MatchBool, [], ◌∷◌, chars, ◌-◌};
ghost use Rattle.std.specs.Prelude.{sum_by, ⊤};
ghost use Rattle.std.specs.List.{AllByRecursion, splice};
ghost use Rattle.rbbi_model.specs.Words.{most_characters};
ghost use Rattle.rbbi_model.specs.Spelling.{joined};
ghost use Rattle.rbbi_text.specs.Cuts.{IsFilled, AreFilled, ArePieces};
ghost use Rattle.rbbi_text.specs.inner.Cuts.{AreSoFar, HaveRoom};
ghost use Rattle.rbbi_text.specs.Weighed.{weight_of};
ghost use Rattle.rbbi_text.specs.inner.Fits.{IsFit};
ghost use Rattle.rbbi_model.specs.Units.{size_of, offset_of};

use crate::Unit;
use crate::measure::{Fit, Measure, fit_characters, taken, total};
use crate::plain::{MOST_CHARACTERS, put};
use std::alloc::{AllocError, Global};
use std::marker::Model;
use std::mem;

/// The most characters of a piece.
pub(crate) const FULL: usize = 1024;

/// The fewest characters of a piece, but for the last.
pub(crate) const QUARTER: usize = 256;

/// The most characters that are counted one by one between two places of a piece.
pub(crate) const FEW: u32 = 64;

/// At most 1,024 characters of a text, one after the other. Contracts see it as their list.
#[derive(Drop)]
pub(crate) struct Piece {
    items: Vec<char>,
    /// How much of a unit they take, and the unit.
    size: u32,
    unit: Unit,
}

impl Model for Piece {
    ghost use Rattle.std.specs.Prelude.{List, ℕ};
    ghost use Rattle.rbbi_text.specs.Weighed.{AreWeighed};

    ghost Value = { List ℕ };

    ghost view = { λ piece. piece.items.items };

    ghost invariant = { λ piece. AreWeighed piece.items.items piece.unit piece.size };
}

impl Measure for Piece {
    ghost weight = { weight_of };

    fn units(&self, unit: Unit) -> u32 {
        match (self.unit, unit) {
            (Unit::Utf8, Unit::Utf8) | (Unit::Utf16, Unit::Utf16) => self.size,
            _ => taken(&self.items, unit),
        }
    }
}

impl Piece {
    /// The piece of these characters, ready for a unit.
    fn of(items: Vec<char>, unit: Unit) -> Piece
        requires { length items.items ≤ 1024 }
        ensures { result ≡ items.items }
    {
        let size = taken(&items, unit);
        Piece { items, size, unit }
    }

    /// Makes the piece ready for a unit.
    pub(crate) fn measure_in(&mut self, unit: Unit)
        ensures { self.new ≡ self.old }
    {
        self.size = taken(&self.items, unit);
        self.unit = unit;
    }

    /// Replaces the characters from one place to another by those of a string, as `plain::put`.
    pub(crate) fn put(&mut self, start: usize, end: usize, text: &str) -> Result<(), AllocError>
        requires forward { start ≤ end }
        requires within { end ≤ length self.old }
        requires few { length self.old - (end - start) + length (chars text.now) ≤ 1024 }
        ensures ok { OnOk result (self.new ≡ splice self.old start end (chars text.now)) }
        ensures err { OnErr result (self.new ≡ self.old) }
    {
        let behind = self.items.len() - end;
        let gone = taken(&self.items[start..end], self.unit);
        put(&mut self.items, start, end, text)?;
        let new = &self.items[start..self.items.len() - behind];
        self.size = self.size - gone + taken(new, self.unit);
        Ok(())
    }

    /// A piece of these characters, with room for as many as a piece may have, ready for a unit.
    fn copied(alloc: Global, characters: &[char], unit: Unit) -> Result<Piece, AllocError>
        requires { length characters.now ≤ 1024 }
        ensures { IfOk result (λ piece. piece ≡ characters.now) }
    {
        let mut items = Vec::with_capacity(alloc, FULL)?;
        items.extend_from_slice(characters)?;
        Ok(Piece::of(items, unit))
    }

    /// The number of characters.
    pub(crate) fn len(&self) -> usize
        ensures { result ≡ length self.now }
    {
        self.items.len()
    }

    /// The character with this number, from 0.
    #[inline(always)]
    pub(crate) fn get(&self, i: usize) -> char
        requires { i < length self.now }
        ensures { result ≡ slice_index self.now i }
    {
        self.items[i]
    }

    /// The characters before a number.
    pub(crate) fn before(&self, i: usize) -> &[char]
        requires { i ≤ length self.now }
        ensures { result.now ≡ take i self.now }
    {
        &self.items[..i]
    }

    /// The characters from a number on.
    pub(crate) fn behind(&self, i: usize) -> &[char]
        requires { i ≤ length self.now }
        ensures { result.now ≡ drop i self.now }
    {
        &self.items[i..]
    }

    /// How much of a unit the characters before a number take. Mostly each takes one; otherwise
    /// they are counted from the nearer end.
    pub(crate) fn taken_before(&self, i: usize, unit: Unit) -> u32
        requires { i ≤ length self.now }
        ensures { result ≡ sum_by (size_of unit) (take i self.now) }
    {
        let len = self.items.len();
        let all = self.units(unit);
        if all as usize == len {
            return i as u32;
        }
        if i > len / 2 {
            return all - taken(&self.items[i..], unit);
        }
        taken(&self.items[..i], unit)
    }

    /// How much of a unit the characters from one number to another take together, where the piece
    /// has them and each takes one, or they are few.
    #[inline(always)]
    pub(crate) fn taken_few(&self, from: u32, to: u32, unit: Unit) -> Option<u32>
        requires { from ≤ to }
        ensures { MatchOption result ⊤ (λ units. (to ≤ length self.now)
            × (offset_of unit self.now from + units ≡ offset_of unit self.now to)) }
    {
        let len = self.items.len();
        if to as usize > len {
            return None;
        }
        if self.units(unit) as usize == len {
            return Some(to - from);
        }
        if to - from > FEW {
            return None;
        }
        Some(total(&self.items[from as usize..to as usize], unit))
    }

    /// How many of the characters, from the first on, take at most so much of a unit together.
    pub(crate) fn fit(&self, unit: Unit, most: u32) -> Fit
        ensures { IsFit (size_of unit) self.now most result.count result.units }
    {
        let len = self.items.len();
        if self.units(unit) as usize != len {
            return fit_characters(&self.items, unit, most);
        }
        let count = len.min(most as usize);
        Fit {
            count,
            units: count as u32,
        }
    }

    /// All characters, in order.
    pub(crate) fn as_slice(&self) -> &[char]
        ensures { result.now ≡ self.now }
    {
        &self.items
    }
}

/// Adds a piece of these characters, ready for a unit.
fn push_piece(
    alloc: Global,
    pieces: &mut Vec<Piece>,
    characters: &[char],
    unit: Unit,
) -> Result<(), AllocError>
    requires { length characters.now ≤ 1024 }
    ensures { OnOk result (pieces.new.items ≡ pieces.old.items ++ characters.now ∷ []) }
{
    pieces.push(Piece::copied(alloc, characters, unit)?)?;
    Ok(())
}

/// How many of so many characters make the next piece: a full one, or half if that left too few.
fn next_size(rest: usize) -> usize
    requires { 1024 < rest }
    ensures filled { (256 ≤ result) × (result ≤ 1024) }
    ensures left { result + 256 ≤ rest }
{
    if rest < FULL + QUARTER {
        rest / 2
    } else {
        FULL
    }
}

/// The characters cut into pieces: full ones, but for the last two, which share what is left. The
/// pieces are ready for a unit.
#[tactic(auto, using(crate::proofs::CutLemmas::pushed))]
pub(crate) fn cut(alloc: Global, characters: &[char], unit: Unit) -> Result<Vec<Piece>, AllocError>
    ensures same { IfOk result (λ pieces. joined pieces.items ≡ characters.now) }
    ensures some { IfOk result (λ pieces. 1 ≤ length pieces.items) }
    ensures filled { IfOk result (λ pieces. AreFilled pieces.items) }
    ensures all { 256 ≤ length characters.now
        → IfOk result (λ pieces. AllByRecursion IsFilled pieces.items) }
{
    let mut pieces = Vec::new(alloc);
    let mut rest = characters;
    while rest.len() > FULL {
        let (front, back) = rest.split_at(next_size(rest.len()));
        push_piece(alloc, &mut pieces, front, unit)?;
        rest = back;
    }
    push_piece(alloc, &mut pieces, rest, unit)?;
    Ok(pieces)
}

/// Whether one more character may come. An open piece that is full becomes one of the pieces.
#[tactic(auto, using(crate::proofs::CutLemmas::room_behind))]
fn make_room(
    alloc: Global,
    pieces: &mut Vec<Piece>,
    latest: &mut Vec<char>,
) -> Result<bool, AllocError>
    requires { AreSoFar pieces.old.items latest.old.items }
    ensures { IfOk result (λ room. MatchBool room
        (HaveRoom (joined pieces.old.items ++ latest.old.items) pieces.new.items latest.new.items)
        (length (joined pieces.old.items ++ latest.old.items) ≡ most_characters)) }
{
    if latest.len() < FULL {
        return Ok(true);
    }
    if pieces.len() == MOST_CHARACTERS / FULL - 1 {
        return Ok(false);
    }
    let empty = Vec::with_capacity(alloc, FULL)?;
    let full = mem::replace(latest, empty);
    pieces.push(Piece::of(full, Unit::Chars))?;
    Ok(true)
}

/// The pieces of a string, all full but the last, or None if it has too many characters for a text.
pub(crate) fn pieces_of(alloc: Global, text: &str) -> Result<Option<Vec<Piece>>, AllocError>
    ensures { IfOk result (λ found. MatchOption found
        (most_characters < length (chars text.now))
        (λ pieces. (joined pieces.items ≡ chars text.now) × ArePieces pieces.items)) }
{
    let mut pieces = Vec::new(alloc);
    let mut latest = Vec::with_capacity(alloc, FULL)?;
    for c in text.chars() {
        let room = make_room(alloc, &mut pieces, &mut latest)?;
        if !room {
            return Ok(None);
        }
        latest.push(c)?;
    }
    pieces.push(Piece::of(latest, Unit::Chars))?;
    Ok(Some(pieces))
}
