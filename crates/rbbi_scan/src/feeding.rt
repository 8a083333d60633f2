//! Feeding a text piece by piece, and taking its segments.
ghost use Rattle.std.specs.Prelude.{◌≡◌, ◌+◌, ◌^◌, ◌<◌, ◌≤◌, ◌++◌, [], length, drop, false, MatchResult, OnOk, OnErr};
ghost use Rattle.rbbi_model.specs.declared.unit.Unit.TheVariants.{Utf8, Utf16};
ghost use Rattle.rbbi_model.specs.Words.{most_characters};
ghost use Rattle.rbbi_scan.specs.Columns.{columns};
ghost use Rattle.rbbi_scan.specs.Units.{unit_of, units_of};
ghost use Rattle.rbbi_scan.specs.Feeding.{HasFed, IsFed, IsStill, IsNotFed, GivesNext};
ghost use Rattle.rbbi_scan.specs.Scanning.{ScansOn};
ghost use Rattle.rbbi_scan.specs.Stops.{IsStopFrom};

use crate::reached::{Asked, Reached, Stop};
use crate::scanner::Scanner;
use crate::scanning::scan;
use crate::units::Units;
use crate::utf8::Utf8Text;
use crate::utf16::Utf16Text;
use rbbi_table::Table;
use rbbi_text::{Steps, Unit};
use std::alloc::{AllocError, Global};
use std::sync::ledger::Ledger;

/// Why a piece isn't fed.
#[derive(Clone, Copy, PartialEq, Eq)]
pub enum NotFed {
    /// The last piece was fed before.
    Ended,
    /// The text is fed in the other unit.
    Unit,
    /// Memory ran out, or the text would have 2^64 units.
    Memory,
}

impl Scanner {
    ghost use Rattle.rbbi_model.specs.Tables.{Table};

    /// A text in UTF-8 of which nothing is fed so far. With `only_words` the segments are given in
    /// which a letter or a digit of any script stands, and else all.
    pub fn utf8(alloc: Global, only_words: bool) -> Scanner
        ensures unit { unit_of result.held ≡ Utf8 }
        ensures words { result.only_words ≡ only_words }
        ensures unfinished { result.is_last ≡ false }
        ensures fed { (table : Table) → HasFed table [] (columns [] [] []) result }
    {
        empty(Units::Bytes(Vec::new(alloc)), only_words)
    }

    /// A text in UTF-16 of which nothing is fed so far. The rest is as in `utf8`.
    pub fn utf16(alloc: Global, only_words: bool) -> Scanner
        ensures unit { unit_of result.held ≡ Utf16 }
        ensures words { result.only_words ≡ only_words }
        ensures unfinished { result.is_last ≡ false }
        ensures fed { (table : Table) → HasFed table [] (columns [] [] []) result }
    {
        empty(Units::Wide(Vec::new(alloc)), only_words)
    }

    /// The unit of its text, which places count.
    pub fn unit(&self) -> Unit
        ensures { result ≡ unit_of self.now.held }
    {
        self.held.unit()
    }

    /// Feeds the next bytes of a text in UTF-8, the last ones with `is_last`.
    ///
    /// Refuses `Ended` after the last piece, `Unit` where the text is in UTF-16, and `Memory`. Then
    /// nothing is fed.
    pub fn feed_utf8(&mut self, alloc: Global, piece: &[u8], is_last: bool) -> Result<(), NotFed>
        ensures fed { OnOk result (IsFed Utf8 piece.now is_last self.old self.new) }
        ensures refused { MatchResult result (λ _. self.old.is_last ≡ false)
            (IsNotFed Utf8 self.old) }
        ensures still { OnErr result (IsStill self.old self.new) }
    {
        if self.is_last {
            return Err(NotFed::Ended);
        }
        let passed = self.passed();
        let origin = self.origin + passed as u64;
        let Units::Bytes(held) = &mut self.held else {
            return Err(NotFed::Unit);
        };
        if grow(alloc, held, passed, piece, origin).is_err() {
            return Err(NotFed::Memory);
        }
        self.at -= passed;
        self.origin = origin;
        self.is_last = is_last;
        Ok(())
    }

    /// Feeds the next units of a text in UTF-16. The rest is as in `feed_utf8`.
    pub fn feed_utf16(&mut self, alloc: Global, piece: &[u16], is_last: bool) -> Result<(), NotFed>
        ensures fed { OnOk result (IsFed Utf16 piece.now is_last self.old self.new) }
        ensures refused { MatchResult result (λ _. self.old.is_last ≡ false)
            (IsNotFed Utf16 self.old) }
        ensures still { OnErr result (IsStill self.old self.new) }
    {
        if self.is_last {
            return Err(NotFed::Ended);
        }
        let passed = self.passed();
        let origin = self.origin + passed as u64;
        let Units::Wide(held) = &mut self.held else {
            return Err(NotFed::Unit);
        };
        if grow(alloc, held, passed, piece, origin).is_err() {
            return Err(NotFed::Memory);
        }
        self.at -= passed;
        self.origin = origin;
        self.is_last = is_last;
        Ok(())
    }

    /// How many units are let go with the next piece: those before the last boundary, if they are
    /// half of what is held, and else none. So each unit is moved about once.
    fn passed(&self) -> usize
        ensures { result ≤ self.now.at }
    {
        if self.held.len() - self.at <= self.at {
            self.at
        } else {
            0
        }
    }

    /// Gives segments of what was fed, as many as there is room for: where each starts and ends, and
    /// the greatest status of its end. Places count units of the text from 0. A segment is left that
    /// depends on units which aren't fed.
    ///
    /// `ends` is the room. `starts` and `statuses` may have less or none, where they aren't wanted.
    pub fn next<L: Ledger>(
        &mut self,
        alloc: Global,
        table: &Table,
        starts: &mut [u64],
        ends: &mut [u64],
        statuses: &mut [u32],
        steps: &mut Steps<L>,
    ) -> Reached
        ensures room { result.count ≤ length ends.new }
        ensures next { GivesNext table.now (columns starts.old ends.old statuses.old)
            (columns starts.new ends.new statuses.new) self.old self.new result }
    {
        let asked = Asked {
            only_words: self.only_words,
            origin: self.origin,
        };
        let reached = scan_held(
            alloc,
            table,
            asked,
            &self.held,
            self.at,
            self.is_last,
            self.tried,
            starts,
            ends,
            statuses,
            steps,
        );
        self.at = reached.resume;
        self.tried = match reached.stop {
            Stop::More => self.held.len() - reached.resume,
            _ => 0,
        };
        Reached {
            count: reached.count,
            resume: self.origin as usize + reached.resume,
            stop: stop_from(reached.stop, self.origin),
        }
    }
}

/// A text of which nothing is fed so far.
fn empty(held: Units, only_words: bool) -> Scanner
    requires none { units_of held ≡ [] }
    ensures held { result.held ≡ held }
    ensures words { result.only_words ≡ only_words }
    ensures unfinished { result.is_last ≡ false }
    ensures fed { (table : Table) → HasFed table [] (columns [] [] []) result }
{
    Scanner {
        held,
        only_words,
        at: 0,
        origin: 0,
        is_last: false,
        tried: 0,
    }
}

/// Lets go of so many units and adds those of a piece, if what stands before and they are fewer than
/// 2^64.
fn grow<T: Copy + Drop>(
    alloc: Global,
    held: &mut Vec<T>,
    passed: usize,
    piece: &[T],
    origin: u64,
) -> Result<(), AllocError>
    requires within { passed ≤ length held.old.items }
    ensures grown { OnOk result (held.new.items ≡ drop passed held.old.items ++ piece.now) }
    ensures small { OnOk result (origin + length held.new.items < 2 ^ 64) }
    ensures still { OnErr result (held.new.items ≡ held.old.items) }
{
    let len = held.len() - passed;
    let Some(len) = len.checked_add(piece.len()) else {
        return Err(AllocError);
    };
    if origin.checked_add(len as u64).is_none() {
        return Err(AllocError);
    }
    if passed == 0 {
        return held.extend_from_slice(piece);
    }
    let mut rest = Vec::from_slice(alloc, &held[passed..])?;
    rest.extend_from_slice(piece)?;
    *held = rest;
    Ok(())
}

/// Gives boundaries of what is held from a place on. A search that read on past so many units isn't
/// made again before there are twice as many.
fn scan_held<L: Ledger>(
    alloc: Global,
    table: &Table,
    asked: Asked,
    held: &Units,
    from: usize,
    is_last: bool,
    tried: usize,
    starts: &mut [u64],
    places: &mut [u64],
    statuses: &mut [u32],
    steps: &mut Steps<L>,
) -> Reached
    requires within { from ≤ length (units_of held.now) }
    requires small { asked.origin + length (units_of held.now) < 2 ^ 64 }
    ensures within { result.resume ≤ length (units_of held.now) }
    ensures counted { result.count ≤ length places.new }
    ensures scans { (stop : Stop) → ScansOn (unit_of held.now) table.now asked is_last most_characters (units_of held.now)
        (record { count = 0; resume = from; stop = stop }) (columns starts.old places.old statuses.old)
        (columns starts.new places.new statuses.new) result }
{
    if !is_last && (held.len() - from) / 2 < tried {
        return Reached {
            count: 0,
            resume: from,
            stop: Stop::More,
        };
    }
    match held {
        Units::Bytes(bytes) => scan(
            alloc,
            table,
            asked,
            &Utf8Text { bytes },
            from,
            is_last,
            starts,
            places,
            statuses,
            steps,
        ),
        Units::Wide(units) => scan(
            alloc,
            table,
            asked,
            &Utf16Text { units },
            from,
            is_last,
            starts,
            places,
            statuses,
            steps,
        ),
    }
}

/// Why no more was given, with places in a text that begins so many units before.
fn stop_from(stop: Stop, origin: u64) -> Stop
    ensures { IsStopFrom stop origin result }
{
    match stop {
        Stop::Fault(at) => Stop::Fault((origin as usize).saturating_add(at)),
        other => other,
    }
}
