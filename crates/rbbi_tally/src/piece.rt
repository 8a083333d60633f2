//! A piece of the list of segments.
ghost use Rattle.std.specs.Prelude.{◌≡◌, ◌+◌, ◌-◌, ◌≤◌, ◌<◌, ◌++◌, ℕ, List, length, map, take};
ghost use Rattle.std.specs.Prelude.{drop, IsTrue, MatchBool, vec_len, vec_capacity};
ghost use Rattle.std.specs.List.{AllByRecursion};
ghost use Rattle.rbbi_model.specs.Words.{most_characters};
ghost use Rattle.rbbi_tally.specs.inner.Kept.{at_of};
ghost use Rattle.rbbi_tally.specs.inner.Segments.{moved};
ghost use Rattle.rbbi_tally.specs.inner.Pieces.{segments_by, segments_in, IsPiece, farthest};
ghost use Rattle.rbbi_tally.specs.inner.Pieces.{BeginAtStart, most_looked};
ghost use Rattle.rbbi_tally.specs.inner.Spots.{LooksPast};

use crate::kept::Kept;

/// The most segments of a piece that others are put into, and the room that a piece has.
pub(crate) const FULL: usize = 2048;

/// How many segments a new piece has, so that edits find room in it.
pub(crate) const FILLED: usize = 1536;

/// Consecutive segments of a text. Their places are kept relative to the first one, so
/// that an edit before them moves the piece by one number.
#[derive(Drop)]
pub(crate) struct Piece {
    /// Where the first segment begins, in characters from 0.
    pub(crate) start: u32,
    /// The greatest look end of the searches, by which pieces are passed over.
    pub(crate) reach: u32,
    /// The segments, at least one.
    pub(crate) items: Vec<Kept>,
}

/// The greatest look end of the segments of a piece that starts at the place.
pub(crate) fn reach_of(start: u32, items: &[Kept]) -> u32
    requires { AllByRecursion (λ segment. segment.look ≤ most_looked)
        (segments_by start items.now) }
    ensures exact { result ≡ farthest (segments_by start items.now) }
    ensures small { result ≤ most_looked }
{
    let mut reach = 0u32;
    for kept in items {
        reach = reach.max(start + kept.at() + kept.ahead());
    }
    reach
}

impl Piece {
    /// The piece of these segments, whose places count from `start`.
    pub(crate) fn new(start: u32, items: Vec<Kept>) -> Piece
        requires begin { BeginAtStart items.items }
        requires small { AllByRecursion (λ segment. segment.look ≤ most_looked)
            (segments_by start items.items) }
        ensures is { IsPiece result }
        ensures start { result.start ≡ start }
        ensures items { result.items ≡ items }
    {
        let reach = reach_of(start, &items);
        Piece {
            start,
            reach,
            items,
        }
    }

    /// The number of the first segment whose search looks past a place, or that of all segments.
    pub(crate) fn first_reaching(&self, place: u32) -> usize
        requires { IsPiece self.now }
        ensures within { result ≤ length self.now.items.items }
        ensures before { AllByRecursion (λ segment. segment.look ≤ place)
            (take result (segments_in self.now)) }
        ensures first { LooksPast place (drop result (segments_in self.now)) }
    {
        for (item, kept) in self.items.iter().enumerate() {
            if self.start + kept.at() + kept.ahead() > place {
                return item;
            }
        }
        self.items.len()
    }

    /// Keeps the first so many segments, at least one.
    pub(crate) fn cut(&mut self, count: usize)
        requires is { IsPiece self.old }
        requires some { 0 < count }
        ensures is { IsPiece self.new }
        ensures segments { segments_in self.new ≡ take count (segments_in self.old) }
    {
        self.items.truncate(count);
        self.reach = reach_of(self.start, &self.items);
    }

    /// Moves the piece by what an edit before it removed and inserted.
    pub(crate) fn shift(&mut self, removed: u32, inserted: u32)
        requires is { IsPiece self.old }
        requires behind { removed ≤ self.old.start }
        requires small { self.old.reach - removed + inserted ≤ most_looked }
        ensures is { IsPiece self.new }
        ensures segments { segments_in self.new
            ≡ map (moved removed inserted) (segments_in self.old) }
        ensures items { self.new.items ≡ self.old.items }
    {
        self.start = self.start - removed + inserted;
        self.reach = self.reach - removed + inserted;
    }

    /// Appends the segments of another piece to its own, if there is memory for them, and returns
    /// whether it did.
    pub(crate) fn append(&mut self, start: u32, reach: u32, items: &[Kept]) -> bool
        requires is { IsPiece self.old }
        requires behind { self.old.start ≤ start }
        requires near { AllByRecursion
            (λ segment. segment.at < self.old.start + most_characters)
            (segments_by start items.now) }
        requires exact { reach ≡ farthest (segments_by start items.now) }
        requires small { reach ≤ most_looked }
        ensures is { IsPiece self.new }
        ensures segments { MatchBool result
            (segments_in self.new ≡ segments_in self.old ++ segments_by start items.now)
            (segments_in self.new ≡ segments_in self.old) }
        ensures start { self.new.start ≡ self.old.start }
    {
        if self.items.reserve(items.len()).is_err() {
            return false;
        }
        let by = start - self.start;
        for kept in items {
            self.items
                .push_reserved(Kept::new(kept.at() + by, kept.ahead(), kept.list()));
        }
        self.reach = self.reach.max(reach);
        true
    }
}
