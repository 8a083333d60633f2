//! Searches of a text, from boundary to boundary.
ghost use Rattle.std.specs.Prelude.{◌≡◌, ◌+◌, ◌-◌, ◌^◌, ◌≤◌, ◌<◌, ◌++◌, ◌∷◌, [], ℕ, length};
ghost use Rattle.std.specs.Prelude.{slice_index, vec_len, vec_capacity};
ghost use Rattle.rbbi_model.specs.Words.{most_characters};
ghost use Rattle.rbbi_model.specs.Lists.{IsRising};
ghost use Rattle.rbbi_model.specs.Searches.{found};
ghost use Rattle.rbbi_model.specs.Costs.{characters_read};
ghost use Rattle.rbbi_tally.specs.inner.Segments.{segment_at, AreSegments};
ghost use Rattle.rbbi_tally.specs.inner.Pieces.{segments_by, segments_from, ArePieces, IsSpot};
ghost use Rattle.rbbi_tally.specs.inner.Pieces.{IsUpTo};
ghost use Rattle.rbbi_tally.specs.inner.Counting.{IsRecounted, AreCounted};
ghost use Rattle.rbbi_tally.specs.inner.Searching.{AreMet, IsGoneTo, places_to, reads_of};

use crate::edit::Edit;
use crate::kept::Kept;
use crate::piece::Piece;
use crate::spot::{Spot, place_at, skip};
use rbbi_table::{FrontPlaces, Table};
use rbbi_text::{Chars, Steps};
use std::sync::ledger::Ledger;

/// Searches from a boundary, keeps and counts the segment that begins there, and gives the next
/// boundary. Places are kept counted from `start`.
pub(crate) fn search_from<T: Chars, L: Ledger>(
    table: &Table,
    text: &T,
    place: u32,
    start: u32,
    items: &mut Vec<Kept>,
    counts: &mut [u32],
    marks: &mut FrontPlaces,
    steps: &mut Steps<L>,
) -> u32
    requires within { place < length (T.characters text.now) }
    requires start { start ≤ place }
    requires fit { marks.old ≡ table.now.slashes }
    requires room { vec_len items.old < vec_capacity items.old }
    requires lists { length counts.old ≡ length table.now.lists }
    requires few { (list : ℕ) → list < length counts.old →
        slice_index counts.old list + 1 < 2 ^ 32 }
    ensures place { result ≡ (found table.now (T.characters text.now) place).at }
    ensures items { segments_by start items.new.items ≡ segments_by start items.old.items
        ++ segment_at table.now (T.characters text.now) place ∷ [] }
    ensures count { length items.new.items ≡ length items.old.items + 1 }
    ensures room { vec_capacity items.new ≡ vec_capacity items.old }
    ensures counted { IsRecounted [] (segment_at table.now (T.characters text.now) place ∷ [])
        counts.old counts.new }
    ensures read { steps.new
        ≡ steps.old + characters_read table.now (T.characters text.now) place }
    ensures fit { marks.new ≡ marks.old }
{
    table.valid();
    let _short = text.len();
    let found = table.next(text, place, marks, steps);
    items.push_reserved(Kept::new(place - start, found.look - place, found.status));
    counts[found.status as usize] += 1;
    found.at
}

/// Where new boundaries and old ones meet.
#[derive(Clone, Copy)]
pub(crate) struct Met {
    /// The place in the new text.
    pub(crate) place: u32,
    /// The old segment that begins there.
    pub(crate) spot: Spot,
}

/// Goes on to a place of the new text. After the edit, it takes the old segments before the place
/// from the counts, and returns whether an old segment begins there.
fn meets(
    pieces: &[Piece],
    counts: &mut [u32],
    spot: &mut Spot,
    place: u32,
    edit: Edit,
    end: u32,
) -> bool
    requires pieces { ArePieces pieces.now }
    requires spot { IsSpot pieces.now spot.old }
    requires counted { AreCounted (segments_from pieces.now spot.old) counts.old }
    requires within { edit.at + edit.removed ≤ end }
    requires reach { place + edit.removed ≤ end + edit.inserted }
    requires small { edit.at + edit.inserted < 2 ^ 32 }
    ensures spot { IsSpot pieces.now spot.new }
    ensures order { IsUpTo spot.old spot.new }
    ensures gone_to { IsGoneTo edit end place result (segments_from pieces.now spot.old)
        (segments_from pieces.now spot.new) counts.old counts.new }
{
    if place < edit.at + edit.inserted {
        return false;
    }
    let old = place - edit.inserted + edit.removed;
    *spot = skip(pieces, counts, *spot, old);
    place_at(pieces, *spot, end) == old
}

/// Searches the new text from a boundary on, until a place after the edit is an old boundary
/// moved. It keeps and counts what it finds, and takes from the counts the old segments from
/// `first` up to where they meet. `end` is the length of the old text.
pub(crate) fn search_again<T: Chars, L: Ledger>(
    table: &Table,
    text: &T,
    pieces: &[Piece],
    first: Spot,
    start: u32,
    edit: Edit,
    end: u32,
    items: &mut Vec<Kept>,
    counts: &mut [u32],
    marks: &mut FrontPlaces,
    steps: &mut Steps<L>,
) -> Met
    requires pieces { ArePieces pieces.now }
    requires spot { IsSpot pieces.now first }
    requires rise { IsRising (places_to (segments_from pieces.now first) end) }
    requires length { length (T.characters text.now) + edit.removed ≡ end + edit.inserted }
    requires within { edit.at + edit.removed ≤ end }
    requires start { start ≤ length (T.characters text.now) }
    requires fit { marks.old ≡ table.now.slashes }
    requires empty { items.old.items ≡ [] }
    requires room { length (T.characters text.now) ≤ start + vec_capacity items.old }
    requires lists { length counts.old ≡ length table.now.lists }
    requires counted { AreCounted (segments_from pieces.now first) counts.old }
    requires few { (list : ℕ) → list < length counts.old →
        slice_index counts.old list ≤ most_characters }
    ensures met { AreMet table.now (T.characters text.now) edit start
        (segments_from pieces.now first) end (segments_by start items.new.items) result.place
        (segments_from pieces.now result.spot) counts.old counts.new }
    ensures spot { IsSpot pieces.now result.spot }
    ensures order { IsUpTo first result.spot }
    ensures within { result.place ≤ length (T.characters text.now) }
    ensures room { vec_capacity items.new ≡ vec_capacity items.old }
    ensures read { steps.new ≡ steps.old
        + reads_of table.now (T.characters text.now) (segments_by start items.new.items) }
    ensures fit { marks.new ≡ marks.old }
{
    let _short = text.len();
    let mut place = start;
    let mut spot = first;
    loop {
        if meets(pieces, counts, &mut spot, place, edit, end) {
            return Met { place, spot };
        }
        place = search_from(table, text, place, start, items, counts, marks, steps);
    }
}
