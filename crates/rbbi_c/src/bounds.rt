//! Boundaries that a session by characters finds, with their offsets in a unit.
ghost use Rattle.std.specs.Prelude.{◌≡◌, ◌^◌, ◌<◌, ◌≤◌, length, ⊤, Some, None, MatchOption};
ghost use Rattle.rbbi_model.specs.Cover.{IsPlaceOf};
ghost use Rattle.rbbi_model.specs.Places.{largest};
ghost use Rattle.rbbi_model.specs.Units.{size_of, offset_of};
ghost use Rattle.rbbi_model.specs.UnitAnswers as units;
ghost use Rattle.rbbi_model.specs.Answers.{first_after, last_before};
ghost use Rattle.rbbi_session.specs.Sessions.{boundaries_of};
ghost use Rattle.rbbi_session.specs.inner.UnitPlaces.{IsPlaceUpTo};
ghost use Rattle.rbbi_model.specs.Searches.{table_boundaries};
ghost use Rattle.rbbi_c.specs.inner.Bounds.{HasSameText, IsBound, IsHere, Finds};
ghost use Rattle.rbbi_c.specs.inner.Bounds.{place_of, up_to, down_to};

use crate::shared::SharedTable;
use rbbi_session::{SessionBy, greatest};
use rbbi_table::{FrontPlaces, Table};
use rbbi_text::{Chars, Near, Pieces, Steps, Unit, UnitText};
use std::sync::ledger::Ledger;

/// A boundary.
#[derive(Clone, Copy)]
pub(crate) struct Bound {
    /// Its place, in characters from 0.
    pub(crate) at: u32,
    /// Where it lies in the unit.
    pub(crate) offset: u32,
    /// Its greatest status.
    pub(crate) status: u32,
}

/// The last place that doesn't lie past a number.
pub(crate) fn place_up_to(text: &Pieces, unit: Unit, o: u32) -> u32
    ensures within { result ≤ length text.now }
    ensures up_to { IsPlaceUpTo unit text.now o result }
{
    let len = text.len();
    if o >= text.offset(unit, len) {
        return len;
    }
    text.index(unit, o).at
}

/// The first place that doesn't lie before a number; a place past the text's end where the number
/// is.
pub(crate) fn place_from(text: &Pieces, unit: Unit, o: u32) -> u32
    ensures { result ≡ units.place_from unit text.now o }
{
    let len = text.len();
    if o > text.offset(unit, len) {
        return len + 1;
    }
    let index = text.index(unit, o);
    if index.whole {
        return index.at;
    }
    index.at + 1
}

/// How much of a unit a character takes.
fn size(c: char, unit: Unit) -> u32
    ensures { result ≡ size_of unit c }
{
    match unit {
        Unit::Chars => 1,
        Unit::Utf8 => c.len_utf8() as u32,
        Unit::Utf16 => c.len_utf16() as u32,
    }
}

/// The offset of a place, counted on from an earlier place and its offset.
#[tactic(auto, using(crate::proofs::Found::counts_on))]
pub(crate) fn counted_on<T: Chars, L: Ledger>(
    text: &T,
    unit: Unit,
    from: u32,
    offset: u32,
    to: u32,
    steps: &mut Steps<L>,
) -> u32
    requires order { from ≤ to }
    requires within { to ≤ length (T.characters text.now) }
    requires counted { offset ≡ offset_of unit (T.characters text.now) from }
    requires small { offset_of unit (T.characters text.now) (length (T.characters text.now))
        < 2 ^ 32 }
    ensures { result ≡ offset_of unit (T.characters text.now) to }
{
    if let Unit::Chars = unit {
        return to;
    }
    let mut reached = offset;
    for at in from..to {
        reached += size(text.char_at(at, steps), unit);
    }
    reached
}

/// The boundary at the cursor, where a place was found.
fn found_here(
    session: &SessionBy<SharedTable, Pieces>,
    unit: Unit,
    place: Option<u32>,
) -> Option<Bound>
    ensures { MatchOption place (result ≡ None) (λ _. IsHere session.now unit result) }
{
    match place {
        Some(_) => Some(here(session, unit)),
        None => None,
    }
}

/// The boundary at the cursor.
fn here(session: &SessionBy<SharedTable, Pieces>, unit: Unit) -> Bound
    ensures at { result.at ≡ session.now.state.cursor }
    ensures bound { IsBound session.now.table unit session.now.state.text result }
{
    let at = session.current();
    Bound {
        at,
        offset: session.text().offset(unit, at),
        status: session.status(),
    }
}

/// The first boundary past a place, which the cursor goes to.
pub(crate) fn find_past<L: Ledger>(
    session: &mut SessionBy<SharedTable, Pieces>,
    unit: Unit,
    place: u32,
    steps: &mut Steps<L>,
) -> Option<Bound>
    ensures found { Finds session.old.table unit session.old.state.text
        (first_after (boundaries_of session.old) place) result }
    ensures same { HasSameText session.old session.new }
{
    let found = session.following(place, steps);
    found_here(session, unit, found)
}

/// The last boundary before a place, which the cursor goes to.
pub(crate) fn find_before<L: Ledger>(
    session: &mut SessionBy<SharedTable, Pieces>,
    unit: Unit,
    place: u32,
    steps: &mut Steps<L>,
) -> Option<Bound>
    ensures found { Finds session.old.table unit session.old.state.text
        (last_before (boundaries_of session.old) place) result }
    ensures same { HasSameText session.old session.new }
{
    let found = session.preceding(place, steps);
    found_here(session, unit, found)
}

/// The boundary, if it doesn't lie past a place.
pub(crate) fn no_later(found: Option<Bound>, last: u32) -> Option<Bound>
    ensures place { place_of result ≡ up_to last (place_of found) }
    ensures same { MatchOption result ⊤ (λ bound. found ≡ Some bound) }
{
    match found {
        Some(bound) if bound.at <= last => Some(bound),
        _ => None,
    }
}

/// The boundary, if it doesn't lie before a place.
pub(crate) fn no_earlier(found: Option<Bound>, first: u32) -> Option<Bound>
    ensures place { place_of result ≡ down_to first (place_of found) }
    ensures same { MatchOption result ⊤ (λ bound. found ≡ Some bound) }
{
    match found {
        Some(bound) if first <= bound.at => Some(bound),
        _ => None,
    }
}

/// Puts the cursor back at a boundary.
pub(crate) fn go_back<L: Ledger>(
    session: &mut SessionBy<SharedTable, Pieces>,
    cursor: u32,
    steps: &mut Steps<L>,
)
    requires { IsPlaceOf (boundaries_of session.old) cursor }
    ensures table { session.new.table ≡ session.old.table }
    ensures text { session.new.state.text ≡ session.old.state.text }
    ensures cursor { session.new.state.cursor ≡ cursor }
{
    session.is_boundary(cursor, steps);
}

/// The boundary that follows one, by a search in the table from there.
pub(crate) fn next_bound<L: Ledger>(
    table: &Table,
    text: &Pieces,
    unit: Unit,
    bound: Bound,
    marks: &mut FrontPlaces,
    steps: &mut Steps<L>,
) -> Option<Bound>
    requires bound { IsBound table.now unit text.now bound }
    requires small { offset_of unit text.now (length text.now) < 2 ^ 32 }
    requires fit { marks.old ≡ table.now.slashes }
    ensures found { Finds table.now unit text.now
        (first_after (table_boundaries table.now text.now) bound.at) result }
    ensures fit { marks.new ≡ marks.old }
{
    rbbi_model::next_boundary_is_past_the_start();
    table.valid();
    if bound.at >= text.len() {
        return None;
    }
    // A search from one boundary to the next mostly stays in one piece.
    let near = Near::new(text, bound.at);
    let found = table.next(&near, bound.at, marks, steps);
    Some(Bound {
        at: found.at,
        offset: counted_on(&near, unit, bound.at, bound.offset, found.at, steps),
        status: greatest(table.status_list(found.status)),
    })
}
