//! Boundaries within a range, listed at once.
ghost use Rattle.std.specs.Prelude.{◌≡◌, ◌^◌, ◌<◌, ℕ, length};
ghost use Rattle.rbbi_model.specs.Cover.{IsPlaceOf};
ghost use Rattle.rbbi_model.specs.Units.{offset_of, measured};
ghost use Rattle.rbbi_model.specs.Searches.{table_boundaries};
ghost use Rattle.rbbi_model.specs.Plays.{measured_boundaries};
ghost use Rattle.rbbi_session.specs.Sessions.{boundaries_of};
ghost use Rattle.rbbi_c.specs.Ranges.{past_up_to, before_down_to, columns, ListsOut};
ghost use Rattle.rbbi_c.specs.inner.Bounds.{HasSameText, HasSameState, AreBounds, place_of};
ghost use Rattle.rbbi_c.specs.inner.Bounds.{listed_from};

use crate::bounds::{
    Bound, find_before, find_past, go_back, no_earlier, no_later, place_from, place_up_to,
};
use crate::copying::write_at;
use crate::greatest::Greatest;
use crate::shared::SharedTable;
use crate::stretch::{Stretch, next_on};
use rbbi_session::SessionBy;
use rbbi_table::{FrontPlaces, Table};
use rbbi_text::{Chars, Pieces, Steps, Unit, UnitText};
use std::sync::ledger::Ledger;

/// What was listed.
#[derive(Clone, Copy)]
pub struct Listing {
    /// How many boundaries were written.
    pub count: usize,
    /// The number to go on from.
    pub resume: u32,
    /// Whether there are more.
    pub more: bool,
}

/// Lists the boundaries of a text from one on, up to a place.
fn list_on<L: Ledger>(
    table: &Table,
    text: &Pieces,
    unit: Unit,
    first: Option<Bound>,
    last: u32,
    from: u32,
    places: &mut [u32],
    statuses: &mut [u32],
    marks: &mut FrontPlaces,
    steps: &mut Steps<L>,
) -> Listing
    requires fit { marks.old ≡ table.now.slashes }
    requires small { offset_of unit text.now (length text.now) < 2 ^ 32 }
    requires first { AreBounds table.now unit text.now first }
    ensures listed { let boundaries = table_boundaries table.now text.now in ListsOut
        (measured unit text.now (listed_from boundaries (λ at. past_up_to at last boundaries)
        (place_of first))) from
        (columns places.old statuses.old) (columns places.new statuses.new) result }
    ensures fit { marks.new ≡ marks.old }
{
    let greatest = Greatest::of(table);
    let mut stretch = Stretch::around(text, 0);
    let mut next = first;
    let mut count = 0;
    let mut resume = from;
    'boundaries: loop {
        let bound = match next {
            Some(bound) => bound,
            None => {
                return Listing {
                    count,
                    resume,
                    more: false,
                };
            }
        };
        if count >= places.len() {
            return Listing {
                count,
                resume,
                more: true,
            };
        }
        write_at(places, count, bound.offset);
        write_at(statuses, count, bound.status);
        count += 1;
        resume = bound.offset;
        let found = next_on(
            table,
            text,
            unit,
            bound,
            &mut stretch,
            &greatest,
            marks,
            steps,
        );
        next = no_later(found, last);
    }
}

/// Lists the boundaries before one, down to a place, the last one first.
fn list_back<L: Ledger>(
    session: &mut SessionBy<SharedTable, Pieces>,
    unit: Unit,
    latest: Option<Bound>,
    first: u32,
    from: u32,
    places: &mut [u32],
    statuses: &mut [u32],
    steps: &mut Steps<L>,
) -> Listing
    requires { AreBounds session.old.table unit session.old.state.text latest }
    ensures listed { let boundaries = boundaries_of session.old in ListsOut
        (measured unit session.old.state.text (listed_from boundaries
        (λ at. before_down_to at first boundaries) (place_of latest))) from
        (columns places.old statuses.old) (columns places.new statuses.new) result }
    ensures same { HasSameText session.old session.new }
{
    let mut next = latest;
    let mut count = 0;
    let mut resume = from;
    'boundaries: loop {
        let bound = match next {
            Some(bound) => bound,
            None => {
                return Listing {
                    count,
                    resume,
                    more: false,
                };
            }
        };
        if count >= places.len() {
            return Listing {
                count,
                resume,
                more: true,
            };
        }
        write_at(places, count, bound.offset);
        write_at(statuses, count, bound.status);
        count += 1;
        resume = bound.offset;
        next = no_earlier(find_before(session, unit, bound.at, steps), first);
    }
}

/// Lists the boundaries of a session's text past one number, up to another.
pub(crate) fn list_past<L: Ledger>(
    session: &mut SessionBy<SharedTable, Pieces>,
    table: &Table,
    unit: Unit,
    from: u32,
    to: u32,
    places: &mut [u32],
    statuses: &mut [u32],
    marks: &mut FrontPlaces,
    steps: &mut Steps<L>,
) -> Listing
    requires table { session.old.table ≡ table.now }
    requires fit { marks.old ≡ table.now.slashes }
    ensures listed { ListsOut (past_up_to from to
        (measured_boundaries session.old.table unit session.old.state.text)) from
        (columns places.old statuses.old) (columns places.new statuses.new) result }
    ensures state { HasSameState session.old session.new }
    ensures fit { marks.new ≡ marks.old }
{
    let cursor = session.current();
    let past = place_up_to(session.text(), unit, from);
    let last = place_up_to(session.text(), unit, to);
    let first = no_later(find_past(session, unit, past, steps), last);
    go_back(session, cursor, steps);
    let text = session.text();
    let unit = text.simplest(unit);
    let _units = text.offset(unit, text.len());
    list_on(
        table, text, unit, first, last, from, places, statuses, marks, steps,
    )
}

/// Lists the boundaries of a session's text before one number, down to another, the last one first.
pub(crate) fn list_before<L: Ledger>(
    session: &mut SessionBy<SharedTable, Pieces>,
    unit: Unit,
    from: u32,
    to: u32,
    places: &mut [u32],
    statuses: &mut [u32],
    steps: &mut Steps<L>,
) -> Listing
    ensures listed { ListsOut (before_down_to from to
        (measured_boundaries session.old.table unit session.old.state.text)) from
        (columns places.old statuses.old) (columns places.new statuses.new) result }
    ensures state { HasSameState session.old session.new }
{
    let cursor = session.current();
    let before = place_from(session.text(), unit, from);
    let first = place_from(session.text(), unit, to);
    let latest = no_earlier(find_before(session, unit, before, steps), first);
    let listing = list_back(session, unit, latest, first, from, places, statuses, steps);
    go_back(session, cursor, steps);
    listing
}
