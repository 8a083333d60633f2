//! The segment that holds a place.
ghost use Rattle.std.specs.Prelude.{◌≡◌, ◌<◌, ⊤, None, IsSomeAnd, MatchOption};
ghost use Rattle.rbbi_model.specs.Answers.{first_after};
ghost use Rattle.rbbi_model.specs.Plays.{measured_boundaries};
ghost use Rattle.rbbi_model.specs.Units.{measured};
ghost use Rattle.rbbi_session.specs.Sessions.{boundaries_of};
ghost use Rattle.rbbi_c.specs.Segments.{EndsAt, IsSegmentAt};
ghost use Rattle.rbbi_c.specs.inner.Bounds.{HasSameText, HasSameState, IsBound, AreBounds};

use crate::bounds::{Bound, find_before, find_past, go_back, place_up_to};
use crate::shared::SharedTable;
use rbbi_session::SessionBy;
use rbbi_text::{Pieces, Steps, Unit};
use std::sync::ledger::Ledger;

/// A segment: what lies between two neighbouring boundaries.
#[repr(C)]
#[derive(Clone, Copy)]
pub struct Segment {
    /// Where it begins.
    pub from: u32,
    /// Where it ends.
    pub to: u32,
    /// The greatest status of the boundary at its end.
    pub status: u32,
}

/// The offset of a boundary that was found, or 0.
fn offset_or_start(found: Option<Bound>) -> u32
    ensures { MatchOption found (result ≡ 0) (λ bound. result ≡ bound.offset) }
{
    match found {
        Some(bound) => bound.offset,
        None => 0,
    }
}

/// The segment that ends at a boundary other than 0.
fn segment_to<L: Ledger>(
    session: &mut SessionBy<SharedTable, Pieces>,
    unit: Unit,
    end: Bound,
    steps: &mut Steps<L>,
) -> Segment
    requires bound { IsBound session.old.table unit session.old.state.text end }
    requires some { 0 < end.at }
    ensures ends { EndsAt (measured unit session.old.state.text (boundaries_of session.old))
        end.offset result }
    ensures same { HasSameText session.old session.new }
{
    let begin = find_before(session, unit, end.at, steps);
    Segment {
        from: offset_or_start(begin),
        to: end.offset,
        status: end.status,
    }
}

/// The segment that ends at a boundary other than 0, if there is one.
fn segment_to_end<L: Ledger>(
    session: &mut SessionBy<SharedTable, Pieces>,
    unit: Unit,
    end: Option<Bound>,
    steps: &mut Steps<L>,
) -> Option<Segment>
    requires bound { AreBounds session.old.table unit session.old.state.text end }
    requires some { MatchOption end ⊤ (λ bound. 0 < bound.at) }
    ensures ends { MatchOption end (result ≡ None) (λ bound. IsSomeAnd result
        (EndsAt (measured unit session.old.state.text (boundaries_of session.old)) bound.offset)) }
    ensures same { HasSameText session.old session.new }
{
    match end {
        Some(end) => Some(segment_to(session, unit, end, steps)),
        None => None,
    }
}

/// The segment of a session's text that holds a place. None where the place lies at the text's end
/// or past it.
pub(crate) fn segment_at<L: Ledger>(
    session: &mut SessionBy<SharedTable, Pieces>,
    unit: Unit,
    at: u32,
    steps: &mut Steps<L>,
) -> Option<Segment>
    ensures found { let boundaries =
        measured_boundaries session.old.table unit session.old.state.text in MatchOption result
        (first_after boundaries at ≡ None) (IsSegmentAt boundaries at) }
    ensures state { HasSameState session.old session.new }
{
    let cursor = session.current();
    let place = place_up_to(session.text(), unit, at);
    let end = find_past(session, unit, place, steps);
    let segment = segment_to_end(session, unit, end, steps);
    go_back(session, cursor, steps);
    segment
}
