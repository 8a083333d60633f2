//! What calls ask a session through a filter of either kind.
ghost use Rattle.std.specs.Prelude.{◌≡◌};
ghost use Rattle.rbbi_session.specs.Walks.{reply_to, IsAsked};
ghost use Rattle.rbbi_filter.specs.UnitFilters.{unit_filter_view};
ghost use Rattle.rbbi_c.specs.Asking.{question_of, told_of};
ghost use Rattle.rbbi_c.specs.Reading.{AreListed};

use crate::asking::{Ask, Told, found};
use crate::copying::copy_front;
use rbbi_filter::{Moves, UnitThrough};
use rbbi_session::Walk;
use rbbi_text::{Steps, UnitText};
use std::sync::ledger::Ledger;

/// Asks a session through a filter.
pub(crate) fn answered_through<M: Moves, L: Ledger>(
    session: &mut UnitThrough<M>,
    asked: Ask,
    steps: &mut Steps<L>,
) -> Told
where
    M::Text: UnitText,
    ensures told { result ≡ told_of (reply_to unit_filter_view session.old (question_of asked)) }
    ensures asked { IsAsked unit_filter_view session.old (question_of asked) session.new
        steps.old steps.new }
{
    match asked {
        Ask::First => Told::Number(session.first()),
        Ask::Last => Told::Number(session.last(steps)),
        Ask::Next => found(session.next(steps)),
        Ask::Previous => found(session.previous(steps)),
        Ask::Following(o) => found(session.following(o, steps)),
        Ask::Preceding(o) => found(session.preceding(o, steps)),
        Ask::IsBoundary(o) => {
            let is = session.is_boundary(o, steps);
            Told::Number(if is { 1 } else { 0 })
        }
        Ask::Current => Told::Number(session.current()),
        Ask::Status => Told::Number(session.status()),
    }
}

/// Writes the statuses at the cursor, as many as there is room for. How many there are.
pub(crate) fn statuses_through<M: Moves>(session: &UnitThrough<M>, room: &mut [u32]) -> usize
where
    M::Text: UnitText,
    ensures { AreListed unit_filter_view session.now room.old room.new result }
{
    let list = session.status_list();
    copy_front(list, room);
    list.len()
}
