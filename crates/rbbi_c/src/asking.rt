//! Questions to a session, and what they answer.
ghost use Rattle.std.specs.Prelude.{◌≡◌};
ghost use Rattle.rbbi_c.specs.Asking.{question_of, told_of};
ghost use Rattle.rbbi_session.specs.Sessions.{place_reply};
ghost use Rattle.rbbi_session.specs.Walks.{IsAsked, reply_to};
ghost use Rattle.rbbi_session.specs.UnitWalks.{unit_view};

use crate::shared::SharedTable;
use rbbi_session::{UnitSessionBy, Walk};
use rbbi_text::{Pieces, Steps};
use std::sync::ledger::Ledger;

/// A question to a session.
#[derive(Clone, Copy)]
pub(crate) enum Ask {
    First,
    Last,
    Next,
    Previous,
    Following(u32),
    Preceding(u32),
    IsBoundary(u32),
    Current,
    Status,
}

/// What is reported of a reply: a number, or that there is no such boundary.
#[derive(Clone, Copy)]
pub(crate) enum Told {
    Number(u32),
    Done,
}

/// What is reported of a place that was found, or not.
pub(crate) fn found(place: Option<u32>) -> Told
    ensures { result ≡ told_of (place_reply place) }
{
    match place {
        Some(place) => Told::Number(place),
        None => Told::Done,
    }
}

/// Asks a session.
#[inline(always)]
pub(crate) fn answered<L: Ledger>(
    session: &mut UnitSessionBy<SharedTable, Pieces>,
    asked: Ask,
    steps: &mut Steps<L>,
) -> Told
    ensures told { result ≡ told_of (reply_to unit_view session.old (question_of asked)) }
    ensures asked { IsAsked unit_view session.old (question_of asked) session.new
        steps.old steps.new }
{
    // What is kept is true also where nothing is asked of it.
    session.runs_are_true();
    match asked {
        Ask::First => Told::Number(session.first()),
        Ask::Last => Told::Number(session.last(steps)),
        Ask::Next => found(session.next(steps)),
        Ask::Previous => found(session.previous(steps)),
        Ask::Following(o) => found(session.following(o, steps)),
        Ask::Preceding(o) => found(session.preceding(o, steps)),
        Ask::IsBoundary(o) => {
            let is = session.is_boundary(o, steps);
            Told::Number(if is { 1 } else { 0 })
        }
        Ask::Current => Told::Number(session.current()),
        Ask::Status => Told::Number(session.status()),
    }
}
