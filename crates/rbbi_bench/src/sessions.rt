//! The questions and edits of a session.
ghost use Rattle.std.specs.Prelude.{◌≤◌, length};
ghost use Rattle.rbbi_text.specs.Bytes.{most_bytes};

use crate::parts::{draw, place_by};
use rbbi_session::{UnitSession, Walk};
use rbbi_table::Table;
use rbbi_text::{Pieces, Raw, Steps, Unit};
use std::alloc::Global;
use std::sync::ledger::Ledger;

/// What a round asks of a session.
#[derive(Clone, Copy)]
enum Call {
    Next,
    Previous,
    Following,
    Preceding,
    IsBoundary,
    /// A character is replaced, and then come the two questions that draw its line.
    Change,
}

/// The call of this name.
fn call_of(name: &str) -> Option<Call> {
    match name {
        "next" => Some(Call::Next),
        "previous" => Some(Call::Previous),
        "following" => Some(Call::Following),
        "preceding" => Some(Call::Preceding),
        "is_boundary" => Some(Call::IsBoundary),
        "change" => Some(Call::Change),
        _ => None,
    }
}

/// The reply to a call at a place. The questions from the cursor pass over the place.
fn reply<L: Ledger>(
    session: &mut UnitSession<'_, Pieces>,
    call: Call,
    place: u32,
    steps: &mut Steps<L>,
) -> Option<u32> {
    match call {
        Call::Next => session.next(steps),
        Call::Previous => session.previous(steps),
        Call::Following => session.following(place, steps),
        Call::Preceding => session.preceding(place, steps),
        Call::IsBoundary => Some(u32::from(session.is_boundary(place, steps))),
        Call::Change => {
            session.replace(place, 1, "x", steps).ok()?;
            let from = session.preceding(place.saturating_add(1), steps)?;
            Some(session.following(place, steps)?.wrapping_sub(from))
        }
    }
}

/// The sum of the replies to a call, so many times. The cursor is in the middle at first, and
/// places are random.
fn sum_of<L: Ledger>(
    session: &mut UnitSession<'_, Pieces>,
    call: Call,
    rounds: u32,
    steps: &mut Steps<L>,
) -> Option<u64> {
    let units = session.units();
    let mut sum = u64::from(session.following(units / 2, steps)?);
    let mut state = 0;
    for _ in 0..rounds {
        state = draw(state);
        let found = reply(session, call, place_by(state, units), steps);
        sum = sum.wrapping_add(u64::from(found.unwrap_or(0)));
    }
    Some(sum)
}

/// A call of a session by UTF-16 units over a text, so many times, and the sum of the replies.
pub(crate) fn measure_session<L: Ledger>(
    alloc: Global,
    table: &Table,
    text: &Raw,
    name: &str,
    rounds: u32,
    steps: &mut Steps<L>,
) -> Option<u64>
    requires { length text.now ≤ most_bytes }
{
    let call = call_of(name)?;
    let text = Pieces::from_raw(alloc, text).ok()?;
    let mut session = UnitSession::open(alloc, table, text, Unit::Utf16).ok()?;
    sum_of(&mut session, call, rounds, steps)
}
