//! Commands performed by a session.
ghost use Rattle.std.specs.Prelude.{◌≡◌};
ghost use Rattle.rbbi_session.specs.Sessions.{place_reply, test_reply, HasTrueRuns};
ghost use Rattle.rbbi_session.specs.UnitWalks.{unit_view};
ghost use Rattle.rbbi_script.specs.Meaning.{meaning};
ghost use Rattle.rbbi_script.specs.Saying.{reply_of};
ghost use Rattle.rbbi_script.specs.Performing.{Performs};
ghost use Rattle.rbbi_script.specs.Reading.{IsPaid, Reads};

use crate::command::Command;
use crate::listing::{say_boundaries, say_text};
use crate::saying::{Said, say};
use crate::statuses::say_list;
use rbbi_session::{UnitEditErr, UnitSession, Walk, greatest};
use rbbi_text::{Steps, UnitText};
use std::alloc::AllocError;
use std::sync::ledger::Ledger;

/// Performs a command by a session whose places count a unit, as [`perform_by`] does. Refused or
/// not, each question and an accepted edit leave of the kept runs what the session's call leaves;
/// and the runs are true of the session's text.
pub fn perform<T: UnitText, L: Ledger>(
    session: &mut UnitSession<'_, T>,
    command: &Command,
    reply: &mut Vec<u8>,
    steps: &mut Steps<L>,
) -> Result<(), AllocError>
    ensures replies { Performs unit_view session.old (meaning command.now) reply.old.items
        result session.new reply.new.items }
    ensures cost { IsPaid unit_view session.old (meaning command.now) steps.old steps.new }
    ensures reads { Reads unit_view session.old (meaning command.now) result session.new
        steps.old steps.new }
    ensures are_true { HasTrueRuns session.new.asked }
{
    let performed = perform_by(session, command, reply, steps);
    session.runs_are_true();
    performed
}

/// Performs a command by a session of any kind, and appends the lines of its reply.
///
/// The reply to a question is one line: the place or `done`, `yes` or `no`, the greatest status, or
/// all statuses with commas between. `breaks` replies a line for each boundary, and leaves the
/// cursor. `text` replies the characters with `\n`, `\r`, `\t` and `\\` for LF, CR, tab and `\`. An
/// edit replies `ok` and the new length, or `outside`, `inside` or `toolong`. Places, numbers and
/// lengths count as the session does.
///
/// After the refusal a prefix of the reply was appended. Text and cursor are as after the command,
/// or, where an edit was refused for memory, as before it.
///
/// Refused or not, the command reads at most its cost, and nothing where an edit is refused. It
/// reads, and leaves of what the session keeps, what the call that it makes does; `breaks` makes
/// many, one after another: it goes to the first boundary and on from each to the next, and at last
/// it asks for the cursor's.
pub fn perform_by<S: Walk, L: Ledger>(
    session: &mut S,
    command: &Command,
    reply: &mut Vec<u8>,
    steps: &mut Steps<L>,
) -> Result<(), AllocError>
    ensures replies { Performs S.view session.old (meaning command.now) reply.old.items
        result session.new reply.new.items }
    ensures cost { IsPaid S.view session.old (meaning command.now) steps.old steps.new }
    ensures reads { Reads S.view session.old (meaning command.now) result session.new
        steps.old steps.new }
{
    match command {
        Command::First => say(Said::Place(session.first()), reply),
        Command::Last => say(Said::Place(session.last(steps)), reply),
        Command::Next => say(place_said(session.next(steps)), reply),
        Command::Previous => say(place_said(session.previous(steps)), reply),
        Command::Current => say(Said::Place(session.current()), reply),
        Command::Status => say(Said::Number(greatest(session.status_list())), reply),
        Command::Statuses => say_list(session.status_list(), reply),
        Command::Following(place) => say(place_said(session.following(*place, steps)), reply),
        Command::Preceding(place) => say(place_said(session.preceding(*place, steps)), reply),
        Command::Is(place) => say(test_said(session.is_boundary(*place, steps)), reply),
        Command::Replace { at, remove, text } => {
            match session.replace(*at, *remove, text.as_str(), steps) {
                Ok(()) => say(Said::Edited(session.units()), reply),
                Err(UnitEditErr::Outside) => say(Said::Outside, reply),
                Err(UnitEditErr::Inside) => say(Said::Inside, reply),
                Err(UnitEditErr::TooLong) => say(Said::TooLong, reply),
                Err(UnitEditErr::Memory) => Err(AllocError),
            }
        }
        Command::Breaks => say_boundaries(session, reply, steps),
        Command::Text => say_text(session.text(), reply, steps),
    }
}

/// The reply of a place that was found, or not.
fn place_said(place: Option<u32>) -> Said
    ensures { reply_of result ≡ place_reply place }
{
    match place {
        Some(place) => Said::Place(place),
        None => Said::Done,
    }
}

/// The reply of a test.
fn test_said(is: bool) -> Said
    ensures { reply_of result ≡ test_reply is }
{
    if is { Said::Yes } else { Said::No }
}
