//! Commands performed by a session through a filter.
ghost use Rattle.rbbi_script.specs.Meaning.{meaning};
ghost use Rattle.rbbi_script.specs.Performing.{Performs};
ghost use Rattle.rbbi_script.specs.Reading.{IsPaid};
ghost use Rattle.rbbi_filter.specs.FilterSessions.{HasTrueRuns, filter_view};

use crate::moves::Moves;
use crate::{CharMap, Filtered, Predicate, Tailored, Through};
use rbbi_script::{Command, perform_by};
use rbbi_text::{EditText, Steps};
use std::alloc::AllocError;
use std::sync::ledger::Ledger;

/// Performs a command by a session that leaves boundaries out, and appends the lines of its reply,
/// as [`perform_by`] does. Places and lengths are in characters.
///
/// After the refusal a prefix of the reply was appended. Text and cursor are as after the command,
/// or, where an edit was refused for memory, as before it. Refused or not, the command reads at
/// most its cost, and the session's runs are true of its text as it is searched.
pub fn perform_filtered<T: EditText, P: Predicate, L: Ledger>(
    session: &mut Filtered<'_, T, P>,
    command: &Command,
    reply: &mut Vec<u8>,
    steps: &mut Steps<L>,
) -> Result<(), AllocError>
    ensures replies { Performs filter_view session.old (meaning command.now) reply.old.items
        result session.new reply.new.items }
    ensures cost { IsPaid filter_view session.old (meaning command.now) steps.old steps.new }
    ensures are_true { HasTrueRuns session.new }
{
    perform_through(session, command, reply, steps)
}

/// Performs a command by a session that maps characters, as [`perform_filtered`] does by one that
/// leaves boundaries out. The reply to `text` is the text as it is.
pub fn perform_tailored<T: EditText, G: CharMap, L: Ledger>(
    session: &mut Tailored<'_, T, G>,
    command: &Command,
    reply: &mut Vec<u8>,
    steps: &mut Steps<L>,
) -> Result<(), AllocError>
    ensures replies { Performs filter_view session.old (meaning command.now) reply.old.items
        result session.new reply.new.items }
    ensures cost { IsPaid filter_view session.old (meaning command.now) steps.old steps.new }
    ensures are_true { HasTrueRuns session.new }
{
    perform_through(session, command, reply, steps)
}

/// Performs a command by a session through a filter.
fn perform_through<M: Moves, L: Ledger>(
    session: &mut Through<M>,
    command: &Command,
    reply: &mut Vec<u8>,
    steps: &mut Steps<L>,
) -> Result<(), AllocError>
    ensures replies { Performs filter_view session.old (meaning command.now) reply.old.items
        result session.new reply.new.items }
    ensures cost { IsPaid filter_view session.old (meaning command.now) steps.old steps.new }
    ensures are_true { HasTrueRuns session.new }
{
    let performed = perform_by(session, command, reply, steps);
    session.runs_are_true();
    performed
}
