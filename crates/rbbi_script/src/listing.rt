//! Replies that list all boundaries or all characters of a text.
ghost use Rattle.std.specs.Prelude.{◌≡◌, length};
ghost use Rattle.rbbi_model.specs.Answers.{Breaks, Characters};
ghost use Rattle.rbbi_model.specs.Scripts.{Ask};
ghost use Rattle.rbbi_model.specs.Lines.{escaped, reply_lines, boundary_lines};
ghost use Rattle.rbbi_session.specs.Walks.{kind_of, reported, nexts_cost};
ghost use Rattle.rbbi_text.specs.Appending.{Appends};
ghost use Rattle.rbbi_text.specs.Steps.{RisesUpTo};
ghost use Rattle.rbbi_script.specs.Performing.{Performs};
ghost use Rattle.rbbi_script.specs.Reading.{IsPaid, Lists};
ghost use Rattle.rbbi_script.specs.inner.Reading.{IsSameText, ListsNexts};

use crate::statuses::say_bound;
use rbbi_session::Walk;
use rbbi_text::{Chars, Steps, append};
use std::alloc::AllocError;
use std::sync::ledger::Ledger;

/// Appends a line for each boundary, and leaves the cursor where it was.
pub(crate) fn say_boundaries<S: Walk, L: Ledger>(
    session: &mut S,
    reply: &mut Vec<u8>,
    steps: &mut Steps<L>,
) -> Result<(), AllocError>
    ensures replies { Performs S.view session.old (Ask Breaks) reply.old.items
        result session.new reply.new.items }
    ensures cost { IsPaid S.view session.old (Ask Breaks) steps.old steps.new }
    ensures lists { Lists S.view session.old result session.new steps.old steps.new }
{
    S::laws();
    let cursor = session.current();
    let said = say_each(session, reply, steps);
    session.is_boundary(cursor, steps);
    said
}

/// Goes from boundary to boundary, and appends a line for each.
fn say_each<S: Walk, L: Ledger>(
    session: &mut S,
    reply: &mut Vec<u8>,
    steps: &mut Steps<L>,
) -> Result<(), AllocError>
    ensures lines { Appends reply.old.items (boundary_lines (reported S.view session.old))
        result reply.new.items }
    ensures same { IsSameText S.view session.old session.new }
    ensures cost { RisesUpTo (nexts_cost (kind_of S.view session.old)
        (S.view.state session.old).text (reported S.view session.old)) steps.old steps.new }
    ensures lists { ListsNexts S.view session.old result session.new steps.old steps.new }
{
    S::laws();
    let mut place = Some(session.first());
    while let Some(at) = place {
        say_bound(at, session.status_list(), reply)?;
        place = session.next(steps);
    }
    Ok(())
}

/// Appends the characters of a text, with `\n`, `\r`, `\t` and `\\` for LF, CR, tab and `\`, and
/// LF.
pub(crate) fn say_text<T: Chars, L: Ledger>(
    text: &T,
    reply: &mut Vec<u8>,
    steps: &mut Steps<L>,
) -> Result<(), AllocError>
    ensures replies { Appends reply.old.items (reply_lines (Characters (T.characters text.now)))
        result reply.new.items }
    ensures cost { RisesUpTo (length (T.characters text.now)) steps.old steps.new }
{
    for i in 0..text.len() {
        say_character(text.char_at(i, steps), reply)?;
    }
    append(b"\n", reply)
}

/// Appends a character in UTF-8, or the escape of it.
fn say_character(c: char, reply: &mut Vec<u8>) -> Result<(), AllocError>
    ensures { Appends reply.old.items (escaped c) result reply.new.items }
{
    if c == '\n' {
        return append(b"\\n", reply);
    }
    if c == '\r' {
        return append(b"\\r", reply);
    }
    if c == '\t' {
        return append(b"\\t", reply);
    }
    if c == '\\' {
        return append(b"\\\\", reply);
    }
    let mut bytes = [0; 4];
    append(c.encode_utf8(&mut bytes).as_bytes(), reply)
}
