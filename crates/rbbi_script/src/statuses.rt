//! The lines of statuses and of boundaries.
ghost use Rattle.std.specs.Prelude.{◌≡◌, ◌++◌, decimal, IfOk};
ghost use Rattle.std.specs.List.{flat_map};
ghost use Rattle.rbbi_model.specs.Answers.{AllOf};
ghost use Rattle.rbbi_model.specs.Lines.{joined_statuses, boundary_line, reply_lines};
ghost use Rattle.rbbi_text.specs.Appending.{Appends};
ghost use Rattle.rbbi_script.specs.LineEnds.{line_end};
ghost use Rattle.rbbi_script.specs.inner.Statuses.{next_status};

use rbbi_text::{Counter, append, append_number};
use std::alloc::{AllocError, Global};
use std::marker::Model;

/// Appends a comma and a status in decimal, or a prefix of that where memory runs out.
fn say_next(status: u32, reply: &mut Vec<u8>) -> Result<(), AllocError>
    ensures { Appends reply.old.items (next_status status) result reply.new.items }
{
    append(b",", reply)?;
    append_number(status, reply)
}

/// Appends statuses, each after a comma, or a prefix of that where memory runs out.
fn say_others(statuses: &[u32], reply: &mut Vec<u8>) -> Result<(), AllocError>
    ensures { Appends reply.old.items (flat_map next_status statuses.now) result reply.new.items }
{
    for status in statuses {
        say_next(*status, reply)?;
    }
    Ok(())
}

/// Appends statuses in decimal with commas between, or a prefix of that where memory runs out.
fn say_joined(list: &[u32], reply: &mut Vec<u8>) -> Result<(), AllocError>
    ensures { Appends reply.old.items (joined_statuses list.now) result reply.new.items }
{
    if list.is_empty() {
        return Ok(());
    }
    append_number(list[0], reply)?;
    say_others(&list[1..], reply)
}

/// Appends the line of a list of statuses: the numbers in decimal with commas between, and LF.
/// After the refusal a prefix of the line was appended.
pub fn say_list(list: &[u32], reply: &mut Vec<u8>) -> Result<(), AllocError>
    ensures { Appends reply.old.items (reply_lines (AllOf list.now)) result reply.new.items }
{
    say_joined(list, reply)?;
    append(b"\n", reply)
}

/// Appends the line of a boundary: its place, a space, its statuses with commas between, and LF.
/// After the refusal a prefix of the line was appended.
pub fn say_bound(at: u32, list: &[u32], reply: &mut Vec<u8>) -> Result<(), AllocError>
    ensures { Appends reply.old.items
        (boundary_line (record { at = at; statuses = list.now })) result reply.new.items }
{
    append_number(at, reply)?;
    append(b" ", reply)?;
    say_list(list, reply)
}

/// What follows the place in the line of a boundary: a space, its statuses with commas between, and
/// LF. It is made once for a list that many boundaries have. Contracts see its bytes.
#[derive(Drop)]
pub struct LineEnd {
    bytes: Vec<u8>,
}

impl Model for LineEnd {
    ghost use Rattle.std.specs.Prelude.{List, ℕ};

    ghost Value = { List ℕ };

    ghost view = { λ end. end.bytes.items };
}

impl LineEnd {
    /// What follows the place in the line of a boundary with these statuses.
    pub fn new(alloc: Global, list: &[u32]) -> Result<LineEnd, AllocError>
        ensures { IfOk result (λ end. end ≡ line_end list.now) }
    {
        let mut bytes = Vec::new(alloc);
        append(b" ", &mut bytes)?;
        say_list(list, &mut bytes)?;
        Ok(LineEnd { bytes })
    }

    /// Appends the line of a boundary at a place. After the refusal a prefix of the line was
    /// appended.
    pub fn say(&self, at: &Counter, reply: &mut Vec<u8>) -> Result<(), AllocError>
        ensures { Appends reply.old.items (decimal at.now ++ self.now) result reply.new.items }
    {
        at.append(reply)?;
        append(&self.bytes, reply)
    }
}
