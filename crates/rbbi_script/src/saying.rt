//! Replies of one line.
ghost use Rattle.std.specs.Prelude.{◌++◌, ◌∷◌, [], decimal};
ghost use Rattle.rbbi_model.specs.Lines.{reply_lines};
ghost use Rattle.rbbi_text.specs.Appending.{Appends};
ghost use Rattle.rbbi_script.specs.Saying.{reply_of};

use rbbi_text::{append, append_number};
use std::alloc::AllocError;

/// A reply of one line.
#[derive(Drop)]
pub enum Said {
    /// The place.
    Place(u32),
    /// No such boundary.
    Done,
    /// A boundary.
    Yes,
    /// No boundary.
    No,
    /// The number.
    Number(u32),
    /// The new length after an edit.
    Edited(u32),
    /// An edit past the end of the text.
    Outside,
    /// An edit that begins or ends within a character.
    Inside,
    /// An edit that would make the text too long.
    TooLong,
}

/// Appends a number and the end of the line, or a prefix of these where memory runs out.
fn say_number(number: u32, reply: &mut Vec<u8>) -> Result<(), AllocError>
    ensures { Appends reply.old.items (decimal number ++ 10 ∷ []) result reply.new.items }
{
    append_number(number, reply)?;
    append(b"\n", reply)
}

/// Appends the line of a reply to a script: the place or number in decimal, `done`, `yes`, `no`,
/// `ok` and the new length, `outside`, `inside` or `toolong`, and LF. After the refusal a prefix of
/// the line was appended.
pub fn say(said: Said, reply: &mut Vec<u8>) -> Result<(), AllocError>
    ensures { Appends reply.old.items (reply_lines (reply_of said)) result reply.new.items }
{
    match said {
        Said::Place(place) => say_number(place, reply),
        Said::Done => append(b"done\n", reply),
        Said::Yes => append(b"yes\n", reply),
        Said::No => append(b"no\n", reply),
        Said::Number(number) => say_number(number, reply),
        Said::Edited(length) => {
            append(b"ok ", reply)?;
            say_number(length, reply)
        }
        Said::Outside => append(b"outside\n", reply),
        Said::Inside => append(b"inside\n", reply),
        Said::TooLong => append(b"toolong\n", reply),
    }
}
