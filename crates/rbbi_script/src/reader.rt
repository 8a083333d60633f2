//! The commands of a script.
ghost use Rattle.std.specs.Prelude.{◌≤◌, length, map, IfOk, IsTrue, ◌↔◌};
ghost use Rattle.std.specs.List.{AllByRecursion};
ghost use Rattle.rbbi_model.specs.Scripts.{InsertsText};
ghost use Rattle.rbbi_text.specs.Bytes.{most_bytes};
ghost use Rattle.rbbi_script.specs.Meaning.{meaning};
ghost use Rattle.rbbi_script.specs.Grammar.{IsSkipped};
ghost use Rattle.rbbi_script.specs.Files.{ReadsScript};

use crate::command::{Command, Commands};
use crate::line::command_of;
use rbbi_text::{Line, LineValue, LinesErr, read_lines};
use std::alloc::{AllocError, Global};

/// Why a script is refused: `BadLine` has the first line that is neither skipped nor a command.
pub type ScriptErr = LinesErr;

/// The commands of a script.
///
/// What the commands insert is characters. The bytes are at most 100,663,296. One U+FEFF at their
/// start isn't part of the script. A line ends at LF, and one CR before it isn't part of the line.
/// An empty line and one that begins with `#` are skipped. Every other line is one of these, with
/// exactly one space where one is shown:
///
/// - `first`, `last`, `next`, `previous`, `current`, `status`, `statuses`, `breaks`, `text`;
/// - `following N`, `preceding N`, `is N`;
/// - `insert AT TEXT`, `delete AT REMOVE`, `replace AT REMOVE TEXT`.
///
/// A number has one digit or more and is at most 4,294,967,295. TEXT is all that follows the space,
/// and may be empty. In it `\n`, `\r`, `\t`, `\\` and `\u{H..}`, of one to six hexadecimal digits
/// of a character, are escapes, and any other `\` makes the line bad.
///
/// Refuses `NotUtf8` with the first byte past the longest valid prefix, `BadLine` with the first
/// line that is neither skipped nor of these forms, and `Memory`.
pub fn read_script(alloc: Global, bytes: &[u8]) -> Result<Commands, ScriptErr>
    requires { length bytes.now ≤ most_bytes }
    ensures script { ReadsScript bytes.now result }
    ensures inserts { IfOk result (λ commands.
        AllByRecursion InsertsText (map meaning commands)) }
{
    read_lines(alloc, bytes)
}

impl LineValue for Command {
    ghost use Rattle.rbbi_script.specs.Files.{IsScriptLine};

    ghost IsLine = { IsScriptLine };

    fn from_line(alloc: Global, line: &str, _number: u32) -> Result<Line<Command>, AllocError> {
        if is_skipped(line) {
            return Ok(Line::Skipped);
        }
        let Some(command) = command_of(alloc, line)? else {
            return Ok(Line::Bad);
        };
        command.inserts_text();
        Ok(Line::Writes(command))
    }
}

/// Whether a line of a script or of a list is skipped: it is empty or begins with `#`.
pub fn is_skipped(line: &str) -> bool
    ensures { IsTrue result ↔ IsSkipped line.now }
{
    match line.as_bytes() {
        [] => true,
        [first, ..] => *first == b'#',
    }
}
