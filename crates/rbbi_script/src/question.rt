//! Lines that are no edits.
ghost use Rattle.std.specs.Prelude.{◌≡◌, option_map};
ghost use Rattle.rbbi_script.specs.Meaning.{meaning};
ghost use Rattle.rbbi_script.specs.inner.Readings.{IsOtherOf, named};

use crate::command::Command;
use crate::pieces::after;
use rbbi_text::decimal;

/// The command that a line writes which is no edit.
pub(crate) fn other_of(line: &str) -> Option<Command>
    ensures { IsOtherOf line.now result }
{
    if let Some(digits) = after(line, "following ") {
        return decimal(digits.as_bytes(), u32::MAX).map(Command::Following);
    }
    if let Some(digits) = after(line, "preceding ") {
        return decimal(digits.as_bytes(), u32::MAX).map(Command::Preceding);
    }
    if let Some(digits) = after(line, "is ") {
        return decimal(digits.as_bytes(), u32::MAX).map(Command::Is);
    }
    command_named(line)
}

/// The command of this name.
fn command_named(name: &str) -> Option<Command>
    ensures { option_map meaning result ≡ named name.now }
{
    match name {
        "first" => Some(Command::First),
        "last" => Some(Command::Last),
        "next" => Some(Command::Next),
        "previous" => Some(Command::Previous),
        "current" => Some(Command::Current),
        "status" => Some(Command::Status),
        "statuses" => Some(Command::Statuses),
        "breaks" => Some(Command::Breaks),
        "text" => Some(Command::Text),
        _ => None,
    }
}
