//! What the command-line arguments ask for.
ghost use Rattle.std.specs.Prelude.{◌≡◌, ℕ, length, MatchBool, MatchOption, map, IfOk};
ghost use Rattle.std.specs.String.{string_bytes};
ghost use Rattle.rbbi_command.specs.Counts.{IsCount};
ghost use Rattle.rbbi_command.specs.Words as spec;
ghost use Rattle.rbbi_command.specs.Words.{Fits, AllFit};
ghost use Rattle.rbbi_command.specs.Requests.{asked_by};

mod command;
mod options;
mod setting;

use command::command_of;
pub use command::{Command, Operand};
pub use options::Options;
use options::{are_taken, options_of};
use rbbi_text::decimal;
pub use setting::{FilterKind, Property};
use setting::{behind, settings_of};
use std::alloc::{AllocError, Global};

/// The most digits of a number of characters.
const MOST_DIGITS: usize = 7;

/// The greatest number of characters.
const MOST_COUNT: u32 = 1_000_000;

/// The number that a word of 1 to 7 digits writes, where it is 1 to 1,000,000.
pub fn count_of(word: &str) -> Option<u32>
    ensures { MatchOption result ((count : ℕ) → ¬ IsCount word.now count) (IsCount word.now) }
{
    if word.len() > MOST_DIGITS {
        return None;
    }
    match decimal(word.as_bytes(), MOST_COUNT) {
        Some(0) | None => None,
        Some(count) => Some(count),
    }
}

/// Whether a word is of an operand's form.
fn is_fit(operand: Operand, word: &str) -> bool
    ensures { MatchBool result (Fits operand word.now) (¬ Fits operand word.now) }
{
    match operand {
        Operand::Read(_) | Operand::Written => true,
        Operand::Count => count_of(word).is_some(),
    }
}

/// Whether each word is of its operand's form.
fn are_fit(operands: &[Operand], words: &[String]) -> bool
    requires { length words.now ≡ length operands.now }
    ensures { MatchBool result (AllFit operands.now (map string_bytes words.now))
        (¬ AllFit operands.now (map string_bytes words.now)) }
{
    for i in 0..operands.len() {
        if !is_fit(operands[i], words[i].as_str()) {
            return false;
        }
    }
    true
}

/// A command, what its options mean, and its operands in order.
#[derive(Drop)]
pub struct Request<'a> {
    pub command: Command,
    pub options: Options,
    pub operands: &'a [String],
}

/// What the arguments ask for, or `None` if they are invalid.
pub fn request_of(alloc: Global, words: &Vec<String>) -> Result<Option<Request<'_>>, AllocError>
    ensures { IfOk result (λ found. MatchOption found
        (spec.AreNoForm (map string_bytes words.now.items))
        (λ request. spec.IsCommandLine (map string_bytes words.now.items) (asked_by request))) }
{
    let Some((first, more)) = words.split_first() else {
        return Ok(None);
    };
    let Some(command) = command_of(first.as_str()) else {
        return Ok(None);
    };
    let Some(settings) = settings_of(alloc, more)? else {
        return Ok(None);
    };
    let operands = behind(more, settings.words);
    if !are_taken(command.takes(), &settings.list) {
        return Ok(None);
    }
    let options = options_of(alloc, settings.list)?;
    if operands.len() != command.operands(options.by_table).len() {
        return Ok(None);
    }
    if !are_fit(command.operands(options.by_table), operands) {
        return Ok(None);
    }
    Ok(Some(Request {
        command,
        options,
        operands,
    }))
}
