//! Line breaks by UAX #14: a plain program that follows the definition.

mod items;
mod rules;
mod texts;

pub use rules::Verdict;
pub use texts::line_verdicts;
