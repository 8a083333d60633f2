//! The top call of `rbbi`: from the arguments to the bytes that are written.
//!
//! A run goes through stages, each of which passes or refuses: the words, the files that they name,
//! and then what the command makes of them. `rbbi_command` has what a command is, `command` one
//! function for each.
#![tactic(auto)]

mod boundaries;
mod command;
mod emission;
mod filters;
mod laws;
mod line_ends;
mod prepare;
mod prepared;
mod program;
mod properties;
mod replies;
mod rules;
mod scripts;
mod tables;
mod tallying;
mod texts;

pub use laws::{files_tell_marks, outcomes_are_unique};
pub use program::{rbbi, rbbi_in_memory};
