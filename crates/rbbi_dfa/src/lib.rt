//! From the positions of the rules to the least table with their marks.
#![tactic(auto)]

mod automaton;
mod compile;
mod determinize;
mod error;
mod laws;
mod minimize;
mod table;

pub use compile::build;
pub use error::BuildErr;
pub use laws::{compiled_tables_have_canonical, rows_are_needed};
