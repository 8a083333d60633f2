//! From the text of a rule file to its rules and to their table.
//!
//! The tokens, the grammar and the meaning of the text come one after another, then the categories
//! and the least table. The first fault ends the way: `CompileErr` has its name and its place.
#![tactic(auto)]

mod error;
mod laws;
mod rules;
mod table;

pub use error::CompileErr;
pub use laws::one_table_or_fault;
pub use rules::{read_rules, rule_text};
pub use table::compile;
