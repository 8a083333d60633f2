//! The demonstration: a session over a text that a generator draws, edited and asked as it draws.
//!
//! [`demo`] makes the text from a number, edits it and asks for boundaries. The same number gives
//! the same [`Summary`] each time.
#![tactic(auto)]

mod demonstration;
mod edit;
mod generator;
mod laws;
mod summary;
mod text;

pub use demonstration::demo;
pub use laws::{summaries_are_unique, table_summaries_are_those_of_the_rules};
pub use summary::Summary;
