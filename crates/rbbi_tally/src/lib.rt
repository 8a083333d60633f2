//! Counts of the segments of a text by their status, kept while the text is edited.
//!
//! A [`Tally`] has a table and a text. It keeps each boundary and searches again only what an edit
//! touches.
#![tactic(auto)]

mod commit;
mod counts;
mod edit;
mod keeping;
mod kept;
mod open;
mod piece;
mod search;
mod spot;
mod tally;

pub use counts::{Counts, ValueCount};
pub use tally::{Tally, TallyBy};
