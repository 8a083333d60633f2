//! Boundaries of a text that nobody edits, by a table.
//!
//! A text stands in memory as bytes of UTF-8 or as units of UTF-16. Nothing of it is copied but a
//! window of decoded characters, in which boundaries are searched.
#![tactic(auto)]

mod breaks;
mod feeding;
mod filling;
mod greatest;
mod reached;
mod scanner;
mod scanning;
mod source;
mod units;
mod utf16;
mod utf8;
mod window;

pub use breaks::{breaks_utf8, breaks_utf16, words_utf8, words_utf16};
pub use feeding::NotFed;
pub use reached::{Reached, Stop};
pub use scanner::Scanner;
