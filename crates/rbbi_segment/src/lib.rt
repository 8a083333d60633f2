//! The program `segment`, for people: the graphemes, words, sentences or lines of a text.
//!
//! `arguments` reads the arguments, `program` goes through a run, `segments` hands the segments
//! over, and `quoted`, `marked`, `wrapped` and `tally` have what each format makes of them.
#![tactic(auto)]

mod abbreviations;
mod arguments;
mod basis;
mod colors;
mod escapes;
mod explaining;
mod failure;
mod fault_texts;
mod faults;
mod filters;
mod hints;
mod line_ends;
mod linting;
mod marked;
mod missing;
mod named;
mod numbers;
mod only;
mod options;
mod program;
mod quoted;
mod reading;
mod rules;
mod segments;
mod source;
mod streaming;
mod system;
mod tally;
mod unknown;
mod variables;
mod wrapped;

pub use colors::Surroundings;
pub use program::{CommandLine, segment};
pub use streaming::Sizes;
pub use system::System;
