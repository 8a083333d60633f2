//! Sets of small numbers as rows of bits, 64 to a word, the least bit first; and rows of words that
//! are numbered, so that equal ones have one number and are kept once.
#![tactic(auto)]

mod bits;
mod combine;
mod hash;
mod numbered;
mod span;

pub use bits::{has, insert, is_set};
pub use combine::{intersect, meet, meet_within, unite, unite_common, unite_within};
pub use hash::mixed;
pub use numbered::NumberedRows;
pub use span::{Span, span_of};
