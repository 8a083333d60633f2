//! Sessions through a filter: abbreviations after which no boundary is reported, or pairs by which
//! characters are turned before boundaries are looked for.
//!
//! [`Abbreviations`] are read from a file, a line each. A [`Filtered`] answers as a session does,
//! but leaves out each boundary before which one of them stands. A [`Tailoring`] is read from a
//! file of pairs. A [`Mapped`] is a text with its characters turned, and a [`Tailored`] answers as
//! a session over that does.
#![tactic(auto)]

mod abbreviation;
mod closures;
mod filter;
mod filtered;
mod laws;
mod lists;
mod mapped;
mod maps;
mod moves;
mod pair;
mod performing;
mod seen;
mod stretch;
mod tailored;
mod tailoring;
mod through;
mod trail;
mod window;

pub use abbreviation::{AbbrErr, Abbreviations};
pub use closures::{CharMap, Predicate};
pub use filter::Filter;
pub use filtered::{Filtered, Suppressed};
pub use laws::{one_abbreviations, one_tailoring, turned_splices};
pub use lists::{AnswersFor, Lists};
pub use mapped::Mapped;
pub use maps::{Maps, TurnsBy};
pub use moves::Moves;
pub use pair::Pair;
pub use performing::{perform_filtered, perform_tailored};
pub use tailored::{Tailored, Turned};
pub use tailoring::{TailorErr, Tailoring};
pub use through::{Through, UnitThrough};
