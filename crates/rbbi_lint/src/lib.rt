//! What a rule file has that changes nothing: rules, alternatives and parts of sets that can
//! be left out, variables that no rule uses, rules that can match the empty text, and statuses that
//! are never shown. And what it has that likely means something else than was meant.
#![tactic(auto)]

mod blank;
mod cuts;
mod effect;
mod empty;
mod finder;
mod findings;
mod habits;
mod level;
mod piece;
mod statements;
mod together;

pub use effect::{Effect, effect_of};
pub use findings::{Findings, lint, pieces};
pub use habits::{Found, Habit};
pub use piece::{Part, Piece};
pub use together::{Hidden, Pair};
