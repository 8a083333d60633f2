//! The definitions that the crates of `rbbi` share: what break rules mean, apart from any engine,
//! and what a table is, what a search in it finds, and what is kept and read between questions.
//!
//! They stand in `specs/`, one idea a file. The functions here carry no code: each states a law of
//! those definitions as its contract.
#![tactic(auto)]

mod answers;
mod boundaries;
mod compiled;
mod runs;
mod searches;
mod unit;

ghost use Rattle.std.specs.Prelude.{◌≡◌, ℕ, List};
ghost use Rattle.rbbi_model.specs.Rules.{Rule};
ghost use Rattle.rbbi_model.specs.Boundaries.{Boundary, AreBoundaries};

pub use answers::{replies_are_unique, table_replies_are_those_of_the_rules};
pub use boundaries::boundaries_cover_the_text;
pub use compiled::{marks_are_unique, same_marks_give_the_boundaries};
pub use runs::{anchors_are_stored, anchors_lead_to_the_boundaries};
pub use searches::next_boundary_is_past_the_start;
pub use unit::Unit;

/// A text has at most one list of boundaries by a list of rules.
pub fn boundaries_are_unique()
    ensures { (rules : List Rule) (x : List ℕ) (these those : List Boundary) →
        AreBoundaries rules x these → AreBoundaries rules x those → these ≡ those }
{}
