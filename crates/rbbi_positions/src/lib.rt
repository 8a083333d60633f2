//! Positions: the leaves of the active rules, numbered over all rules, and which of them may follow
//! which (follow positions; McNaughton and Yamada 1960, Glushkov 1961).
#![tactic(auto)]

mod count;
mod empty;
mod firsts;
mod followers;
mod from_rules;
mod lasts;
mod laws;
mod marks;
mod numbers;
mod readers;
mod row_union;
mod rule_mark;
mod rule_marks;
mod rules;

pub use from_rules::positions;
pub use laws::{
    front_walks_are_spelled, fronts_are_exchanged, prefixes_are_walks, spelled_are_exchanged,
    spelled_are_of_the_rule, spelled_are_walks,
};
pub use marks::Positions;
