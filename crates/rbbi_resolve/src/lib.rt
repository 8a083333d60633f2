//! The rules that the statements of a rule file mean, with the sets of their leaves, or the first
//! fault of the file.
#![tactic(auto)]

mod active;
mod build;
mod check;
mod classes;
mod collect;
mod collection;
mod context;
mod counts;
mod definition;
mod division;
mod error;
mod fault;
mod file;
mod laws;
mod leaves;
mod outcome;
mod properties;
mod question;
mod rule;
mod rules;
mod set_value;
mod summary;
mod switches;
mod tree;
mod variables;

pub use error::ResolveErr;
pub use laws::{
    at_most_one_meaning, empty_fronts_spell_the_empty_word, empty_sets_hold_no_character,
    meaning_excludes_faults, meaning_is_lawful, meaning_or_fault, the_earliest_is_noted,
};
pub use outcome::resolve;
pub use rules::{Rule, Rules, SetList, Tree, Trees};
