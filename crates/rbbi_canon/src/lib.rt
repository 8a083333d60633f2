//! Canonical tables, one for all with the same marks after every word, and how two tables differ.
#![tactic(auto)]

mod canonize;
mod categories;
mod columns;
mod compare;
mod grid;
mod laws;
mod letters;
mod numbering;
mod pairs;
mod slashes;
mod union_find;
mod walk;

pub use canonize::canonical;
pub use compare::differ;
pub use laws::canonical_tables_tell_marks;
