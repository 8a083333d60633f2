//! The partition of the code points by given sets, and sets as rows of bits over its classes.
#![tactic(auto)]

mod character;
mod chunks;
mod class_members;
mod class_set;
mod class_shelf;
mod division;
mod layout;
mod operation;
mod pairs;
mod steps;
mod word_row;

pub use character::is_character;
pub use class_set::ClassSet;
pub use class_shelf::ClassShelf;
pub use division::Division;
pub use layout::Layout;
pub use steps::Step;
