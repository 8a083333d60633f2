//! Categories: the classes of code points that the sets of the leaves don't distinguish.
#![tactic(auto)]

mod categories;
mod classes;
mod error;
mod ranges;
mod refine;

pub use categories::{Categories, partition};
pub use classes::MOST_CATEGORIES;
pub use error::CatsErr;
pub use rbbi_table::RangeRow as CatRange;
