//! Tables: what a compiled list of break rules is when it runs, and one search in it.
//!
//! A [`Table`] is made of its [`Parts`] and is always valid. [`Table::next`] finds the next
//! boundary and reads each character once.
#![tactic(auto)]

mod bits;
mod blocks;
mod checks;
mod error;
mod front_places;
mod fronts;
mod gather;
mod kept;
mod kinds;
mod limits;
mod list;
mod lists;
mod moves;
mod parts;
mod ranges;
mod read_search;
mod rows;
mod safe;
mod search;
mod short;
mod short_search;
mod table;

pub use blocks::Blocks;
pub use error::TableErr;
pub use front_places::FrontPlaces;
pub use list::{ByteList, CellList, NumberList, NumberLists, PartList, RangeList, RowList};
pub use parts::{Parts, RangeRow, RowHead};
pub use read_search::ShortTable;
pub use safe::safe_pairs;
pub use search::Found;
pub use table::Table;
