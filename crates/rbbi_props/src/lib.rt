//! Property files that a caller passes, and what the name and value of a property stand for.
#![tactic(auto)]

mod common;
mod error;
mod file;
mod loose;
mod row;
mod run_file;
mod runs;
mod single;
mod table;
mod text;

pub use common::{are_alike, push_common_form};
pub use error::PropErr;
pub use run_file::has_loose_name;
pub use table::PropTable;
