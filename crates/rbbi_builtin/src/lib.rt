//! The properties that rules may ask for without a file: their names and values, and the code
//! points that have them.
#![tactic(auto)]

mod compile;
mod fill;
mod names;
mod near;
mod property;

pub use compile::compile_over;
pub use fill::add_asked_for;
pub use near::{Advice, Unknown, advice_at};
pub use property::{Property, property_named};
use ucd_table::UNICODE_VERSION;

/// The version of Unicode whose properties are built in.
pub const VERSION: &str = "18.0";

const _: () = prove!(UNICODE_VERSION.0 == 18 && UNICODE_VERSION.1 == 0);
