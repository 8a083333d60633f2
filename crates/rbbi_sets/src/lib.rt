//! Sets of code points, as ranges that rise and neither overlap nor touch.
#![tactic(auto)]

mod join;
mod laws;
mod range;
mod set;
mod sweep;

pub use laws::members_determine;
pub use range::CodeRange;
pub use set::CodeSet;
