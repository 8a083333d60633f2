//! What an edit changed among the boundaries of a text: the least range outside of which they are
//! the old ones.
//!
//! Old and new text are searched side by side, from a boundary before the edit that it can't
//! have changed, until they meet again after it.
#![tactic(auto)]

mod before;
mod change;
mod meet;
mod part;
mod quiet;
mod reached;

pub use before::Before;
pub use change::{Change, Edit, changed};
