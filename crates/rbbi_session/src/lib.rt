//! Sessions: questions about the boundaries of a text, and edits of it.
//!
//! A [`Session`] has a table, a text and a cursor that stands at a boundary. It answers each
//! question as one scan of the whole text, as it stands at that moment, gives it. A
//! [`UnitSession`] does so with places that count a unit. What any kind of session does is a
//! [`Walk`].
#![tactic(auto)]

mod boundary;
mod holds;
mod in_unit;
mod in_unit_questions;
mod in_unit_walk;
mod kept;
mod known;
mod session;
mod session_walk;
mod statuses;
mod stretch;
mod unit_error;
mod walk;

pub use boundary::Boundary;
pub use holds::Holds;
pub use in_unit::{InUnit, UnitSession, UnitSessionBy};
pub use kept::character_count;
pub use session::{Session, SessionBy};
pub use statuses::greatest;
pub use unit_error::UnitEditErr;
pub use walk::{ByCharacters, Walk};
