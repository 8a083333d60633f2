//! Table files of both versions: a table as bytes, and back.
#![tactic(auto)]

mod cells;
mod error;
mod laws;
mod numbers;
mod parts;
mod read;
mod write;

pub use error::FileErr;
pub use laws::{one_answer, spellings_tell_the_table};
pub use read::read_table;
pub use write::write_table;

/// The first eight bytes of a table file of version 1: a name and the version.
pub(crate) const MAGIC_1: [u8; 8] = *b"RBBITBL\x01";

/// The first eight bytes of a table file of version 2.
pub(crate) const MAGIC_2: [u8; 8] = *b"RBBITBL\x02";
