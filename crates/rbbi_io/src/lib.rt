//! Files and sinks: where bytes come from and go to, with counts of the faults that they had; and
//! the command-line arguments.
//!
//! A refusal for a fault is tied to a count, so that no code above can invent one.
#![tactic(auto)]

mod calm_files;
mod calm_sink;
mod command_line;
mod draft;
mod error;
mod files;
mod mem_files;
mod mem_sink;
mod named_files;
mod real_draft;
mod real_files;
mod real_sink;
mod sink;

pub use calm_files::CalmFiles;
pub use calm_sink::CalmSink;
pub use command_line::words;
pub use error::{ReadErr, WriteErr};
pub use files::Files;
pub use mem_files::MemFiles;
pub use mem_sink::MemSink;
pub use real_files::{RealFiles, read_at_most};
pub use real_sink::RealSink;
pub use sink::{Sink, put_all, put_when_full};
