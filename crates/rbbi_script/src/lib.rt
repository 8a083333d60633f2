//! Scripts of questions and edits, and the lines of their replies.
//!
//! [`read_script`] takes the bytes of a script as its commands, or reports the first bad line.
//! [`say`] appends a reply of one line, [`say_list`] the line of a list of statuses, and
//! [`say_bound`] that of a boundary. [`perform`] has a session perform a command and appends its
//! reply, and [`perform_by`] a session of any kind.
#![tactic(auto)]

mod command;
mod escape;
mod laws;
mod line;
mod listing;
mod performing;
mod pieces;
mod question;
mod reader;
mod saying;
mod statuses;

pub use command::{Command, Commands};
pub use laws::one_script;
pub use performing::{perform, perform_by};
pub use reader::{ScriptErr, is_skipped, read_script};
pub use saying::{Said, say};
pub use statuses::{LineEnd, say_bound, say_list};
