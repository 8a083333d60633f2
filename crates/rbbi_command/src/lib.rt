//! What a command of `rbbi` is: the arguments that ask for it, the files that it reads, why it ends
//! without an output, and how its output is written. No compiler and no engine is known here.
//!
//! `words` has the commands, their options and their operands as data, `files` the limits of what
//! is read, `refusal` all that ends a run, and `delivery` writes the output of a command.
#![tactic(auto)]

mod delivery;
mod files;
mod inputs;
mod name;
mod output;
mod refusal;
mod words;

pub use delivery::deliver;
pub use files::{Role, Source, sources_of};
pub use inputs::{Input, Inputs, read_all};
pub use name::Name;
pub use output::{Output, Written};
pub use refusal::{Place, Refusal, Subject, fault, file_fault, place_in};
pub use words::{Command, FilterKind, Operand, Options, Property, Request, count_of, request_of};
