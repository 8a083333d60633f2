//! The syntax trees of rule files, and the parser that builds them from tokens.
#![tactic(auto)]

mod copies;
mod error;
mod file;
mod laws;
mod lean;
mod level;
mod parser;
mod set_level;
mod syntax;

pub use error::TreeErr;
pub use file::parse;
pub use laws::{
    at_most_one_deep, at_most_one_fault, at_most_one_reading, at_most_one_refusal,
    file_excludes_fault, file_or_fault,
};
pub use syntax::{
    Atom, Expr, Item, Join, Parts, Quant, Seq, SetExpr, SetItem, SetPart, Statement, Statements,
};
