//! What each command answers, from what was read.

mod check;
mod compile;
mod conform;
mod demo;
mod lines;
mod same;

pub(crate) use check::check;
pub(crate) use compile::{compile, upgrade};
pub(crate) use conform::conform;
pub(crate) use demo::demo;
pub(crate) use lines::{breaks, run, tally};
pub(crate) use same::same;
