//! Tests of texts, files, rows of bits and sets, by public calls: nothing but tests.
//!
//! A crate with tests of its own is proved twice, so those of these crates stand here.
#![tactic(auto)]

#[cfg(test)]
mod bit_rows;
#[cfg(test)]
mod classes;
#[cfg(test)]
mod code_sets;
#[cfg(test)]
mod files_and_sinks;
#[cfg(test)]
mod ranges;
#[cfg(test)]
mod texts;
