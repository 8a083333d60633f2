//! Tests of tables by public calls: nothing but tests.
//!
//! A crate with tests of its own is proved twice, so those of `rbbi_table` stand here.
#![tactic(auto)]

#[cfg(test)]
mod samples;
#[cfg(test)]
mod tables;
