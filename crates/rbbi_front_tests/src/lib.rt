//! Tests of the way from a rule file to positions, and of the properties that are built in, by
//! public calls: nothing but tests.
//!
//! A crate with tests of its own is proved twice, so those of these crates stand here.
#![tactic(auto)]

#[cfg(test)]
mod built_in;
#[cfg(test)]
mod categories;
#[cfg(test)]
mod forms;
#[cfg(test)]
mod leaf_positions;
#[cfg(test)]
mod properties;
#[cfg(test)]
mod resolved;
#[cfg(test)]
mod rules;
#[cfg(test)]
mod tokens;
#[cfg(test)]
mod trees;
