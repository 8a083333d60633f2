//! Trials of the incremental engine: nothing but tests.
//!
//! Tables come from the text of rules, through all stages. Sessions are asked and edited over a
//! text that counts its reads, and each reply is held against that of a scan of the whole text, and
//! the reads of each command against its cost.
#![tactic(auto)]

#[cfg(test)]
mod costs;
#[cfg(test)]
mod counted;
#[cfg(test)]
mod counts;
#[cfg(test)]
mod draws;
#[cfg(test)]
mod filters;
#[cfg(test)]
mod kept;
#[cfg(test)]
mod questions;
#[cfg(test)]
mod random;
#[cfg(test)]
mod rescans;
#[cfg(test)]
mod searches;
#[cfg(test)]
mod tables;
#[cfg(test)]
mod worked;
