//! Conformance tests: texts whose places are marked as boundaries or not, and the verdict on one.
//!
//! [`read_tests`] reads the tests of a test file, or reports its first bad line. [`judge`] finds
//! the first place at which a table and a test differ.
#![tactic(auto)]

mod laws;
mod line;
mod reader;
mod test;
mod verdict;

pub use laws::{one_tests, one_verdict};
pub use reader::{TestErr, read_tests};
pub use test::{Test, Tests};
pub use verdict::{Verdict, judge};
