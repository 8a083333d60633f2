//! Why a text has a boundary: which rules made a segment, and which part of it each of them took.
//!
//! A table has lost the rules that it was made of. So [`Explainer`] searches by the positions of
//! the rules, and keeps of each that is live which chain of rules came to it.
#![tactic(auto)]

mod chain;
mod explainer;
mod explanation;
mod live;
mod machine;
mod rule_text;
mod search;

pub use explainer::Explainer;
pub use explanation::{Explanation, Origin, Part, Reason};
pub use rule_text::{RuleText, rule_texts};
