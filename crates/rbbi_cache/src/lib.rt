//! A cache of boundaries, which answers questions on one text and outlives its edits.
#![tactic(auto)]

mod anchors;
mod back;
mod boxed;
mod cache;
mod edited;
mod entry;
mod extended;
mod parts;
mod reading_back;
mod run;
mod run_list;
mod runs;
mod scan;
mod search;
mod search_back;
mod shown;
mod single;
mod wide;

pub use anchors::anchor_before;
pub use boxed::MOST_ENTRIES;
pub use cache::Cache;
pub use entry::Entry;
pub use run::Run;
