//! The engine with a C interface.
#![tactic(auto)]

mod answering;
mod asking;
mod bounds;
mod changing;
mod codes;
mod compiling;
mod copying;
mod desk;
mod faults;
mod feeding;
mod filter_asking;
mod filter_desk;
mod filter_lending;
mod filters;
mod forking;
mod greatest;
mod handle;
mod held;
mod lending;
mod listing;
mod loading;
mod loose;
mod named;
mod opening;
mod part;
mod questions;
mod ranges;
mod reading;
mod rules;
mod scan_desk;
mod scanning;
mod segment;
mod sessions;
mod shared;
mod span;
mod stretch;
mod tables;
mod tally_desk;
mod tallying;
mod wide;

pub use changing::{Changed, rbbi_c_replace_changed};
pub use faults::Fault;
pub use feeding::{rbbi_c_scan_feed, rbbi_c_scan_feed_utf16, rbbi_c_scan_next, rbbi_c_scan_open};
pub use filters::{rbbi_c_suppress, rbbi_c_tailor};
pub use forking::rbbi_c_fork;
pub use handle::Handle;
pub use named::rbbi_c_table_named;
pub use questions::{
    rbbi_c_current, rbbi_c_first, rbbi_c_following, rbbi_c_is_boundary, rbbi_c_last, rbbi_c_next,
    rbbi_c_preceding, rbbi_c_previous, rbbi_c_status,
};
pub use ranges::{rbbi_c_boundaries, rbbi_c_boundaries_before, rbbi_c_part, rbbi_c_segment};
pub use rules::{rbbi_c_properties, rbbi_c_properties_add, rbbi_c_table_compile};
pub use scanning::{Given, rbbi_c_breaks, rbbi_c_breaks_utf16, rbbi_c_words, rbbi_c_words_utf16};
pub use segment::Segment;
pub use sessions::{rbbi_c_close, rbbi_c_length, rbbi_c_open, rbbi_c_replace, rbbi_c_statuses};
pub use tables::{rbbi_c_table_load, rbbi_c_table_share, rbbi_c_table_write};
pub use tallying::{
    rbbi_c_tally_count, rbbi_c_tally_each, rbbi_c_tally_open, rbbi_c_tally_replace,
    rbbi_c_tally_segments,
};
pub use wide::{rbbi_c_open_utf16, rbbi_c_replace_utf16};
