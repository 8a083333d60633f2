//! What a handle holds.
use crate::desk::Desk;
use crate::filter_desk::FilterDesk;
use crate::scan_desk::ScanDesk;
use crate::shared::SharedTable;
use crate::tally_desk::TallyDesk;
use rbbi_props::PropTable;

/// What a handle holds.
#[derive(Drop)]
pub enum Held {
    /// Property files that were read.
    Properties(PropTable),
    /// A table.
    Table(SharedTable),
    /// A session.
    Session(Desk),
    /// A session through a filter.
    Filtered(FilterDesk),
    /// A tally.
    Tally(TallyDesk),
    /// A scan of a text that is fed.
    Scan(ScanDesk),
}
