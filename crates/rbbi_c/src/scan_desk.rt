//! A text that is fed piece by piece with its table, as a handle holds it.
use crate::shared::SharedTable;
use rbbi_scan::Scanner;

/// A scanner that shares its table with others, and so may be kept by C.
#[derive(Drop)]
pub struct ScanDesk {
    /// The table.
    pub(crate) table: SharedTable,
    /// What was fed of the text.
    pub(crate) scanner: Scanner,
}
