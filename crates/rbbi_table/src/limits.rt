//! The limits of a table.

/// The most categories.
pub(crate) const MOST_CATEGORIES: u16 = 1000;

/// The most status lists.
pub(crate) const MOST_LISTS: usize = 4095;

/// The most numbers in a status list.
pub(crate) const MOST_STATUSES: usize = 4096;

/// The largest status number.
pub(crate) const LARGEST_STATUS: u32 = 2_147_483_647;

/// The most rows.
pub(crate) const MOST_ROWS: usize = 4095;

/// The most look-ahead rules.
pub(crate) const MOST_SLASHES: u16 = 32;

/// The greatest code point.
pub(crate) const LAST_CODE_POINT: u32 = 0x10_FFFF;
