//! An edit of a text.

/// An edit, in characters: so many are inserted in place of those removed at a place.
#[derive(Clone, Copy)]
pub(crate) struct Edit {
    pub(crate) at: u32,
    pub(crate) removed: u32,
    pub(crate) inserted: u32,
}
