//! The result of a demonstration.

/// The result of a demonstration.
#[derive(Clone, Copy)]
pub struct Summary {
    /// The length of the last text, in characters.
    pub chars: u32,
    /// The number of edits.
    pub edits: u32,
    /// The number of boundaries of the last text.
    pub boundaries: u64,
    /// The sum of the places that were answered.
    pub sum: u64,
}
