//! What a tally keeps.

use crate::kept::Kept;
use crate::piece::Piece;
use rbbi_table::FrontPlaces;
use rbbi_text::EditText;
use std::alloc::Global;

/// What a tally keeps: all but its table.
#[derive(Drop)]
pub(crate) struct Counted<T: EditText> {
    pub(crate) text: T,
    pub(crate) pieces: Vec<Piece>,
    /// How many segments have each status list.
    pub(crate) counts: Vec<u32>,
    /// Scratch space of searches.
    pub(crate) marks: FrontPlaces,
    /// Room for what an edit finds. It is kept from one edit to the next.
    pub(crate) room: Vec<Kept>,
    /// Where the memory of further pieces comes from.
    pub(crate) alloc: Global,
}
