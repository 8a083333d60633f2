//! All segments of a text.
ghost use Rattle.std.specs.Prelude.{◌≡◌, ◌+◌, ◌≤◌, ◌<◌, ◌++◌, [], ℕ, length, IfOk, OnErr, slice_index};
ghost use Rattle.rbbi_model.specs.Words.{most_characters};
ghost use Rattle.rbbi_text.specs.Steps.{RisesUpTo};
ghost use Rattle.rbbi_tally.specs.Costs.{opening_cost};
ghost use Rattle.rbbi_tally.specs.inner.Segments.{AreSegments};
ghost use Rattle.rbbi_tally.specs.inner.Pieces.{segments_in, IsPiece};
ghost use Rattle.rbbi_tally.specs.inner.Counting.{IsRecounted};
ghost use Rattle.rbbi_tally.specs.inner.Tallied.{IsTallied};
ghost use Rattle.rbbi_tally.specs.inner.Opening.{FillsPiece};

use crate::piece::{FILLED, FULL, Piece};
use crate::search::search_from;
use rbbi_table::{FrontPlaces, Table};
use rbbi_text::{Chars, Steps};
use std::alloc::{AllocError, Global};
use std::sync::ledger::Ledger;

/// The segments of a text by pieces, how many have each status list, and scratch space of searches.
#[derive(Drop)]
pub(crate) struct Opened {
    pub(crate) pieces: Vec<Piece>,
    pub(crate) counts: Vec<u32>,
    pub(crate) marks: FrontPlaces,
}

/// Searches from a boundary on, until a piece is filled or the text ends. It gives the piece and
/// the boundary after it.
fn fill<T: Chars, L: Ledger>(
    alloc: Global,
    table: &Table,
    text: &T,
    start: u32,
    counts: &mut [u32],
    marks: &mut FrontPlaces,
    steps: &mut Steps<L>,
) -> Result<(Piece, u32), AllocError>
    requires within { start < length (T.characters text.now) }
    requires fit { marks.old ≡ table.now.slashes }
    requires lists { length counts.old ≡ length table.now.lists }
    requires few { (list : ℕ) → list < length counts.old →
        slice_index counts.old list ≤ start }
    ensures filled { IfOk result (λ filled. FillsPiece table.now (T.characters text.now) start
        filled.0 filled.1 counts.old counts.new steps.old steps.new) }
    ensures err { OnErr result (steps.new ≡ steps.old) }
    ensures fit { marks.new ≡ marks.old }
{
    let len = text.len();
    let mut items = Vec::with_capacity(alloc, FULL)?;
    let mut place = start;
    while place < len && items.len() < FILLED {
        place = search_from(table, text, place, start, &mut items, counts, marks, steps);
    }
    Ok((Piece::new(start, items), place))
}

/// Searches from each boundary of the text.
pub(crate) fn segments_of<T: Chars, L: Ledger>(
    alloc: Global,
    table: &Table,
    text: &T,
    steps: &mut Steps<L>,
) -> Result<Opened, AllocError>
    ensures opened { IfOk result (λ opened. IsTallied table.now (T.characters text.now)
        opened.pieces.items opened.counts.items opened.marks) }
    ensures reads { RisesUpTo (opening_cost table.now (T.characters text.now))
        steps.old steps.new }
{
    let len = text.len();
    let mut marks = FrontPlaces::new(alloc, table)?;
    let mut counts = vec![in alloc; 0; table.lists() as usize]?;
    let mut pieces = Vec::new(alloc);
    let mut place = 0;
    while place < len {
        let filled = fill(alloc, table, text, place, &mut counts, &mut marks, steps)?;
        pieces.push(filled.0)?;
        place = filled.1;
    }
    Ok(Opened {
        pieces,
        counts,
        marks,
    })
}
