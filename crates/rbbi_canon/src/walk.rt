//! The rows of a canonical table.
ghost use Rattle.std.specs.Prelude.{◌≡◌, ◌<◌, ◌≤◌, ℕ, length, slice_index, IfOk, OnOk};
ghost use Rattle.rbbi_canon.specs.inner.Walks.{CanBeWalked, AreWalked};

use crate::grid::Grid;
use crate::numbering::Numbering;
use std::alloc::{AllocError, Global};

/// The rows of a canonical table.
#[derive(Drop)]
pub(crate) struct Walk {
    /// For each row the one that it was before.
    pub order: Vec<u16>,
    /// The next rows, row after row, one for each category.
    pub cells: Vec<u16>,
}

/// Numbers the rows from 2 on as they are first met, when they are taken by number from row 1 on,
/// each with the categories in order. `firsts` has for each category one of those that are joined
/// in it.
pub(crate) fn walk_rows(alloc: Global, grid: &Grid, firsts: &[u16]) -> Result<Walk, AllocError>
    requires { CanBeWalked grid.now firsts.now }
    ensures { IfOk result (λ walk.
        AreWalked grid.now firsts.now walk.order.items walk.cells.items) }
{
    let mut met = Numbering::new(alloc, grid.rows)?;
    met.place_of(0)?;
    met.place_of(1)?;
    let mut cells = vec![in alloc; 0; firsts.len()]?;
    let mut next = 1;
    'rows: while next < met.order.len() {
        let row = met.order[next] as usize;
        'cells: for first in firsts {
            cells.push(met.place_of(grid.next(row, *first as usize))?)?;
        }
        next += 1;
    }
    let Numbering { order, places: _ } = met;
    Ok(Walk { order, cells })
}
