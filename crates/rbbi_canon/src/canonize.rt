//! The canonical table of a table.
ghost use Rattle.std.specs.Prelude.{◌≡◌, ◌<◌, ℕ, length, slice_index, map, IfOk};
ghost use Rattle.rbbi_model.specs.Tables.{head_of};
ghost use Rattle.rbbi_model.specs.ValidTables.{IsValidTable};
ghost use Rattle.rbbi_model.specs.Canonical.{HasCanonical, IsCanonical};
ghost use Rattle.rbbi_table.specs.Parts.{table_of};
ghost use Rattle.rbbi_canon.specs.inner.Made.{ArePartsOf};
ghost use Rattle.rbbi_canon.specs.inner.Grids.{IsGridOf};

use crate::categories::join_categories;
use crate::grid::Grid;
use crate::slashes::least_slashes;
use crate::walk::walk_rows;
use rbbi_table::{
    CellList, NumberList, NumberLists, Parts, RangeList, RowHead, RowList, Table, safe_pairs,
};
use std::alloc::{AllocError, Global};

/// The canonical table: the one of all least tables with the same marks after every word whose
/// categories are joined where every row leads on alike, and whose categories, rows and look-ahead
/// rules are numbered in one way.
pub fn canonical(alloc: Global, table: &Table) -> Result<Table, AllocError>
    requires { HasCanonical table.now }
    ensures { IfOk result (λ made. IsCanonical table.now made) }
{
    table.valid();
    let parts = canonical_parts(alloc, table)?;
    Ok(Table::from_valid(alloc, parts)?)
}

/// The parts of the canonical table.
fn canonical_parts(alloc: Global, table: &Table) -> Result<Parts, AllocError>
    requires has { HasCanonical table.now }
    requires valid { IsValidTable table.now }
    ensures { IfOk result (λ parts. ArePartsOf table.now (table_of parts)) }
{
    let old = table.parts();
    let grid = grid_of(alloc, table)?;
    let joined = join_categories(alloc, &grid, old.ranges.as_slice())?;
    let walk = walk_rows(alloc, &grid, &joined.firsts)?;
    let heads = heads_of(alloc, table, &walk.order)?;
    let categories = joined.firsts.len() as u16;
    let safe = safe_pairs(alloc, categories, &heads, &walk.cells)?;
    Ok(Parts {
        categories,
        slashes: least_slashes(&heads),
        ranges: RangeList::from_vec(joined.ranges),
        lists: copied_lists(alloc, old.lists.as_slice())?,
        rows: RowList::from_vec(heads),
        cells: CellList::from_vec(walk.cells),
        safe,
    })
}

/// The next rows of a table. In a table of two rows nothing ever ends, and all lead to row 0.
fn grid_of(alloc: Global, table: &Table) -> Result<Grid, AllocError>
    ensures { IfOk result (λ grid. IsGridOf table.now grid) }
{
    table.valid();
    let rows = table.rows() as usize;
    let width = table.categories() as usize;
    let cells = if rows == 2 {
        vec![in alloc; 0; rows * width]?
    } else {
        table.parts().cells.as_slice().to_vec(alloc)?
    };
    Ok(Grid { rows, width, cells })
}

/// The heads of these rows.
fn heads_of(alloc: Global, table: &Table, order: &[u16]) -> Result<Vec<RowHead>, AllocError>
    requires { (k : ℕ) → k < length order.now → slice_index order.now k < length table.now.rows }
    ensures { IfOk result (λ heads. heads.items ≡ map (head_of table.now) order.now) }
{
    let mut heads = Vec::with_capacity(alloc, order.len())?;
    for row in order {
        heads.push(table.row(*row))?;
    }
    Ok(heads)
}

/// The same status lists.
fn copied_lists(alloc: Global, lists: &[NumberList]) -> Result<NumberLists, AllocError>
    ensures { IfOk result (λ made. made ≡ lists.now) }
{
    let mut made = NumberLists::new(alloc);
    for list in lists {
        made.push(NumberList::from_vec(list.as_slice().to_vec(alloc)?))?;
    }
    Ok(made)
}
