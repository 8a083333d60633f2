//! Categories by which every row leads to the same row.
ghost use Rattle.std.specs.Prelude.{◌≡◌, ◌+◌, ◌<◌, ◌≤◌, length, IfOk, OnOk};
ghost use Rattle.rbbi_canon.specs.inner.Grids.{IsColumn, AreRepresentatives};
ghost use Rattle.rbbi_canon.specs.inner.Columns.{AreKept};

use crate::grid::Grid;
use rbbi_bits::NumberedRows;
use std::alloc::{AllocError, Global};

/// Copies the next rows for a category.
fn read_column(grid: &Grid, category: usize, column: &mut [u64])
    requires category { category < grid.now.width }
    requires long { length column.old ≡ grid.now.rows }
    ensures { IsColumn grid.now category column.new }
{
    for row in 0..column.len() {
        column[row] = u64::from(grid.next(row, category));
    }
}

/// Notes the column of a category: whether it is kept already, and the first category with it.
fn add_column(
    alloc: Global,
    grid: &Grid,
    category: usize,
    column: &mut [u64],
    kept: &mut NumberedRows,
    firsts: &mut Vec<u16>,
    found: &mut Vec<u16>,
) -> Result<(), AllocError>
    requires few { grid.now.width ≤ 1000 }
    requires category { category < grid.now.width }
    requires column { length column.old ≡ grid.now.rows }
    requires kept { AreKept grid.now category kept.old firsts.old.items found.old.items }
    ensures { OnOk result
        (AreKept grid.now (category + 1) kept.new firsts.new.items found.new.items) }
{
    read_column(grid, category, column);
    let Some(number) = kept.number_of(alloc, column)? else {
        unreachable!();
    };
    if number == firsts.len() {
        firsts.push(category as u16)?;
    }
    found.push(firsts[number])?;
    Ok(())
}

/// For each category the first one by which every row leads to the same row.
pub(crate) fn representatives(alloc: Global, grid: &Grid) -> Result<Vec<u16>, AllocError>
    requires { grid.now.width ≤ 1000 }
    ensures { IfOk result (λ found. AreRepresentatives grid.now found.items) }
{
    let mut kept = NumberedRows::new(alloc)?;
    let mut column_words = vec![in alloc; 0u64; grid.rows]?;
    let column = column_words.as_mut_slice();
    let mut firsts = Vec::new(alloc);
    let mut found = Vec::with_capacity(alloc, grid.width)?;
    for category in 0..grid.width {
        add_column(
            alloc,
            grid,
            category,
            column,
            &mut kept,
            &mut firsts,
            &mut found,
        )?;
    }
    Ok(found)
}
