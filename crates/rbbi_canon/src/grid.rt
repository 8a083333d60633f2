//! The next rows of a table.
ghost use Rattle.std.specs.Prelude.{◌≡◌, ◌<◌, ◌*◌, length};

/// The next rows, row after row, one for each category.
#[derive(Drop)]
pub(crate) struct Grid {
    pub rows: usize,
    pub width: usize,
    pub cells: Vec<u16>,
    ghost full: { length cells.items ≡ rows * width },
}

impl Grid {
    ghost use Rattle.rbbi_canon.specs.inner.Grids.{cell_of};

    /// The next row from a row, for a category.
    pub fn next(&self, row: usize, category: usize) -> u16
        requires row { row < self.now.rows }
        requires category { category < self.now.width }
        ensures { result ≡ cell_of self.now row category }
    {
        self.cells[row * self.width + category]
    }
}
