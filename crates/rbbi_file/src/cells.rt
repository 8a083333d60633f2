//! How many bytes a next row takes, and a whole row.
ghost use Rattle.std.specs.Prelude.{◌≡◌, ◌+◌, ◌*◌, ◌^◌, ◌<◌, ◌≤◌};
ghost use Rattle.rbbi_model.specs.TableFile.{cell_size as bytes_of_cell};

/// How many bytes a next row takes in a file of the version, with so many rows.
pub(crate) fn cell_size(version: u8, rows: u16) -> usize
    ensures exact { result ≡ bytes_of_cell version rows }
    ensures some { 1 ≤ result }
    ensures few { result ≤ 2 }
{
    if version == 2 && rows <= 255 { 1 } else { 2 }
}

/// How many bytes a row takes: its head, and so many next rows, each of one or two bytes.
pub(crate) fn row_size(size: usize, width: usize) -> usize
    requires some { 1 ≤ size }
    requires few { size ≤ 2 }
    requires narrow { width < 2 ^ 16 }
    ensures exact { result ≡ 8 + size * width }
    ensures short { result ≤ 8 + 2 * width }
{
    if size == 1 { 8 + width } else { 8 + 2 * width }
}
