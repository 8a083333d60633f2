//! Boundaries as a session keeps them.
ghost use Rattle.std.specs.Prelude.{◌≡◌, ℕ, List};
ghost use Rattle.rbbi_session.specs.Scans.{IsBoundaryWith};

use rbbi_table::Table;

/// A boundary of a text.
#[derive(Clone, Copy)]
pub struct Boundary {
    /// Its place, in characters from 0.
    pub at: u32,
    /// The number of its status list in the table.
    pub status: u16,
}

/// The boundary before the first character, by this table.
pub(crate) fn start(table: &Table) -> Boundary
    ensures at { result.at ≡ 0 }
    ensures reached { (x : List ℕ) → IsBoundaryWith table.now x result.at result.status }
{
    table.valid();
    Boundary { at: 0, status: 0 }
}
