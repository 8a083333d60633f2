//! How a session holds its table.
ghost use Rattle.std.specs.Prelude.{◌≡◌};

use rbbi_table::Table;

/// What holds a table: a borrow of it, or a share of one that is counted. Sessions over several
/// texts share a table so.
pub trait Holds {
    ghost use Rattle.rbbi_model.specs.Tables.{Table};

    /// The table that is held.
    ghost table_of: { Self → Table };

    /// The table.
    fn table(&self) -> &Table
        ensures { result.now ≡ table_of self.now };
}

impl<'a> Holds for &'a Table {
    ghost table_of = { λ held. held.now };

    fn table(&self) -> &Table {
        *self
    }
}
