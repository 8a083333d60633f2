//! A table that several sessions and tallies share.
ghost use Rattle.std.specs.Prelude.{◌≡◌, IfOk};

use rbbi_session::Holds;
use rbbi_table::Table;
use std::alloc::{AllocError, Global};
use std::marker::Model;
use std::sync::Arc;

/// A table with the count of its owners, which are handles, sessions and tallies. The last one
/// frees it.
#[derive(Drop)]
pub struct SharedTable {
    counted: Arc<Table>,
}

impl Model for SharedTable {
    ghost use Rattle.rbbi_model.specs.Tables.{Table};
    ghost use Rattle.std_alloc.specs.Arc.{arc_value};

    ghost Value = { Table };

    ghost view = { λ shared. arc_value shared.counted };
}

impl SharedTable {
    /// The first owner of a table.
    pub(crate) fn new(alloc: Global, table: Table) -> Result<SharedTable, AllocError>
        ensures { IfOk result (λ shared. shared ≡ table) }
    {
        let counted = Arc::new(alloc, table)?;
        Ok(SharedTable { counted })
    }

    /// One more owner. It is refused only where there are 2^63 - 1 owners.
    pub(crate) fn share(&self) -> Result<SharedTable, AllocError>
        ensures { IfOk result (λ shared. shared ≡ self.now) }
    {
        let counted = Arc::try_clone(&self.counted)?;
        Ok(SharedTable { counted })
    }
}

impl Holds for SharedTable {
    ghost table_of = { λ shared. shared };

    fn table(&self) -> &Table {
        &self.counted
    }
}
