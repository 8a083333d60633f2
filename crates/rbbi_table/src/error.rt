//! Why parts make no table.
ghost use Rattle.std.specs.Prelude.{◌≡◌, None};
ghost use Rattle.rbbi_table.specs.declared.error.TableErr.TheVariants.{Memory};
ghost use Rattle.rbbi_table.specs.Errors.{label_of};

use std::alloc::AllocError;
use thiserror::Error;

/// The first part of a table that isn't valid, or running out of memory.
#[derive(Debug, Drop, PartialEq, Eq, Error)]
pub enum TableErr {
    /// The ranges of the categories aren't valid.
    #[error("the ranges of the categories are not valid")]
    BadRanges,
    /// The ranges are valid, and the status lists aren't.
    #[error("the status lists are not valid")]
    BadLists,
    /// Ranges and status lists are valid, and the rows aren't.
    #[error("the rows are not valid")]
    BadRows,
    /// All before is valid, and a look-ahead rule can be completed although its front didn't end.
    #[error("a look-ahead rule is completed without its front")]
    BadFronts,
    /// All before is valid, and the stored bits aren't those of the safe pairs.
    #[error("the safe pairs are not those of the rows")]
    BadSafe,
    /// There isn't enough memory.
    #[error("out of memory")]
    Memory,
}

impl From<AllocError> for TableErr {
    ghost from_gives = { λ _ e. e ≡ Memory };

    fn from(_error: AllocError) -> TableErr {
        TableErr::Memory
    }
}

impl TableErr {
    /// The name of the variant.
    pub fn label(&self) -> &str
        ensures { result.now ≡ label_of self.now }
    {
        match self {
            TableErr::BadRanges => "BadRanges",
            TableErr::BadLists => "BadLists",
            TableErr::BadRows => "BadRows",
            TableErr::BadFronts => "BadFronts",
            TableErr::BadSafe => "BadSafe",
            TableErr::Memory => "Memory",
        }
    }

    /// The place that the refusal carries: none.
    pub fn place(&self) -> Option<u32>
        ensures { result ≡ None }
    {
        None
    }
}
