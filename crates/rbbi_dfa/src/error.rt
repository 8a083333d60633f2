//! Why rules aren't compiled.
ghost use Rattle.std.specs.Prelude.{◌≡◌, None};
ghost use Rattle.rbbi_dfa.specs.declared.error.BuildErr.TheVariants.{Memory};
ghost use Rattle.rbbi_dfa.specs.Refusals.{label_of};

use std::alloc::{AllocError, AllocFailed};
use thiserror::Error;

/// Why rules aren't compiled.
#[derive(Debug, Drop, PartialEq, Eq, Error)]
pub enum BuildErr {
    /// There are more than 16,384 distinct leaf sets that aren't empty.
    #[error("more than 16384 leaf sets")]
    TooManySets,
    /// The least table has more than 4,095 rows.
    #[error("more than 4095 rows")]
    TooManyRows,
    /// The least table has more than 4,095 status lists.
    #[error("more than 4095 status lists")]
    TooManyStatuses,
    /// There isn't enough memory.
    #[error("out of memory")]
    Memory,
}

impl From<AllocError> for BuildErr {
    ghost from_gives = { λ _ e. e ≡ Memory };

    fn from(_error: AllocError) -> BuildErr {
        BuildErr::Memory
    }
}

impl<T: Drop> From<AllocFailed<T>> for BuildErr {
    ghost from_gives = { λ _ e. e ≡ Memory };

    fn from(_error: AllocFailed<T>) -> BuildErr {
        BuildErr::Memory
    }
}

impl BuildErr {
    /// The name of the variant.
    pub fn label(&self) -> &str
        ensures { result.now ≡ label_of self.now }
    {
        match self {
            BuildErr::TooManySets => "TooManySets",
            BuildErr::TooManyRows => "TooManyRows",
            BuildErr::TooManyStatuses => "TooManyStatuses",
            BuildErr::Memory => "Memory",
        }
    }

    /// The place that the refusal carries: none.
    pub fn place(&self) -> Option<u32>
        ensures { result ≡ None }
    {
        None
    }
}
