//! Why a property file is refused.
ghost use Rattle.std.specs.Prelude.{◌≡◌};

use std::alloc::{AllocError, AllocFailed};
use thiserror::Error;

/// Why a property file is refused.
#[derive(Debug, Drop, Error)]
pub enum PropErr {
    /// The bytes aren't UTF-8. It carries the first byte past the longest valid prefix, from 0.
    #[error("not UTF-8 at byte {0}")]
    NotUtf8(u32),
    /// This line, counted from 1, is the first that is neither skipped nor of the form of a row.
    #[error("line {0} is no row")]
    BadRow(u32),
    /// Memory ran out.
    #[error("out of memory")]
    Memory,
}

impl From<AllocError> for PropErr {
    ghost use Rattle.std.specs.Prelude.{◌≡◌};
    ghost use Rattle.rbbi_props.specs.declared.error.PropErr.TheVariants.{Memory};

    ghost from_gives = { λ _ e. e ≡ Memory };

    fn from(_e: AllocError) -> PropErr {
        PropErr::Memory
    }
}

impl<T: Drop> From<AllocFailed<T>> for PropErr {
    ghost use Rattle.std.specs.Prelude.{◌≡◌};
    ghost use Rattle.rbbi_props.specs.declared.error.PropErr.TheVariants.{Memory};

    ghost from_gives = { λ _ e. e ≡ Memory };

    fn from(_e: AllocFailed<T>) -> PropErr {
        PropErr::Memory
    }
}

impl PropErr {
    ghost use Rattle.rbbi_props.specs.Refusals.{label_of, place_of};

    /// The variant's name.
    pub fn label(&self) -> &str
        ensures { result.now ≡ label_of self.now }
    {
        match self {
            PropErr::NotUtf8(_) => "NotUtf8",
            PropErr::BadRow(_) => "BadRow",
            PropErr::Memory => "Memory",
        }
    }

    /// The byte (from 0) or the line (from 1) that it carries.
    pub fn place(&self) -> Option<u32>
        ensures { result ≡ place_of self.now }
    {
        match self {
            PropErr::NotUtf8(at) => Some(*at),
            PropErr::BadRow(line) => Some(*line),
            PropErr::Memory => None,
        }
    }
}
