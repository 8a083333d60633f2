//! Why bytes are no table file.
ghost use Rattle.std.specs.Prelude.{◌≡◌};
ghost use Rattle.rbbi_file.specs.declared.error.FileErr.TheVariants.{Memory};
ghost use Rattle.rbbi_file.specs.Errors.{label_of, place_of};

use rbbi_table::TableErr;
use std::alloc::AllocError;
use thiserror::Error;

/// The first fault of a table file, or running out of memory. Each place is that of a byte, from 0.
#[derive(Debug, Drop, Error)]
pub enum FileErr {
    /// The first eight bytes aren't there, or aren't those of a table file of either version.
    #[error("this is no table file")]
    BadMagic,
    /// The file ends before its parts do. The place is its number of bytes.
    #[error("the file ends at byte {0}, before its parts do")]
    Short(u32),
    /// Bytes follow the parts. The place is that of the first of them.
    #[error("bytes follow the parts, from byte {0} on")]
    Trailing(u32),
    /// The parts make no table: the first that isn't valid. It is never `TableErr::Memory`.
    #[error("the parts make no table")]
    Part(TableErr),
    /// There isn't enough memory.
    #[error("out of memory")]
    Memory,
}

impl From<AllocError> for FileErr {
    ghost from_gives = { λ _ e. e ≡ Memory };

    fn from(_error: AllocError) -> FileErr {
        FileErr::Memory
    }
}

impl FileErr {
    /// The name of the variant, or for a part that isn't valid that of the part's refusal.
    pub fn label(&self) -> &str
        ensures { result.now ≡ label_of self.now }
    {
        match self {
            FileErr::BadMagic => "BadMagic",
            FileErr::Short(_) => "Short",
            FileErr::Trailing(_) => "Trailing",
            FileErr::Part(error) => error.label(),
            FileErr::Memory => "Memory",
        }
    }

    /// The byte that the refusal carries, from 0.
    pub fn place(&self) -> Option<u32>
        ensures { result ≡ place_of self.now }
    {
        match self {
            FileErr::Short(at) | FileErr::Trailing(at) => Some(*at),
            FileErr::BadMagic | FileErr::Part(_) | FileErr::Memory => None,
        }
    }
}
