//! Why a list of tokens is refused.
ghost use Rattle.std.specs.Prelude.{◌≡◌};
ghost use Rattle.rbbi_tree.specs.declared.error.TreeErr.TheVariants.{Memory};
ghost use Rattle.rbbi_tree.specs.Refusals.{label_of, place_of};

use std::alloc::{AllocError, AllocFailed};
use thiserror::Error;

/// Why a list of tokens is refused.
#[derive(Debug, Drop, Error)]
pub enum TreeErr {
    /// The tokens are no rule file. The place is that of the first token after which no rule file
    /// can follow, in characters from 0; or the length of the text, where all tokens begin one.
    #[error("no rule file can go on like this at {0}")]
    Syntax(u32),
    /// Too many brackets are open. The place is that of the first bracket, round or square, that
    /// makes 65 open ones, in characters from 0.
    #[error("more than 64 brackets are open at {0}")]
    TooDeep(u32),
    /// Memory ran out.
    #[error("out of memory")]
    Memory,
}

impl TreeErr {
    /// The name of the variant.
    pub fn label(&self) -> &str
        ensures { result.now ≡ label_of self.now }
    {
        match self {
            TreeErr::Syntax(_) => "Syntax",
            TreeErr::TooDeep(_) => "TooDeep",
            TreeErr::Memory => "Memory",
        }
    }

    /// The place that the refusal carries, in characters from 0.
    pub fn place(&self) -> Option<u32>
        ensures { result ≡ place_of self.now }
    {
        match self {
            TreeErr::Syntax(place) | TreeErr::TooDeep(place) => Some(*place),
            TreeErr::Memory => None,
        }
    }
}

impl From<AllocError> for TreeErr {
    ghost from_gives = { λ _ e. e ≡ Memory };

    fn from(_e: AllocError) -> TreeErr {
        TreeErr::Memory
    }
}

impl<T: Drop> From<AllocFailed<T>> for TreeErr {
    ghost from_gives = { λ _ e. e ≡ Memory };

    fn from(_e: AllocFailed<T>) -> TreeErr {
        TreeErr::Memory
    }
}
