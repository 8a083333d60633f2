//! Why the categories of rules are refused.
ghost use Rattle.std.specs.Prelude.{◌≡◌, None};
ghost use Rattle.rbbi_cats.specs.declared.error.CatsErr.TheVariants.{Memory};
ghost use Rattle.rbbi_cats.specs.Refusals.{label_of};

use std::alloc::AllocError;
use thiserror::Error;

/// Why the categories of rules are refused.
#[derive(Debug, Drop, Error)]
pub enum CatsErr {
    /// There are more than 1,000 categories, category 0 counted.
    #[error("more than 1,000 categories")]
    TooManyCategories,
    /// Memory ran out.
    #[error("out of memory")]
    Memory,
}

impl From<AllocError> for CatsErr {
    ghost from_gives = { λ _ e. e ≡ Memory };

    fn from(_e: AllocError) -> CatsErr {
        CatsErr::Memory
    }
}

impl CatsErr {
    /// The variant's name.
    pub fn label(&self) -> &str
        ensures { result.now ≡ label_of self.now }
    {
        match self {
            CatsErr::TooManyCategories => "TooManyCategories",
            CatsErr::Memory => "Memory",
        }
    }

    /// The place that it carries: none does.
    pub fn place(&self) -> Option<u32>
        ensures { result ≡ None }
    {
        None
    }
}
