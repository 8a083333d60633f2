//! The refusals of an edit whose places count a unit.
ghost use Rattle.std.specs.Prelude.{◌≡◌, None};
ghost use Rattle.rbbi_session.specs.UnitErrors.{unit_edit_err_label};
ghost use Rattle.rbbi_session.specs.declared.unit_error.UnitEditErr.TheVariants as edit;

use std::alloc::AllocError;
use thiserror::Error;

/// Why a text is not changed.
#[derive(Debug, Drop, Error)]
pub enum UnitEditErr {
    /// What is to be removed reaches past the end of the text.
    #[error("the edit reaches past the end of the text")]
    Outside,
    /// The edit begins or ends inside of a character.
    #[error("the edit begins or ends inside of a character")]
    Inside,
    /// The text would have more than 16,777,216 characters.
    #[error("the text would have too many characters")]
    TooLong,
    /// There is not enough memory.
    #[error("out of memory")]
    Memory,
}

impl From<AllocError> for UnitEditErr {
    ghost from_gives = { λ _ e. e ≡ edit.Memory };

    fn from(_error: AllocError) -> UnitEditErr {
        UnitEditErr::Memory
    }
}

impl UnitEditErr {
    /// The name of the variant.
    pub fn label(&self) -> &str
        ensures { result.now ≡ unit_edit_err_label self.now }
    {
        match self {
            UnitEditErr::Outside => "Outside",
            UnitEditErr::Inside => "Inside",
            UnitEditErr::TooLong => "TooLong",
            UnitEditErr::Memory => "Memory",
        }
    }

    /// The place that the refusal carries: none.
    pub fn place(&self) -> Option<u32>
        ensures { result ≡ None }
    {
        None
    }
}
