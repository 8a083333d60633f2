//! Why a text has no tokens.
ghost use Rattle.std.specs.Prelude.{◌≡◌};
ghost use Rattle.rbbi_lex.specs.declared.error.LexErr.TheVariants.{Memory};
ghost use Rattle.rbbi_lex.specs.Errors.{label_of, place_of};

use std::alloc::AllocError;
use thiserror::Error;

/// Why a rule file was refused. Each place is that of a character, from 0.
#[derive(Debug, Drop, Error)]
pub enum LexErr {
    /// No token begins with the character at this place.
    #[error("no token begins at character {0}")]
    BadChar(u32),
    /// The `\` at this place begins no escape.
    #[error("no escape begins at character {0}")]
    BadEscape(u32),
    /// The quoted sequence that begins at this place isn't closed in its line.
    #[error("the quote at character {0} is not closed")]
    OpenQuote(u32),
    /// The property that begins at this place isn't closed in its line.
    #[error("the property at character {0} is not closed")]
    OpenProperty(u32),
    /// The `{` at this place begins no status number, or one past 2,147,483,647.
    #[error("no status number stands at character {0}")]
    BadTag(u32),
    /// No name follows the `$` or `!!` at this place.
    #[error("no name follows at character {0}")]
    BadName(u32),
    /// Memory ran out.
    #[error("out of memory")]
    Memory,
}

impl From<AllocError> for LexErr {
    ghost from_gives = { λ _ e. e ≡ Memory };

    fn from(_error: AllocError) -> LexErr {
        LexErr::Memory
    }
}

impl LexErr {
    /// The name of the error.
    pub fn label(&self) -> &str
        ensures { result.now ≡ label_of self.now }
    {
        match self {
            LexErr::BadChar(_) => "BadChar",
            LexErr::BadEscape(_) => "BadEscape",
            LexErr::OpenQuote(_) => "OpenQuote",
            LexErr::OpenProperty(_) => "OpenProperty",
            LexErr::BadTag(_) => "BadTag",
            LexErr::BadName(_) => "BadName",
            LexErr::Memory => "Memory",
        }
    }

    /// The place that the error carries, in characters from 0.
    pub fn place(&self) -> Option<u32>
        ensures { result ≡ place_of self.now }
    {
        match self {
            LexErr::BadChar(place)
            | LexErr::BadEscape(place)
            | LexErr::OpenQuote(place)
            | LexErr::OpenProperty(place)
            | LexErr::BadTag(place)
            | LexErr::BadName(place) => Some(*place),
            LexErr::Memory => None,
        }
    }
}
