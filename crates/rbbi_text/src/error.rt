//! The refusals of the calls that make or change a text.
ghost use Rattle.std.specs.Prelude.{◌≡◌, None};
ghost use Rattle.rbbi_text.specs.Errors.{text_err_label, raw_err_label, raw_err_place};
ghost use Rattle.rbbi_text.specs.Errors.{edit_err_label, lines_err_label, lines_err_place};
ghost use Rattle.rbbi_text.specs.declared.error.TextErr.TheVariants as text;
ghost use Rattle.rbbi_text.specs.declared.error.RawErr.TheVariants as raw;
ghost use Rattle.rbbi_text.specs.declared.error.EditErr.TheVariants as edit;
ghost use Rattle.rbbi_text.specs.declared.error.LinesErr.TheVariants as file;

use std::alloc::AllocError;
use thiserror::Error;

/// Why a string is not taken as a text.
#[derive(Debug, Drop, Error)]
pub enum TextErr {
    /// It has more than 16,777,216 characters.
    #[error("the text has too many characters")]
    TooManyChars,
    /// There is not enough memory.
    #[error("out of memory")]
    Memory,
}

/// Why the bytes of a file are not taken as a text.
#[derive(Debug, Drop, Error)]
pub enum RawErr {
    /// They are not UTF-8, from the byte past the longest valid prefix on, from 0.
    #[error("the bytes from {0} on are not UTF-8")]
    NotUtf8(u32),
    /// They are UTF-8, of more than 16,777,216 characters.
    #[error("the text has too many characters")]
    TooManyChars,
    /// There is not enough memory.
    #[error("out of memory")]
    Memory,
}

/// Why a text is not changed.
#[derive(Debug, Drop, Error)]
pub enum EditErr {
    /// The characters to remove are not all in the text.
    #[error("the edit reaches past the end of the text")]
    Outside,
    /// The text would have more than 16,777,216 characters.
    #[error("the text would have too many characters")]
    TooLong,
    /// There is not enough memory.
    #[error("out of memory")]
    Memory,
}

/// Why a file of lines is not taken.
#[derive(Debug, Drop, Error)]
pub enum LinesErr {
    /// They are not UTF-8, from the byte past the longest valid prefix on, from 0.
    #[error("the bytes from {0} on are not UTF-8")]
    NotUtf8(u32),
    /// This line, counted from 1, is the first that is neither skipped nor of a stated form.
    #[error("line {0} is of no stated form")]
    BadLine(u32),
    /// There is not enough memory.
    #[error("out of memory")]
    Memory,
}

impl From<AllocError> for TextErr {
    ghost from_gives = { λ _ e. e ≡ text.Memory };

    fn from(_error: AllocError) -> TextErr {
        TextErr::Memory
    }
}

impl From<AllocError> for RawErr {
    ghost from_gives = { λ _ e. e ≡ raw.Memory };

    fn from(_error: AllocError) -> RawErr {
        RawErr::Memory
    }
}

impl From<AllocError> for EditErr {
    ghost from_gives = { λ _ e. e ≡ edit.Memory };

    fn from(_error: AllocError) -> EditErr {
        EditErr::Memory
    }
}

impl From<AllocError> for LinesErr {
    ghost from_gives = { λ _ e. e ≡ file.Memory };

    fn from(_error: AllocError) -> LinesErr {
        LinesErr::Memory
    }
}

impl TextErr {
    /// The name of the variant.
    pub fn label(&self) -> &str
        ensures { result.now ≡ text_err_label self.now }
    {
        match self {
            TextErr::TooManyChars => "TooManyChars",
            TextErr::Memory => "Memory",
        }
    }

    /// The place that the refusal carries: none.
    pub fn place(&self) -> Option<u32>
        ensures { result ≡ None }
    {
        None
    }
}

impl RawErr {
    /// The name of the variant.
    pub fn label(&self) -> &str
        ensures { result.now ≡ raw_err_label self.now }
    {
        match self {
            RawErr::NotUtf8(_) => "NotUtf8",
            RawErr::TooManyChars => "TooManyChars",
            RawErr::Memory => "Memory",
        }
    }

    /// The byte that the refusal carries, from 0.
    pub fn place(&self) -> Option<u32>
        ensures { result ≡ raw_err_place self.now }
    {
        match self {
            RawErr::NotUtf8(at) => Some(*at),
            RawErr::TooManyChars => None,
            RawErr::Memory => None,
        }
    }
}

impl EditErr {
    /// The name of the variant.
    pub fn label(&self) -> &str
        ensures { result.now ≡ edit_err_label self.now }
    {
        match self {
            EditErr::Outside => "Outside",
            EditErr::TooLong => "TooLong",
            EditErr::Memory => "Memory",
        }
    }

    /// The place that the refusal carries: none.
    pub fn place(&self) -> Option<u32>
        ensures { result ≡ None }
    {
        None
    }
}

impl LinesErr {
    /// The name of the variant.
    pub fn label(&self) -> &str
        ensures { result.now ≡ lines_err_label self.now }
    {
        match self {
            LinesErr::NotUtf8(_) => "NotUtf8",
            LinesErr::BadLine(_) => "BadLine",
            LinesErr::Memory => "Memory",
        }
    }

    /// The byte (from 0) or the line (from 1) that the refusal carries.
    pub fn place(&self) -> Option<u32>
        ensures { result ≡ lines_err_place self.now }
    {
        match self {
            LinesErr::NotUtf8(at) => Some(*at),
            LinesErr::BadLine(line) => Some(*line),
            LinesErr::Memory => None,
        }
    }
}
