//! From the bytes of a text file to its text.
ghost use Rattle.std.specs.Prelude.{◌≤◌, length, IfOk};
ghost use Rattle.rbbi_model.specs.Words.{IsText};
ghost use Rattle.rbbi_text.specs.Bytes.{most_bytes};
ghost use Rattle.rbbi_tool.specs.inner.Stages.{Meets};
ghost use Rattle.rbbi_tool.specs.Texts.{text_stage};

use rbbi_command::{Input, Place, Refusal, file_fault};
use rbbi_text::{Chars, FileText, Pieces, RawErr};
use std::alloc::Global;

/// What taking a text from the bytes of this file answers.
macro_rules! taken {
    ($alloc:ident, $file:ident, $taken:expr) => {
        match $taken {
            Ok(text) => {
                // Its length says that these are characters.
                let _length = text.len();
                Ok(text)
            }
            Err(RawErr::NotUtf8(at)) => {
                Err(file_fault($alloc, $file.name.as_str(), "NotUtf8", Place::Byte(at)))
            }
            Err(RawErr::TooManyChars) => {
                Err(file_fault($alloc, $file.name.as_str(), "TooManyChars", Place::Whole))
            }
            Err(RawErr::Memory) => Err(Refusal::Memory),
        }
    };
}

/// The text of a text file, to be read from its start to its end.
pub(crate) fn text_of(alloc: Global, file: &Input) -> Result<FileText, Refusal>
    requires { length file.now.bytes ≤ most_bytes }
    ensures exact { Meets (λ text. text) (text_stage file.now) result }
    ensures text { IfOk result IsText }
{
    taken!(alloc, file, FileText::from_raw(alloc, &file.bytes))
}

/// The text of a text file, to be edited.
pub(crate) fn pieces_of(alloc: Global, file: &Input) -> Result<Pieces, Refusal>
    requires { length file.now.bytes ≤ most_bytes }
    ensures exact { Meets (λ text. text) (text_stage file.now) result }
    ensures text { IfOk result IsText }
{
    taken!(alloc, file, Pieces::from_raw(alloc, &file.bytes))
}
