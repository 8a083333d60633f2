//! The tests of a file.
ghost use Rattle.std.specs.Prelude.{◌≤◌, length};
ghost use Rattle.rbbi_text.specs.Bytes.{most_bytes};
ghost use Rattle.rbbi_conform.specs.Files.{ReadsTests};

use crate::line::{Marked, marked_text};
use crate::test::{Test, Tests};
use rbbi_text::{Line, LineValue, LinesErr, PlainText, is_skipped, read_lines};
use std::alloc::{AllocError, Global};

/// Why a test file is refused: `BadLine` has the first line that is neither skipped nor a test.
pub type TestErr = LinesErr;

/// The tests of a test file.
///
/// The bytes are at most 100,663,296. One U+FEFF at their start isn't part of the file. A line ends
/// at LF, and one CR before it isn't part of the line. It is cut before its first `#`, and skipped
/// where only spaces and tabs are left. The rest is words between spaces and tabs: a mark, then any
/// number of times a code point and a mark. A mark is U+00F7 (a boundary) or U+00D7 (none). A code
/// point has four to six hexadecimal digits of either case and is a character. The test files of
/// the Unicode Character Database have this form (UAX #29, section 7). The first mark isn't
/// compared.
///
/// Refuses `NotUtf8` with the first byte past the longest valid prefix, `BadLine` with the first
/// line that is neither skipped nor of this form, and `Memory`.
pub fn read_tests(alloc: Global, bytes: &[u8]) -> Result<Tests, TestErr>
    requires { length bytes.now ≤ most_bytes }
    ensures { ReadsTests bytes.now result }
{
    read_lines(alloc, bytes)
}

impl LineValue for Test {
    ghost use Rattle.rbbi_conform.specs.Files.{IsTestLine};

    ghost IsLine = { IsTestLine };

    fn from_line(alloc: Global, line: &str, number: u32) -> Result<Line<Test>, AllocError> {
        let line = line.as_bytes();
        if is_skipped(line) {
            return Ok(Line::Skipped);
        }
        let Some(Marked { text, marks }) = marked_text(alloc, line)? else {
            return Ok(Line::Bad);
        };
        // A character takes six bytes and more of the line, so a line of a test file never has too
        // many.
        let Ok(text) = PlainText::new(alloc, &text) else {
            return Err(AllocError);
        };
        Ok(Line::Writes(Test::new(number, text, marks)))
    }
}
