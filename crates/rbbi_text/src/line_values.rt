//! Files of lines, each of which is skipped or writes a value.
ghost use Rattle.std.specs.Prelude.{◌≡◌, ◌<◌, ◌≤◌, ℕ, List, [], ◌∷◌, ◌++◌, length, slice_get};
ghost use Rattle.std.specs.Prelude.{Some, IfOk, OnOk};
ghost use Rattle.std.specs.Str.Lines.{lines};
ghost use Rattle.rbbi_text.specs.Bytes.{most_bytes};
ghost use Rattle.rbbi_text.specs.LineValues.{ReadsLines};
ghost use Rattle.rbbi_text.specs.inner.LineValues.{ReadsLine, ReadsTextLines};

use crate::bytes::{utf8_text, without_mark};
use crate::error::LinesErr;
use std::alloc::{AllocError, Global};
use std::marker::Model;

/// What a line of a file is.
#[derive(Drop)]
pub enum Line<V> {
    /// The line is skipped.
    Skipped,
    /// It writes this value.
    Writes(V),
    /// It is neither skipped nor of a stated form.
    Bad,
}

/// A value that a line of a file writes.
pub trait LineValue: Drop + Sized {
    ghost use Rattle.rbbi_text.specs.declared.line_values.Line.{Line};

    ghost IsLine: { List ℕ → ℕ → Line Self → Type 0 };

    /// What a line is that has this number, from 1.
    fn from_line(alloc: Global, line: &str, number: u32) -> Result<Line<Self>, AllocError>
        ensures { IfOk result (IsLine line.now number) };
}

/// The values of the lines of a file, in order. Contracts see it as their list.
#[derive(Drop)]
pub struct Values<V> {
    items: Vec<V>,
}

impl<V> Model for Values<V> {
    ghost use Rattle.std.specs.Prelude.{List};

    ghost Value = { List V };

    ghost view = { λ values. values.items.items };
}

impl<V: Drop> Values<V> {
    /// The number of values.
    pub fn len(&self) -> usize
        ensures { result ≡ length self.now }
    {
        self.items.len()
    }

    /// The value with this number, from 0.
    pub fn get(&self, i: usize) -> &V
        requires { i < length self.now }
        ensures { slice_get self.now i ≡ Some result.now }
    {
        &self.items[i]
    }
}

/// The values that the lines of a file write.
///
/// One U+FEFF at the start of the bytes isn't part of the first line. A line ends at LF, and one CR
/// before it isn't part of the line.
///
/// Refuses `NotUtf8` with the first byte past the longest valid prefix, `BadLine` with the first
/// bad line, and `Memory`.
pub fn read_lines<V: LineValue>(alloc: Global, bytes: &[u8]) -> Result<Values<V>, LinesErr>
    requires { length bytes.now ≤ most_bytes }
    ensures { ReadsLines V.IsLine bytes.now result }
{
    match utf8_text(bytes) {
        Ok(text) => text_values(alloc, without_mark(text)),
        Err(at) => Err(LinesErr::NotUtf8(at)),
    }
}

/// The values that the lines of a text write.
fn text_values<V: LineValue>(alloc: Global, text: &str) -> Result<Values<V>, LinesErr>
    requires { length text.now ≤ most_bytes }
    ensures { ReadsTextLines V.IsLine (lines text.now) result }
{
    let mut values = Values {
        items: Vec::new(alloc),
    };
    let mut number = 0;
    for line in text.lines() {
        number += 1;
        read_line(&mut values, alloc, line, number)?;
    }
    Ok(values)
}

/// Adds the value of a line, which has this number. A line that is skipped adds none.
fn read_line<V: LineValue>(
    values: &mut Values<V>,
    alloc: Global,
    line: &str,
    number: u32,
) -> Result<(), LinesErr>
    ensures { ReadsLine V.IsLine line.now number values.old result values.new }
{
    match V::from_line(alloc, line, number)? {
        Line::Skipped => Ok(()),
        Line::Writes(value) => match values.items.push(value) {
            Ok(()) => Ok(()),
            Err(_) => Err(LinesErr::Memory),
        },
        Line::Bad => Err(LinesErr::BadLine(number)),
    }
}
