//! The text in lines of at most so many columns.
ghost use Rattle.std.specs.Prelude.{◌<◌, ◌≤◌, length};

use crate::quoted::put_waiting;
use crate::segments::{Receive, Segment, Span};
use rbbi_io::{Sink, WriteErr, put_all, put_when_full};
use rbbi_text::{Chars, PlainText, Steps, append};
use std::alloc::{AllocError, Global};
use std::sync::ledger::Ledger;
use unicode_width::{UnicodeWidthChar, UnicodeWidthStr};

/// The least status of a boundary at which a line has to end.
const MUST_BREAK: u32 = 100;

/// Prints the segments in lines of at most so many columns, and leaves out the white space between
/// the last segment of a line and the first of the next. A segment that is wider has a line to
/// itself, with the white space that begins the line.
///
/// White space after the first character of it that doesn't fit in the line is left out, too. So at
/// most as much is held as fits in a line. Where a line has to end, what is held stays.
#[derive(Drop)]
pub(crate) struct Wrapped {
    width: usize,
    /// The columns of what was put of this line.
    column: usize,
    /// Whether something was.
    is_begun: bool,
    /// The white space that follows it and fits in the line.
    space: String,
    /// The columns of that.
    space_columns: usize,
    /// Whether white space followed that doesn't fit.
    is_full: bool,
    /// The segment of the moment up to its last white space.
    word: String,
    /// The bytes that wait.
    made: Vec<u8>,
}

/// The place past the last character of the segment that isn't white space, or its start.
fn end_of_word<L: Ledger>(text: &PlainText, span: Span, steps: &mut Steps<L>) -> u32
    requires some { span.from < span.to }
    requires within { span.to ≤ length text.now }
    ensures { result ≤ span.to }
{
    let mut end = span.from;
    for i in span.from..span.to {
        if !text.char_at(i, steps).is_whitespace() {
            end = i + 1;
        }
    }
    end
}

/// Whether a character ends a line: those of the classes BK, CR, LF and NL of UAX #14.
fn is_line_end(c: char) -> bool {
    matches!(c, '\u{A}'..='\u{D}' | '\u{85}' | '\u{2028}' | '\u{2029}')
}

impl Wrapped {
    /// Lines of this many columns.
    pub(crate) fn new(alloc: Global, width: u32) -> Wrapped {
        Wrapped {
            width: width as usize,
            column: 0,
            is_begun: false,
            space: String::new(alloc),
            space_columns: 0,
            is_full: false,
            word: String::new(alloc),
            made: Vec::new(alloc),
        }
    }

    /// No white space is held.
    fn clear_space(&mut self) {
        self.space.clear();
        self.space_columns = 0;
        self.is_full = false;
    }

    /// Ends the line, and leaves out the white space that is held.
    fn end_line(&mut self) -> Result<(), AllocError> {
        self.clear_space();
        self.column = 0;
        self.is_begun = false;
        append(b"\n", &mut self.made)
    }

    /// Appends the white space that is held.
    fn append_space(&mut self) -> Result<(), AllocError> {
        append(self.space.as_str().as_bytes(), &mut self.made)?;
        self.column = self.column.saturating_add(self.space_columns);
        self.clear_space();
        Ok(())
    }

    /// Whether a word of so many columns fits in the line after the white space.
    fn fits(&self, columns: usize) -> bool {
        let end = self
            .column
            .saturating_add(self.space_columns)
            .saturating_add(columns);
        !self.is_full && end <= self.width
    }

    /// Appends the white space and the word, or the word in a line of its own.
    fn append_word(&mut self) -> Result<(), AllocError> {
        let columns = self.word.as_str().width();
        if self.is_begun && !self.fits(columns) {
            self.end_line()?;
        } else {
            self.append_space()?;
        }
        self.is_begun = true;
        self.column = self.column.saturating_add(columns);
        append(self.word.as_str().as_bytes(), &mut self.made)
    }

    /// Takes the characters from one place to another as a word.
    fn take_word<L: Ledger>(
        &mut self,
        text: &PlainText,
        start: u32,
        end: u32,
        steps: &mut Steps<L>,
    ) -> Result<(), AllocError>
        requires { end ≤ length text.now }
    {
        self.word.clear();
        for i in start..end {
            self.word.push(text.char_at(i, steps))?;
        }
        if self.word.as_str().is_empty() {
            return Ok(());
        }
        self.append_word()
    }

    /// Takes a character of white space, if it fits in the line.
    fn take_white(&mut self, c: char) -> Result<(), AllocError> {
        let columns = self.space_columns.saturating_add(c.width().unwrap_or(1));
        self.is_full = self.is_full || self.column.saturating_add(columns) > self.width;
        if !self.is_full {
            self.space_columns = columns;
            self.space.push(c)?;
        }
        Ok(())
    }

    /// Takes the characters from one place to another as white space, but for line ends.
    fn take_space<L: Ledger>(
        &mut self,
        text: &PlainText,
        start: u32,
        end: u32,
        steps: &mut Steps<L>,
    ) -> Result<(), AllocError>
        requires { end ≤ length text.now }
    {
        for i in start..end {
            let c = text.char_at(i, steps);
            if !is_line_end(c) {
                self.take_white(c)?;
            }
        }
        Ok(())
    }
}

impl Receive for Wrapped {
    fn take<K: Sink, L: Ledger>(
        &mut self,
        text: &PlainText,
        span: Span,
        segment: Segment,
        out: &mut K,
        steps: &mut Steps<L>,
    ) -> Result<(), WriteErr> {
        let end = end_of_word(text, span, steps);
        self.take_word(text, span.from, end, steps)?;
        self.take_space(text, end, span.to, steps)?;
        if segment.status >= MUST_BREAK {
            self.append_space()?;
            self.end_line()?;
        }
        put_when_full(out, &mut self.made)
    }

    fn pause<K: Sink>(&mut self, out: &mut K) -> Result<(), WriteErr> {
        put_waiting(out, &mut self.made)
    }

    fn end<K: Sink>(&mut self, out: &mut K) -> Result<(), WriteErr> {
        if self.is_begun {
            self.end_line()?;
        }
        put_all(out, &self.made)
    }
}
