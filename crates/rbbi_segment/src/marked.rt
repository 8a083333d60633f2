//! The text with a mark where a segment begins or ends.
ghost use Rattle.std.specs.Prelude.{◌<◌, ◌≤◌, length};

use crate::colors::{Color, Colors};
use crate::escapes::append_plain;
use crate::only::Wanted;
use crate::options::Mark;
use crate::quoted::put_waiting;
use crate::segments::{Receive, Segment, Span};
use rbbi_io::{Sink, WriteErr, put_all, put_when_full};
use rbbi_text::{Chars, PlainText, Steps, append};
use std::alloc::AllocError;
use std::sync::ledger::Ledger;

/// Puts the characters of all segments, and a mark where one that is asked for begins or ends. A
/// backslash stands before each character of the text that is a backslash or begins the mark.
#[derive(Drop)]
pub(crate) struct Marked<'a> {
    pub(crate) mark: Mark<'a>,
    pub(crate) wanted: Wanted,
    pub(crate) colors: Colors,
    /// Whether the segment before was one of those.
    pub(crate) was_asked_for: bool,
    /// The bytes that wait.
    pub(crate) made: Vec<u8>,
}

impl Marked<'_> {
    /// Appends a mark.
    fn append_mark(&mut self) -> Result<(), AllocError> {
        self.colors
            .append(Color::Mark, self.mark.text.as_bytes(), &mut self.made)
    }

    /// Appends a character of the text.
    fn append_character(&mut self, c: char) -> Result<(), AllocError> {
        if c == '\\' || c == self.mark.first {
            append(b"\\", &mut self.made)?;
        }
        append_plain(c, &mut self.made)
    }
}

impl Receive for Marked<'_> {
    fn take<K: Sink, L: Ledger>(
        &mut self,
        text: &PlainText,
        span: Span,
        segment: Segment,
        out: &mut K,
        steps: &mut Steps<L>,
    ) -> Result<(), WriteErr> {
        let is_asked_for = self.wanted.has(text, span, segment.status, steps);
        if is_asked_for || self.was_asked_for {
            self.append_mark()?;
        }
        self.was_asked_for = is_asked_for;
        for i in span.from..span.to {
            self.append_character(text.char_at(i, steps))?;
            put_when_full(out, &mut self.made)?;
        }
        Ok(())
    }

    fn pause<K: Sink>(&mut self, out: &mut K) -> Result<(), WriteErr> {
        put_waiting(out, &mut self.made)
    }

    fn end<K: Sink>(&mut self, out: &mut K) -> Result<(), WriteErr> {
        if self.was_asked_for {
            self.append_mark()?;
        }
        append(b"\n", &mut self.made)?;
        put_all(out, &self.made)
    }
}
