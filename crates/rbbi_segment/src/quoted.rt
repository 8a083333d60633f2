//! Each segment by itself: a line with its numbers and itself in quotes, or itself as it is.
ghost use Rattle.std.specs.Prelude.{◌≡◌, ◌++◌, ◌<◌, ◌≤◌, length, OnOk, slice_range};
ghost use Rattle.rbbi_io.specs.Sinks.{IsBuffered, Takes};
ghost use Rattle.rbbi_segment.specs.Lines as spec;

use crate::colors::{Color, Colors};
use crate::escapes::{Within, append_character};
use crate::numbers::append_long;
use crate::only::Wanted;
use crate::options::Layout;
use crate::segments::{Receive, Segment, Span};
use rbbi_io::{Sink, WriteErr, put_all, put_when_full};
use rbbi_text::{Chars, PlainText, Steps, append, append_number};
use std::alloc::AllocError;
use std::sync::ledger::Ledger;

/// How lines are written.
#[derive(Clone, Copy)]
pub(crate) struct Style {
    pub(crate) layout: Layout,
    pub(crate) wanted: Wanted,
    pub(crate) colors: Colors,
}

/// Puts a line for each segment that is asked for.
#[derive(Drop)]
pub(crate) struct Quoted {
    pub(crate) style: Style,
    /// The bytes that wait.
    pub(crate) made: Vec<u8>,
}

/// Appends where a segment starts and ends in the unit, and its status, separated by spaces.
fn append_plain_head(segment: Segment, out: &mut Vec<u8>) -> Result<(), AllocError>
    ensures { OnOk result (out.new.items ≡ out.old.items ++ spec.plain_head segment) }
{
    append_long(segment.start_offset, out)?;
    append(b" ", out)?;
    append_long(segment.end_offset, out)?;
    append(b" ", out)?;
    append_number(segment.status, out)
}

/// Appends an object of JSON up to its text.
fn append_json_head(segment: Segment, out: &mut Vec<u8>) -> Result<(), AllocError>
    ensures { OnOk result (out.new.items ≡ out.old.items ++ spec.json_head segment) }
{
    append(b"{\"start\":", out)?;
    append_long(segment.start_offset, out)?;
    append(b",\"end\":", out)?;
    append_long(segment.end_offset, out)?;
    append(b",\"status\":", out)?;
    append_number(segment.status, out)?;
    append(b",\"text\":\"", out)
}

/// Appends the line of a segment up to its text, in a format with colours.
fn append_text_head(colors: Colors, segment: Segment, out: &mut Vec<u8>) -> Result<(), AllocError>
    ensures { OnOk result (out.new.items ≡ out.old.items ++ spec.text_head colors segment) }
{
    colors.begin(Color::Faint, out)?;
    append_plain_head(segment, out)?;
    colors.end(out)?;
    append(b" \"", out)
}

/// Appends what stands before the characters of a segment.
fn append_head(style: Style, segment: Segment, out: &mut Vec<u8>) -> Result<(), AllocError>
    ensures { OnOk result (out.new.items ≡ out.old.items
        ++ spec.head style.layout style.colors segment) }
{
    match style.layout {
        Layout::Text => append_text_head(style.colors, segment, out),
        Layout::Json => append_json_head(segment, out),
        Layout::Plain | Layout::Null => Ok(()),
    }
}

/// Appends what follows the characters of a segment.
fn append_tail(layout: Layout, out: &mut Vec<u8>) -> Result<(), AllocError>
    ensures { OnOk result (out.new.items ≡ out.old.items ++ spec.tail layout) }
{
    match layout {
        Layout::Text => append(b"\"\n", out),
        Layout::Json => append(b"\"}\n", out),
        Layout::Plain => append(b"\n", out),
        Layout::Null => append(b"\0", out),
    }
}

/// How characters stand in a line.
fn within(layout: Layout) -> Within
    ensures { result ≡ spec.within layout }
{
    match layout {
        Layout::Text => Within::Quotes,
        Layout::Json => Within::Json,
        Layout::Plain | Layout::Null => Within::Bare,
    }
}

/// Appends the characters of a segment, and puts what is too much to wait.
pub(crate) fn put_characters<K: Sink, L: Ledger>(
    layout: Layout,
    text: &PlainText,
    span: Span,
    out: &mut K,
    made: &mut Vec<u8>,
    steps: &mut Steps<L>,
) -> Result<(), WriteErr>
    requires some { span.from < span.to }
    requires within { span.to ≤ length text.now }
    ensures { OnOk result (IsBuffered (K.taken out.old) (K.taken out.new) (made.old.items
        ++ spec.shown_all (spec.within layout)
        (slice_range text.now span.from span.to)) made.new.items) }
{
    let within = within(layout);
    for i in span.from..span.to {
        append_character(text.char_at(i, steps), within, made)?;
        put_when_full(out, made)?;
    }
    Ok(())
}

/// Appends the line of a segment, and puts what is too much to wait.
pub(crate) fn put_line<K: Sink, L: Ledger>(
    style: Style,
    text: &PlainText,
    span: Span,
    segment: Segment,
    out: &mut K,
    made: &mut Vec<u8>,
    steps: &mut Steps<L>,
) -> Result<(), WriteErr>
    requires some { span.from < span.to }
    requires within { span.to ≤ length text.now }
    ensures { OnOk result (IsBuffered (K.taken out.old) (K.taken out.new) (made.old.items
        ++ spec.line style (slice_range text.now span.from span.to) segment) made.new.items) }
{
    append_head(style, segment, made)?;
    put_characters(style.layout, text, span, out, made, steps)?;
    append_tail(style.layout, made)?;
    put_when_full(out, made)
}

/// Puts the bytes that wait, and then none wait.
pub(crate) fn put_waiting<K: Sink>(out: &mut K, made: &mut Vec<u8>) -> Result<(), WriteErr>
    ensures { OnOk result (IsBuffered (K.taken out.old) (K.taken out.new)
        made.old.items made.new.items) }
{
    put_all(out, made)?;
    made.clear();
    Ok(())
}

impl Receive for Quoted {
    ghost use Rattle.rbbi_io.specs.Sinks.{Takes};
    ghost use Rattle.rbbi_segment.specs.Lines.{TakesLine, PutsWaiting};

    ghost takes = { TakesLine };

    ghost pauses = { PutsWaiting };

    ghost ends = { λ last before now. Takes before now last.made.items };

    fn take<K: Sink, L: Ledger>(
        &mut self,
        text: &PlainText,
        span: Span,
        segment: Segment,
        out: &mut K,
        steps: &mut Steps<L>,
    ) -> Result<(), WriteErr> {
        if !self.style.wanted.has(text, span, segment.status, steps) {
            return Ok(());
        }
        put_line(self.style, text, span, segment, out, &mut self.made, steps)
    }

    fn pause<K: Sink>(&mut self, out: &mut K) -> Result<(), WriteErr> {
        put_waiting(out, &mut self.made)
    }

    fn end<K: Sink>(&mut self, out: &mut K) -> Result<(), WriteErr> {
        put_all(out, &self.made)
    }
}
