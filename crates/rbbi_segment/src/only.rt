//! Which segments are asked for.
ghost use Rattle.std.specs.Prelude.{◌≡◌, ◌<◌, ◌≤◌, length, slice_range};
ghost use Rattle.rbbi_segment.specs.Wanted as spec;

use crate::segments::Span;
use rbbi_text::{Chars, PlainText, Steps, decimal};
use std::sync::ledger::Ledger;

/// All numbers from one to another, with both of them.
#[derive(Clone, Copy)]
pub(crate) struct Statuses {
    pub(crate) least: u32,
    pub(crate) greatest: u32,
}

/// The number that the text writes, or `absent` where it is empty.
fn end_or(text: &str, absent: u32) -> Option<u32> {
    if text.is_empty() {
        Some(absent)
    } else {
        decimal(text.as_bytes(), u32::MAX)
    }
}

impl Statuses {
    /// All statuses.
    pub(crate) const ALL: Statuses = Statuses {
        least: 0,
        greatest: u32::MAX,
    };

    /// The statuses that the text names: `N` alone, or `A..B`, `A..` or `..B` with both ends. None
    /// for any other text.
    pub(crate) fn of(text: &str) -> Option<Statuses> {
        match text.split_once("..") {
            Some((first, last)) => Some(Statuses {
                least: end_or(first, 0)?,
                greatest: end_or(last, u32::MAX)?,
            }),
            None => {
                let number = decimal(text.as_bytes(), u32::MAX)?;
                Some(Statuses {
                    least: number,
                    greatest: number,
                })
            }
        }
    }

    /// Whether the number is one of them.
    pub(crate) fn has(&self, status: u32) -> bool
        ensures { result ≡ spec.has self.now status }
    {
        self.least <= status && status <= self.greatest
    }
}

/// Which segments are asked for.
#[derive(Clone, Copy)]
pub(crate) struct Wanted {
    pub(crate) statuses: Statuses,
    /// Whether words alone are.
    pub(crate) only_words: bool,
}

impl Wanted {
    /// Whether a segment with this status is asked for, which stands there in the text.
    pub(crate) fn has<L: Ledger>(
        &self,
        text: &PlainText,
        span: Span,
        status: u32,
        steps: &mut Steps<L>,
    ) -> bool
        requires some { span.from < span.to }
        requires within { span.to ≤ length text.now }
        ensures { result ≡ spec.wants self.now (slice_range text.now span.from span.to) status }
    {
        self.statuses.has(status) && (!self.only_words || is_word(text, span.from, span.to, steps))
    }
}

/// Whether a letter or a digit stands in the text from one place to another.
fn is_word<L: Ledger>(text: &PlainText, start: u32, end: u32, steps: &mut Steps<L>) -> bool
    requires some { start < end }
    requires within { end ≤ length text.now }
    ensures { result ≡ spec.is_word (slice_range text.now start end) }
{
    for i in start..end {
        if text.char_at(i, steps).is_alphanumeric() {
            return true;
        }
    }
    false
}
