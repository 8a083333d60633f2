//! How many segments there are of each status.

use crate::numbers::append_long;
use crate::only::Wanted;
use crate::quoted::put_waiting;
use crate::segments::{Receive, Segment, Span};
use rbbi_io::{Sink, WriteErr, put_all};
use rbbi_text::{PlainText, Steps, append, append_number};
use std::alloc::{AllocError, Global};
use std::collections::BTreeMap;
use std::sync::ledger::Ledger;

/// Statuses below this are counted in a list, which is quicker than a map.
const SMALL: usize = 1024;

/// Counts the segments that are asked for, and puts a line for each status, with how many segments
/// have it, and a last one with how many there are of all.
#[derive(Drop)]
pub(crate) struct Tally {
    wanted: Wanted,
    small: Vec<u64>,
    large: BTreeMap<u32, u64>,
    made: Vec<u8>,
}

/// Appends a line: a status, and how many segments there are.
fn append_line(status: u32, count: u64, out: &mut Vec<u8>) -> Result<(), AllocError> {
    append_number(status, out)?;
    append_count(count, out)
}

/// Appends the end of a line: how many segments there are.
fn append_count(count: u64, out: &mut Vec<u8>) -> Result<(), AllocError> {
    append(b" ", out)?;
    append_long(count, out)?;
    append(b"\n", out)
}

impl Tally {
    /// No segment is counted.
    pub(crate) fn new(alloc: Global, wanted: Wanted) -> Tally {
        Tally {
            wanted,
            small: Vec::new(alloc),
            large: BTreeMap::new(alloc),
            made: Vec::new(alloc),
        }
    }

    /// Counts a segment of this status.
    fn count(&mut self, status: u32) -> Result<(), AllocError> {
        if self.small.is_empty() {
            self.small.resize(SMALL, 0)?;
        }
        if let Some(count) = self.small.get_mut(status as usize) {
            *count = count.saturating_add(1);
            return Ok(());
        }
        let count = self.large.entry(status)?.or_insert(0);
        *count = count.saturating_add(1);
        Ok(())
    }

    /// Appends the lines of all statuses, and answers how many segments there are.
    fn append_lines(&mut self) -> Result<u64, AllocError> {
        let mut total: u64 = 0;
        let mut status: u32 = 0;
        for count in &self.small {
            if *count > 0 {
                append_line(status, *count, &mut self.made)?;
                total = total.saturating_add(*count);
            }
            status = status.saturating_add(1);
        }
        for (status, count) in self.large.iter() {
            append_line(*status, *count, &mut self.made)?;
            total = total.saturating_add(*count);
        }
        Ok(total)
    }
}

impl Receive for Tally {
    fn take<K: Sink, L: Ledger>(
        &mut self,
        text: &PlainText,
        span: Span,
        segment: Segment,
        _out: &mut K,
        steps: &mut Steps<L>,
    ) -> Result<(), WriteErr> {
        if self.wanted.has(text, span, segment.status, steps) {
            self.count(segment.status)?;
        }
        Ok(())
    }

    fn pause<K: Sink>(&mut self, out: &mut K) -> Result<(), WriteErr> {
        put_waiting(out, &mut self.made)
    }

    fn end<K: Sink>(&mut self, out: &mut K) -> Result<(), WriteErr> {
        let total = self.append_lines()?;
        append(b"total", &mut self.made)?;
        append_count(total, &mut self.made)?;
        put_all(out, &self.made)
    }
}
