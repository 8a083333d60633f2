//! Texts that count how many of their characters are read.

use rbbi_text::{Chars, EditErr, EditText, Steps};
use std::cell::Cell;
use std::sync::ledger::Ledger;

/// A text, and the number of its characters that were read since they were asked for last.
#[derive(Drop)]
pub(crate) struct Counted<T> {
    text: T,
    reads: Cell<u32>,
}

impl<T> Counted<T> {
    pub(crate) fn new(text: T) -> Counted<T> {
        Counted {
            text,
            reads: Cell::new(0),
        }
    }

    /// The number of characters that were read since this was called last.
    pub(crate) fn reads(&self) -> u32 {
        let reads = self.reads.get();
        self.reads.set(0);
        reads
    }
}

impl<T: Chars> Chars for Counted<T> {
    ghost characters = { λ counted. T.characters counted.text };

    fn len(&self) -> u32 {
        self.text.len()
    }

    fn char_at<L: Ledger>(&self, i: u32, steps: &mut Steps<L>) -> char {
        self.reads.set(self.reads.get().wrapping_add(1));
        self.text.char_at(i, steps)
    }
}

impl<T: EditText> EditText for Counted<T> {
    fn replace(&mut self, at: u32, remove: u32, insert: &str) -> Result<(), EditErr> {
        self.text.replace(at, remove, insert)
    }
}
