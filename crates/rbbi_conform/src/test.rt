//! A test, and the list of the tests of a file.
ghost use Rattle.std.specs.Prelude.{◌≡◌, ◌-◌, ◌≤◌, length, slice_index_or, false};

use rbbi_text::{PlainText, Values};
use std::marker::Model;

/// A text, and for each place after one of its characters whether a boundary is marked there.
#[derive(Drop)]
pub struct Test {
    line: u32,
    text: PlainText,
    /// The mark of place `i` has number `i - 1`.
    marks: Vec<bool>,
}

impl Model for Test {
    ghost use Rattle.std.specs.Prelude.{◌≡◌, length};
    ghost use Rattle.rbbi_conform.specs.Tests.{Test};

    ghost Value = { Test };

    ghost view = { λ test. record {
      line = test.line;
      text = test.text;
      marks = test.marks.items;
    } };

    ghost invariant = { λ test. length test.marks.items ≡ length test.text };
}

impl Test {
    /// The test of a line.
    pub(crate) fn new(line: u32, text: PlainText, marks: Vec<bool>) -> Test
        requires { length marks.items ≡ length text }
        ensures { result ≡ record { line = line; text = text; marks = marks.items } }
    {
        Test { line, text, marks }
    }

    /// The line of the file, from 1.
    pub fn line(&self) -> u32
        ensures { result ≡ self.now.line }
    {
        self.line
    }

    /// The text.
    pub fn text(&self) -> &PlainText
        ensures { result.now ≡ self.now.text }
    {
        &self.text
    }

    /// Whether a boundary is marked at this place, in characters from 0. The place before the first
    /// character isn't compared, and has no mark here.
    pub fn mark(&self, i: u32) -> bool
        requires first { 1 ≤ i }
        requires last { i ≤ length self.now.text }
        ensures { result ≡ slice_index_or self.now.marks (i - 1) false }
    {
        self.marks[i as usize - 1]
    }
}

/// The tests of a file, in order. Contracts see it as their list.
pub type Tests = Values<Test>;
