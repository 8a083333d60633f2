//! Texts with a stretch of their characters at hand.
ghost use Rattle.std.specs.Prelude.{◌≡◌, ◌+◌, ◌<◌, ◌≤◌, length, slice_index};

use crate::{Chars, Excerpt, Steps};
use std::marker::Model;
use std::sync::ledger::Ledger;

/// A text with an excerpt of it at hand. It has the same characters, and those of the excerpt are
/// found in fewer instructions. It takes no memory.
#[derive(Drop)]
pub struct Near<'a, T: Chars> {
    text: &'a T,
    excerpt: Excerpt<'a>,
}

impl<'a, T: Chars> Model for Near<'a, T> {
    ghost use Rattle.std.specs.Prelude.{List, ℕ};
    ghost use Rattle.rbbi_text.specs.Excerpts.{IsExcerptOf};

    ghost Value = { List ℕ };

    ghost view = { λ near. T.characters near.text.now };

    ghost invariant = { λ near. IsExcerptOf (T.characters near.text.now) near.excerpt };
}

impl<'a, T: Chars> Near<'a, T> {
    /// The text, with the characters around a place at hand.
    pub fn new(text: &'a T, i: u32) -> Near<'a, T>
        requires { i ≤ length (T.characters text.now) }
        ensures { result ≡ T.characters text.now }
    {
        Near {
            text,
            excerpt: text.excerpt(i),
        }
    }
}

impl<T: Chars> Chars for Near<'_, T> {
    ghost characters = { λ near. near };

    fn len(&self) -> u32 {
        self.text.len()
    }

    #[inline]
    fn char_at<L: Ledger>(&self, i: u32, steps: &mut Steps<L>) -> char {
        match self.excerpt.get(i) {
            Some(c) => {
                steps.tick();
                c
            }
            None => far(self.text, i, steps),
        }
    }
}

/// A character that isn't at hand. It is a call of its own, so that what stands at hand takes few
/// instructions wherever it is read.
#[inline(never)]
fn far<T: Chars, L: Ledger>(text: &T, i: u32, steps: &mut Steps<L>) -> char
    requires { i < length (T.characters text.now) }
    ensures character { result ≡ slice_index (T.characters text.now) i }
    ensures step { steps.new ≡ steps.old + 1 }
{
    text.char_at(i, steps)
}
