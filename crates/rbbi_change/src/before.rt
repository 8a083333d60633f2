//! The text before an edit, read off the text after it.
ghost use Rattle.std.specs.Prelude.{◌≡◌, ◌+◌, ◌≤◌, ℕ, List, length, slice_range};
ghost use Rattle.rbbi_model.specs.Scripts.{splice};
ghost use Rattle.rbbi_model.specs.Words.{most_characters};
ghost use Rattle.rbbi_cache.specs.Edits.{IsSpliced};

use rbbi_text::{Chars, Steps};
use std::marker::Model;
use std::sync::ledger::Ledger;

/// A text as it was before an edit: the text after it, with what was removed in place of what was
/// inserted. It takes no memory.
#[derive(Drop)]
pub struct Before<'a, T: Chars, R: Chars> {
    text: &'a T,
    /// The characters that the edit removed.
    removed: &'a R,
    at: u32,
    /// How many it inserted.
    inserted: u32,
}

impl<'a, T: Chars, R: Chars> Model for Before<'a, T, R> {
    ghost use Rattle.std.specs.Prelude.{List, ℕ, ◌+◌, ◌≤◌, length};
    ghost use Rattle.rbbi_model.specs.Scripts.{splice};
    ghost use Rattle.rbbi_model.specs.Words.{most_characters};

    ghost Value = { List ℕ };

    ghost view = { λ before. splice (T.characters before.text.now) before.at before.inserted
        (R.characters before.removed.now) };

    ghost invariant = { λ before.
        (before.at + before.inserted ≤ length (T.characters before.text.now))
        × (length (splice (T.characters before.text.now) before.at before.inserted
        (R.characters before.removed.now)) ≤ most_characters) };
}

impl<'a, T: Chars, R: Chars> Before<'a, T, R> {
    /// The text before an edit that put so many characters in place of those removed, from `at` on.
    /// Where they are the characters that the edit removed, it is the text as it was.
    pub fn new(text: &'a T, removed: &'a R, at: u32, inserted: u32) -> Before<'a, T, R>
        requires within { at + inserted ≤ length (T.characters text.now) }
        requires most { length (splice (T.characters text.now) at inserted
            (R.characters removed.now)) ≤ most_characters }
        ensures spliced { result
            ≡ splice (T.characters text.now) at inserted (R.characters removed.now) }
        ensures old { (old : List ℕ) → IsSpliced old (T.characters text.now) at
            (length (R.characters removed.now)) inserted → R.characters removed.now
            ≡ slice_range old at (at + length (R.characters removed.now)) → result ≡ old }
    {
        Before {
            text,
            removed,
            at,
            inserted,
        }
    }
}

impl<T: Chars, R: Chars> Chars for Before<'_, T, R> {
    ghost characters = { λ before. before };

    fn len(&self) -> u32 {
        self.text.len() - self.inserted + self.removed.len()
    }

    fn char_at<L: Ledger>(&self, i: u32, steps: &mut Steps<L>) -> char {
        let _length = self.text.len();
        let count = self.removed.len();
        if i < self.at {
            return self.text.char_at(i, steps);
        }
        if i - self.at < count {
            return self.removed.char_at(i - self.at, steps);
        }
        self.text.char_at(i - count + self.inserted, steps)
    }
}
