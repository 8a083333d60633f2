//! Texts as lists of characters that are read one by one, and edited.
ghost use Rattle.std.specs.Prelude.{◌≡◌, ◌+◌, ◌<◌, ◌≤◌, ℕ, List, length, slice_index, chars};
ghost use Rattle.rbbi_model.specs.Words.{IsText, most_characters};
ghost use Rattle.rbbi_text.specs.Answers.{Replaces};
ghost use Rattle.rbbi_text.specs.Excerpts.{IsExcerptOf};

use crate::{EditErr, Excerpt, Steps};
use std::sync::ledger::Ledger;

/// A text: a list of at most 16,777,216 characters. No call but `char_at` gives characters.
pub trait Chars {
    /// The characters of the text, in order.
    ghost characters: { Self → List ℕ };

    /// The number of characters.
    fn len(&self) -> u32
        ensures exact { result ≡ length (characters self.now) }
        ensures text { IsText (characters self.now) }
        ensures most { length (characters self.now) ≤ most_characters };

    /// The character with this number, from 0. It counts one step.
    fn char_at<L: Ledger>(&self, i: u32, steps: &mut Steps<L>) -> char
        requires { i < length (characters self.now) }
        ensures character { result ≡ slice_index (characters self.now) i }
        ensures step { steps.new ≡ steps.old + 1 };

    /// Characters around a place, for a [`Near`]: those that lie next to each other in memory. By
    /// default none.
    fn excerpt(&self, i: u32) -> Excerpt<'_>
        requires { i ≤ length (characters self.now) }
        ensures { IsExcerptOf (characters self.now) result }
    {
        let _place = i;
        Excerpt::none()
    }
}

/// A text that can be edited.
pub trait EditText: Chars {
    /// Puts the characters of `insert` in place of `remove` characters from the place `at`, from 0.
    ///
    /// Refuses `Outside` where the text has fewer than `at + remove` characters, and otherwise
    /// `TooLong` where it would have more than 16,777,216 characters. After a refusal the text is
    /// as before.
    fn replace(&mut self, at: u32, remove: u32, insert: &str) -> Result<(), EditErr>
        ensures { Replaces (Self.characters self.old) at remove (chars insert.now) result
            (Self.characters self.new) };
}
