//! A text as the pairs that a session holds turn its characters.
ghost use Rattle.std.specs.Prelude.{◌≡◌};
ghost use Rattle.rbbi_filter.specs.Pairs.{turned};

use crate::Maps;
use rbbi_text::{Chars, Steps};
use std::marker::Model;
use std::sync::ledger::Ledger;

/// A text with its characters turned by what holds the pairs, as a [`Mapped`](crate::Mapped) is by
/// a closure. It takes no memory.
#[derive(Drop)]
pub(crate) struct Seen<'a, T: Chars, M: Maps> {
    text: &'a T,
    held: &'a M,
}

impl<'a, T: Chars, M: Maps> Model for Seen<'a, T, M> {
    ghost use Rattle.std.specs.Prelude.{List, ℕ};
    ghost use Rattle.rbbi_filter.specs.Pairs.{turned};

    ghost Value = { List ℕ };

    ghost view = { λ seen. turned (M.pairs_of seen.held.now) (T.characters seen.text.now) };
}

impl<'a, T: Chars, M: Maps> Seen<'a, T, M> {
    /// The text as the pairs turn its characters.
    pub(crate) fn new(text: &'a T, held: &'a M) -> Seen<'a, T, M>
        ensures { result ≡ turned (M.pairs_of held.now) (T.characters text.now) }
    {
        Seen { text, held }
    }
}

impl<T: Chars, M: Maps> Chars for Seen<'_, T, M> {
    ghost characters = { λ seen. seen };

    fn len(&self) -> u32 {
        self.held.pairs().turns_to_characters();
        self.text.len()
    }

    fn char_at<L: Ledger>(&self, i: u32, steps: &mut Steps<L>) -> char {
        // That the text has characters alone is known of its length.
        let _characters = self.text.len();
        self.held.turn(self.text.char_at(i, steps))
    }
}
