//! A text whose characters are turned by a map.
ghost use Rattle.std.specs.Prelude.{◌≡◌};
ghost use Rattle.rbbi_filter.specs.Closures.{Turns};
ghost use Rattle.rbbi_filter.specs.Pairs.{turned};

use crate::{CharMap, Tailoring};
use rbbi_text::{Chars, Steps};
use std::marker::Model;
use std::sync::ledger::Ledger;

/// A text in which each character is turned into another one, by a map that does what some pairs
/// say. Contracts see it as the list of the characters that it has so. It takes no memory.
#[derive(Drop)]
pub struct Mapped<'a, T: Chars, G: CharMap> {
    text: &'a T,
    /// The pairs by which the map turns characters.
    pairs: &'a Tailoring,
    map: &'a G,
}

impl<'a, T: Chars, G: CharMap> Model for Mapped<'a, T, G> {
    ghost use Rattle.std.specs.Prelude.{List, ℕ};
    ghost use Rattle.rbbi_filter.specs.Pairs.{turned};
    ghost use Rattle.rbbi_filter.specs.Closures.{Turns};

    ghost Value = { List ℕ };

    ghost view = { λ mapped. turned mapped.pairs.now (T.characters mapped.text.now) };

    ghost invariant = { λ mapped.
        Turns (G.can_map mapped.map.now) (G.maps mapped.map.now) mapped.pairs.now };
}

impl<'a, T: Chars, G: CharMap> Mapped<'a, T, G> {
    /// The text as the map turns its characters: as these pairs say.
    pub fn new(text: &'a T, pairs: &'a Tailoring, map: &'a G) -> Mapped<'a, T, G>
        requires { Turns (G.can_map map.now) (G.maps map.now) pairs.now }
        ensures { result ≡ turned pairs.now (T.characters text.now) }
    {
        Mapped { text, pairs, map }
    }
}

impl<T: Chars, G: CharMap> Chars for Mapped<'_, T, G> {
    ghost characters = { λ mapped. mapped };

    fn len(&self) -> u32 {
        self.pairs.turns_to_characters();
        self.text.len()
    }

    fn char_at<L: Ledger>(&self, i: u32, steps: &mut Steps<L>) -> char {
        // That the text has characters alone is known of its length.
        let _characters = self.text.len();
        self.map.map(self.text.char_at(i, steps))
    }
}
