//! Characters of a text that stand next to each other in memory.
ghost use Rattle.std.specs.Prelude.{◌≡◌, ◌+◌, ◌-◌, ◌≤◌, ℕ, List, length, slice_index, ⊤, IsTrue};
ghost use Rattle.std.specs.Prelude.{MatchOption};
ghost use Rattle.rbbi_model.specs.Units.{offset_of};
ghost use Rattle.rbbi_text.specs.Excerpts.{IsExcerptOf};

use crate::measure::{are_single, taken_between};
use crate::{Chars, FlatText, Steps, Unit};
use std::marker::Model;
use std::sync::ledger::Ledger;

/// Characters of a text that stand next to each other, as a text of their own.
#[derive(Drop)]
pub struct Excerpt<'a> {
    pub(crate) from: u32,
    pub(crate) items: &'a [char],
}

impl<'a> Model for Excerpt<'a> {
    ghost use Rattle.std.specs.Prelude.{◌+◌, ◌^◌, ◌≤◌, length};
    ghost use Rattle.rbbi_text.specs.Excerpts.{Excerpt};
    ghost use Rattle.rbbi_text.specs.Texts.{IsShortText};

    ghost Value = { Excerpt };

    ghost view = { λ excerpt. record { from = excerpt.from; items = excerpt.items.now } };

    ghost invariant = { λ excerpt. IsShortText excerpt.items.now
        × (excerpt.from + length excerpt.items.now ≤ 2 ^ 32) };
}

impl<'a> Excerpt<'a> {
    /// No characters, which every text has.
    pub fn none() -> Excerpt<'a>
        ensures { (x : List ℕ) → IsExcerptOf x result }
    {
        Excerpt {
            from: 0,
            items: &[],
        }
    }

    /// Where the first of them is in the text.
    #[inline]
    pub fn from(&self) -> u32
        ensures { result ≡ self.now.from }
    {
        self.from
    }

    /// Whether each of the characters from one number to another takes one of the unit.
    pub fn are_single(&self, unit: Unit, from: u32, to: u32) -> bool
        requires forward { from ≤ to }
        requires within { to ≤ length self.now.items }
        ensures { IsTrue result → offset_of unit self.now.items from + (to - from)
            ≡ offset_of unit self.now.items to }
    {
        are_single(&self.items[from as usize..to as usize], unit)
    }

    /// The character at a place of the text, if it is one of these.
    #[inline(always)]
    pub(crate) fn get(&self, i: u32) -> Option<char>
        ensures { (x : List ℕ) → IsExcerptOf x self.now →
            MatchOption result ⊤ (λ c. c ≡ slice_index x i) }
    {
        // Before the first of them this is past the last.
        let k = i.wrapping_sub(self.from) as usize;
        if k < self.items.len() {
            Some(self.items[k])
        } else {
            None
        }
    }
}

impl Chars for Excerpt<'_> {
    ghost characters = { λ excerpt. excerpt.items };

    fn len(&self) -> u32 {
        self.items.len() as u32
    }

    fn char_at<L: Ledger>(&self, i: u32, steps: &mut Steps<L>) -> char {
        steps.tick();
        self.items[i as usize]
    }
}

impl FlatText for Excerpt<'_> {
    fn units_between(&self, unit: Unit, from: u32, to: u32) -> u32 {
        taken_between(self.items, unit, from, to)
    }
}
