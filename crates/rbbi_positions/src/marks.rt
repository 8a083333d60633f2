//! Positions and their marks.
ghost use Rattle.std.specs.Prelude.{◌≡◌, ◌<◌, ◌+◌, ◌/◌, Some, length, slice_get, slice_index};
ghost use Rattle.std.specs.Option.{option_map};
ghost use Rattle.rbbi_bits.specs.BitRows.{row_bit};
ghost use Rattle.rbbi_positions.specs.PositionMarks.{followers_in, readers_in};

use crate::rule_mark::Mark;
use rbbi_bits::has;
use std::marker::Model;

/// The leaves of all rules, numbered from 0 in the order of the file, a rule's front before its
/// rest, with the marks of McNaughton and Yamada (1960) and Glushkov (1961): which of them are
/// first, last, or last of a front, and which may follow which. Contracts see the marks as a
/// `PositionMarks`; `ArePositions` says what they mean.
///
/// Sets of positions are rows of bits, so that the union of many of them is quick.
#[derive(Drop)]
pub struct Positions {
    pub(crate) leaves: u32,
    /// The number of categories, category 0 counted.
    pub(crate) categories: u16,
    /// The words of a row.
    pub(crate) words: usize,
    pub(crate) rules: Vec<Mark>,
    /// The rule of each position.
    pub(crate) owners: Vec<u32>,
    pub(crate) firsts: Vec<u64>,
    pub(crate) lasts: Vec<u64>,
    pub(crate) front_lasts: Vec<u64>,
    /// For each position the row of those that follow it.
    pub(crate) followers: Vec<u64>,
    /// For each category the row of the positions that read it.
    pub(crate) readers: Vec<u64>,
}

impl Model for Positions {
    ghost use Rattle.rbbi_positions.specs.PositionMarks.{PositionMarks, IsWhole};

    ghost Value = { PositionMarks };

    ghost use Rattle.rbbi_positions.specs.KeptMarks.{kept_marks};

    ghost view = { kept_marks };

    ghost invariant = { λ p. IsWhole (kept_marks p) };
}

impl Positions {
    /// The number of positions.
    pub fn leaves(&self) -> u32
        ensures { result ≡ self.now.leaves }
    {
        self.leaves
    }

    /// The number of rules.
    pub fn rules(&self) -> u32
        ensures { result ≡ length self.now.rules }
    {
        self.rules.len() as u32
    }

    /// The rule of a position.
    pub fn rule(&self, leaf: u32) -> u32
        requires { leaf < self.now.leaves }
        ensures { result ≡ slice_index self.now.owners leaf }
    {
        self.owners[leaf as usize]
    }

    /// The row of the positions that some list that a rule spells begins with: position `p` is bit
    /// `p % 64` of word `p / 64`.
    pub fn firsts(&self) -> &[u64]
        ensures row { result.now ≡ self.now.firsts }
        ensures wide { length result.now ≡ self.now.words }
    {
        &self.firsts
    }

    /// The row of the positions that some list that a rule spells ends with.
    pub fn lasts(&self) -> &[u64]
        ensures row { result.now ≡ self.now.lasts }
        ensures wide { length result.now ≡ self.now.words }
    {
        &self.lasts
    }

    /// The row of the positions that some list that a rule's front spells ends with.
    pub fn front_lasts(&self) -> &[u64]
        ensures row { result.now ≡ self.now.front_lasts }
        ensures wide { length result.now ≡ self.now.words }
    {
        &self.front_lasts
    }

    /// Whether a match may be extended with the rule from its last character on.
    pub fn chained_into(&self, rule: u32) -> bool
        requires { rule < length self.now.rules }
        ensures { option_map (λ mark. mark.chained_into)
            (slice_get self.now.rules rule) ≡ Some result }
    {
        let found = self.rules[rule as usize];
        found.chained_into
    }

    /// The status number of a rule.
    pub fn tag(&self, rule: u32) -> Option<u32>
        requires { rule < length self.now.rules }
        ensures { option_map (λ mark. mark.tag) (slice_get self.now.rules rule) ≡ Some result }
    {
        let found = self.rules[rule as usize];
        found.tag
    }

    /// The number of a rule among the look-ahead rules, from 0, and None for a plain rule.
    pub fn slash(&self, rule: u32) -> Option<u32>
        requires { rule < length self.now.rules }
        ensures { option_map (λ mark. mark.slash) (slice_get self.now.rules rule) ≡ Some result }
    {
        let found = self.rules[rule as usize];
        found.slash
    }

    /// The words of a row, of 64 bits each.
    pub fn words(&self) -> usize
        ensures value { result ≡ self.now.words }
        ensures few { result ≡ (self.now.leaves + 63) / 64 }
    {
        self.words
    }

    /// The row of the positions that stand right after this one in some list that a rule spells.
    pub fn followers(&self, leaf: u32) -> &[u64]
        requires { leaf < self.now.leaves }
        ensures row { result.now ≡ followers_in self.now leaf }
        ensures wide { length result.now ≡ self.now.words }
    {
        let from = leaf as usize * self.words;
        &self.followers[from..from + self.words]
    }

    /// The row of the positions whose leaves' sets hold the code points of a category.
    pub fn readers(&self, category: u16) -> &[u64]
        requires { category < self.now.categories }
        ensures row { result.now ≡ readers_in self.now category }
        ensures wide { length result.now ≡ self.now.words }
    {
        let from = category as usize * self.words;
        &self.readers[from..from + self.words]
    }

    /// Whether some list that a rule spells begins with the position.
    pub fn is_first(&self, leaf: u32) -> bool
        requires { leaf < self.now.leaves }
        ensures { result ≡ row_bit self.now.firsts leaf }
    {
        has(self.firsts(), leaf as usize)
    }

    /// Whether some list that a rule spells ends with the position.
    pub fn is_last(&self, leaf: u32) -> bool
        requires { leaf < self.now.leaves }
        ensures { result ≡ row_bit self.now.lasts leaf }
    {
        has(self.lasts(), leaf as usize)
    }

    /// Whether some list that a rule's front spells ends with the position.
    pub fn is_front_last(&self, leaf: u32) -> bool
        requires { leaf < self.now.leaves }
        ensures { result ≡ row_bit self.now.front_lasts leaf }
    {
        has(self.front_lasts(), leaf as usize)
    }

    /// Whether the position `then` stands right after this one in some list that a rule spells.
    pub fn follows(&self, leaf: u32, then: u32) -> bool
        requires leaf { leaf < self.now.leaves }
        requires next { then < self.now.leaves }
        ensures { result ≡ row_bit (followers_in self.now leaf) then }
    {
        has(self.followers(leaf), then as usize)
    }

    /// Whether the set of the position's leaf holds the code points of a category.
    pub fn reads(&self, leaf: u32, category: u16) -> bool
        requires leaf { leaf < self.now.leaves }
        requires category { category < self.now.categories }
        ensures { result ≡ row_bit (readers_in self.now category) leaf }
    {
        has(self.readers(category), leaf as usize)
    }
}
