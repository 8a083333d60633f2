//! Counts of expressions without expanding them.
ghost use Rattle.std.specs.Prelude.{◌≡◌, ◌+◌, ◌≤◌, ◌&&◌, ◌||◌, ℕ, Bool, true, max, length};
ghost use Rattle.std.specs.Prelude.{if◌then◌else◌};
ghost use Rattle.rbbi_resolve.specs.inner.Summaries.{IsCapped, Sums, Summarizes, empty_of_quant};
ghost use Rattle.rbbi_resolve.specs.Expressions.{word_of, height_of_word, height_of_quant};

use crate::variables::{MANY_LEAVES, Summary, TALL};
use rbbi_text::Word;
use rbbi_tree::Quant;

/// The sum of two numbers, at most the cap.
fn capped_sum(left: u32, right: u32, cap: u32) -> u32
    requires left_low { left ≤ 65536 }
    requires right_low { right ≤ 65536 }
    ensures within { result ≤ cap }
    ensures sum { (a b : ℕ) → IsCapped cap a left → IsCapped cap b right →
        IsCapped cap (a + b) result }
{
    let sum = left + right;
    if sum > cap { cap } else { sum }
}

/// The greater of two capped numbers.
fn greater(left: u32, right: u32) -> u32
    ensures within { (cap : ℕ) → left ≤ cap → right ≤ cap → result ≤ cap }
    ensures greater { (cap a b : ℕ) → IsCapped cap a left → IsCapped cap b right →
        IsCapped cap (max a b) result }
{
    if left < right { right } else { left }
}

/// The number of characters of a word.
pub(crate) fn count_of(word: &Word) -> usize
    ensures { result ≡ length word.now }
{
    word.as_str().chars().count()
}

/// A number of leaves, at most the cap.
fn capped(count: usize) -> u32
    ensures { IsCapped 8193 count result }
{
    if count < MANY_LEAVES as usize {
        count as u32
    } else {
        MANY_LEAVES
    }
}

impl Summary {
    /// So many leaves without height, and whether they spell the empty word.
    pub(crate) fn flat(leaves: u32, spells_empty: bool) -> Summary
        requires { leaves ≤ 8193 }
        ensures { Sums result leaves 0 spells_empty }
    {
        Summary {
            leaves,
            height: 0,
            spells_empty,
        }
    }

    /// A quoted sequence.
    pub(crate) fn of_word(word: &Word) -> Summary
        ensures { Summarizes result (word_of word.now) (height_of_word word.now) }
    {
        let len = count_of(word);
        Summary {
            leaves: capped(len),
            height: if len > 1 { 1 } else { 0 },
            spells_empty: len == 0,
        }
    }

    /// The choice of the two; its height is the greater one.
    pub(crate) fn or(self, other: Summary) -> Summary
        ensures { (a b h k : ℕ) (e f : Bool) → Sums self a h e → Sums other b k f
            → Sums result (a + b) (max h k) (e || f) }
    {
        Summary {
            leaves: capped_sum(self.leaves, other.leaves, MANY_LEAVES),
            height: greater(self.height, other.height),
            spells_empty: self.spells_empty || other.spells_empty,
        }
    }

    /// The sequence of the two; its height is the greater one.
    pub(crate) fn then(self, other: Summary) -> Summary
        ensures { (a b h k : ℕ) (e f : Bool) → Sums self a h e → Sums other b k f
            → Sums result (a + b) (max h k) (e && f) }
    {
        Summary {
            leaves: capped_sum(self.leaves, other.leaves, MANY_LEAVES),
            height: greater(self.height, other.height),
            spells_empty: self.spells_empty && other.spells_empty,
        }
    }

    /// The same, higher by 1.
    pub(crate) fn higher(self) -> Summary
        ensures { (a h : ℕ) (e : Bool) → Sums self a h e → Sums result a (h + 1) e }
    {
        Summary {
            leaves: self.leaves,
            height: capped_sum(self.height, 1, TALL),
            spells_empty: self.spells_empty,
        }
    }

    /// The same, higher by 1 if it has several parts.
    pub(crate) fn raised(self, many: bool) -> Summary
        ensures { (a h : ℕ) (e : Bool) → Sums self a h e →
            Sums result a (h + (if many then 1 else 0)) e }
    {
        if many { self.higher() } else { self }
    }

    /// The same or the empty word, higher by 1.
    fn optional(self) -> Summary
        ensures { (a h : ℕ) (e : Bool) → Sums self a h e → Sums result a (h + 1) true }
    {
        Summary {
            leaves: self.leaves,
            height: capped_sum(self.height, 1, TALL),
            spells_empty: true,
        }
    }

    /// The repetition by the quantifier.
    pub(crate) fn repeated(self, quant: Quant) -> Summary
        ensures { (a h : ℕ) (e : Bool) → Sums self a h e
            → Sums result a (h + height_of_quant quant) (empty_of_quant quant e) }
    {
        match quant {
            Quant::Once => self,
            Quant::Plus => self.higher(),
            Quant::Star => self.optional(),
            Quant::Quest => self.optional(),
        }
    }
}
