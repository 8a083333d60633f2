//! The classes of sets of code points, and whether some hold a character.
ghost use Rattle.std.specs.Prelude.{◌≡◌, ◌≤◌, ◌<◌, ◌↔◌, ◌+◌, ◌*◌, ℕ, IfOk, IsTrue, length, false};
ghost use Rattle.rbbi_model.specs.Words.{IsSurrogate};
ghost use Rattle.rbbi_model.specs.Ranges.{Has};
ghost use Rattle.rbbi_classes.specs.Classes.{class_of, IsFirstOfClass, HasMember};
ghost use Rattle.rbbi_classes.specs.inner.ClassRanges.{AreSurrogates};

use crate::{ClassSet, Layout};
use rbbi_bits::is_set;
use rbbi_sets::CodeSet;
use std::alloc::{AllocError, Global};

impl ClassSet {
    /// The classes whose first code points are those from `low` to `high`, both counted.
    pub fn range(
        alloc: Global,
        layout: &Layout,
        low: u32,
        high: u32,
    ) -> Result<ClassSet, AllocError>
        ensures { IfOk result (λ set. (c : ℕ) → IsFirstOfClass layout.now c →
            HasMember layout.now set c ↔ ((low ≤ c) × (c ≤ high))) }
    {
        match layout.span(low, high) {
            Some(span) => ClassSet::of_span(alloc, span),
            None => Ok(ClassSet::empty(alloc)),
        }
    }

    /// The classes whose first code points are in the set.
    pub fn of_set(alloc: Global, layout: &Layout, set: &CodeSet) -> Result<ClassSet, AllocError>
        ensures { IfOk result (λ classes. (c : ℕ) → IsFirstOfClass layout.now c →
            HasMember layout.now classes c ↔ Has set.now c) }
    {
        let mut classes = ClassSet::empty(alloc);
        for range in set.ranges() {
            let more = ClassSet::range(alloc, layout, range.low, range.high)?;
            classes = classes.union(alloc, more)?;
        }
        Ok(classes)
    }

    /// Whether the first code point of a class in the set is a character, and no surrogate (0xD800
    /// to 0xDFFF).
    pub fn holds_character(&self, layout: &Layout) -> bool
        ensures { IsTrue result ↔ ((c : ℕ) × IsFirstOfClass layout.now c
            × HasMember layout.now self.now c × ¬ IsSurrogate c) }
    {
        for i in self.from()..word_count(self, layout) {
            if self.word(i) != 0 && word_holds_character(layout, self, i) {
                return true;
            }
        }
        false
    }
}

/// The number of the word from which on the set has no class of the layout.
fn word_count(set: &ClassSet, layout: &Layout) -> usize
    ensures within { (i : ℕ) → i < result → 64 * i ≤ length layout.now }
    ensures end { result ≤ set.now.from + length set.now.words }
    ensures all { (c : ℕ) → HasMember layout.now set.now c
        → class_of layout.now c < 64 * result }
{
    set.end_word().min(layout.last_class() / 64 + 1)
}

/// Whether one word has a class whose first code point is a character.
fn word_holds_character(layout: &Layout, set: &ClassSet, i: usize) -> bool
    requires { 64 * i ≤ length layout.now }
    ensures some { IsTrue result → (c : ℕ) × IsFirstOfClass layout.now c
        × HasMember layout.now set.now c × ¬ IsSurrogate c }
    ensures none { result ≡ false → AreSurrogates layout.now set.now (64 * i) (64 * i + 64) }
{
    let last = layout.last_class();
    let first = 64 * i;
    // Bits past that of the last class stand for none, and may be set.
    let count = (last - first).min(63) + 1;
    let word = set.word(i);
    for bit in 0..count {
        if is_set(word, bit) {
            let c = layout.first_of(first + bit);
            if c < 0xD800 || 0xDFFF < c {
                return true;
            }
        }
    }
    false
}
