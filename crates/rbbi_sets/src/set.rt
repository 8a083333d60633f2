//! A set of code points.
ghost use Rattle.std.specs.Prelude.{◌≡◌, ◌≤◌, ◌↔◌, ◌⊎◌, ◌∷◌, [], ℕ};
ghost use Rattle.std.specs.Prelude.{IfOk, IfSome, OnOk, IsNone, IsTrue};
ghost use Rattle.std.specs.Result.{OnErr};
ghost use Rattle.std.specs.List.{All};
ghost use Rattle.rbbi_model.specs.Words.{IsSurrogate};
ghost use Rattle.rbbi_model.specs.Ranges.{Has};
ghost use Rattle.rbbi_sets.specs.Rising.{AreRising, IsRange};

use crate::CodeRange;
use crate::join::join_last;
use crate::sweep::{Operation, sweep};
use std::alloc::{AllocError, Global};
use std::marker::Model;

/// A set of code points. Contracts see it as its list of ranges, which rise and neither overlap nor
/// touch.
#[derive(Clone, Drop)]
pub struct CodeSet {
    ranges: Vec<CodeRange>,
}

impl Model for CodeSet {
    ghost use Rattle.std.specs.Prelude.{List};
    ghost use Rattle.rbbi_model.specs.Ranges.{Range};
    ghost use Rattle.rbbi_sets.specs.Rising.{AreRising};

    ghost Value = { List Range };

    ghost view = { λ set. set.ranges.items };

    ghost invariant = { λ set. AreRising set.ranges.items };
}

impl CodeSet {
    /// The empty set.
    pub fn empty(alloc: Global) -> CodeSet
        ensures { result ≡ [] }
    {
        CodeSet {
            ranges: Vec::new(alloc),
        }
    }

    /// The code points from `low` to `high`, both counted.
    pub fn range(alloc: Global, low: u32, high: u32) -> Result<CodeSet, AllocError>
        requires ordered { low ≤ high }
        requires code_points { high ≤ 0x10FFFF }
        ensures { IfOk result (λ set. set ≡ record { low = low; high = high } ∷ []) }
    {
        let mut ranges = Vec::new(alloc);
        ranges.push(CodeRange { low, high })?;
        Ok(CodeSet { ranges })
    }

    /// The union of many ranges, which may come in any order, overlap and touch. It sorts them and
    /// joins them in one pass.
    pub fn from_ranges(alloc: Global, ranges: Vec<CodeRange>) -> Result<CodeSet, AllocError>
        requires { All IsRange ranges.items }
        ensures members { IfOk result (λ set. (c : ℕ) → Has set c ↔ Has ranges.items c) }
        ensures form { IfOk result (λ set. AreRising set) }
    {
        let mut sorted = ranges;
        sorted.sort_unstable_by_key(|range| range.low);
        let mut joined = Vec::new(alloc);
        for range in &sorted {
            join_last(&mut joined, range.low, range.high)?;
        }
        Ok(CodeSet { ranges: joined })
    }

    /// The set of ranges that have the form of a set.
    pub fn from_rising(ranges: Vec<CodeRange>) -> CodeSet
        requires { AreRising ranges.items }
        ensures { result ≡ ranges.items }
    {
        CodeSet { ranges }
    }

    /// Adds the code points from `low` to `high` after the others. A last range that overlaps or
    /// touches them takes them in. If it is refused, the set is as it was.
    pub fn push(&mut self, low: u32, high: u32) -> Result<(), AllocError>
        requires ordered { low ≤ high }
        requires code_points { high ≤ 0x10FFFF }
        requires behind { (c : ℕ) → Has self.old c → c ≤ low }
        ensures members { OnOk result ((c : ℕ) →
            Has self.new c ↔ (Has self.old c ⊎ ((low ≤ c) × (c ≤ high)))) }
        ensures form { OnOk result (AreRising self.new) }
        ensures refused { OnErr result (self.new ≡ self.old) }
    {
        join_last(&mut self.ranges, low, high)?;
        Ok(())
    }

    /// The union.
    pub fn union(&self, alloc: Global, other: &CodeSet) -> Result<CodeSet, AllocError>
        ensures members { IfOk result (λ set. (c : ℕ) →
            Has set c ↔ (Has self.now c ⊎ Has other.now c)) }
        ensures form { IfOk result (λ set. AreRising set) }
    {
        sweep(alloc, self, other, Operation::Union)
    }

    /// The intersection.
    pub fn intersect(&self, alloc: Global, other: &CodeSet) -> Result<CodeSet, AllocError>
        ensures members { IfOk result (λ set. (c : ℕ) →
            Has set c ↔ (Has self.now c × Has other.now c)) }
        ensures form { IfOk result (λ set. AreRising set) }
    {
        sweep(alloc, self, other, Operation::Intersect)
    }

    /// The difference: what is in this set and not in the other.
    pub fn minus(&self, alloc: Global, other: &CodeSet) -> Result<CodeSet, AllocError>
        ensures members { IfOk result (λ set. (c : ℕ) →
            Has set c ↔ (Has self.now c × ¬ Has other.now c)) }
        ensures form { IfOk result (λ set. AreRising set) }
    {
        sweep(alloc, self, other, Operation::Minus)
    }

    /// The complement: the code points, from 0 to 0x10FFFF, that aren't in this set.
    pub fn complement(&self, alloc: Global) -> Result<CodeSet, AllocError>
        ensures members { IfOk result (λ set. (c : ℕ) →
            Has set c ↔ ((c ≤ 0x10FFFF) × ¬ Has self.now c)) }
        ensures form { IfOk result (λ set. AreRising set) }
    {
        let all = CodeSet::range(alloc, 0, 0x10_FFFF)?;
        all.minus(alloc, self)
    }

    /// Whether the code point is in the set, by a binary search.
    pub fn has(&self, c: u32) -> bool
        ensures { IsTrue result ↔ Has self.now c }
    {
        let next = self.ranges.partition_point(|range| range.high < c);
        next < self.ranges.len() && self.ranges[next].low <= c
    }

    /// Whether a character is in the set, and not surrogates (0xD800 to 0xDFFF) alone.
    pub fn holds_character(&self) -> bool
        ensures { IsTrue result ↔ ((c : ℕ) × Has self.now c × ¬ IsSurrogate c) }
    {
        for range in &self.ranges {
            if range.low < 0xD800 || 0xDFFF < range.high {
                return true;
            }
        }
        false
    }

    /// The least code point, and None exactly where the set holds nothing.
    pub fn first(&self) -> Option<u32>
        ensures none { IsNone result ↔ (self.now ≡ []) }
        ensures member { IfSome result (λ least. Has self.now least) }
        ensures least { IfSome result (λ least. (c : ℕ) → Has self.now c → least ≤ c) }
    {
        if self.ranges.is_empty() {
            return None;
        }
        let range = self.ranges[0];
        Some(range.low)
    }

    /// The ranges, which rise and neither overlap nor touch.
    pub fn ranges(&self) -> &[CodeRange]
        ensures value { result.now ≡ self.now }
        ensures form { AreRising result.now }
    {
        &self.ranges
    }
}
