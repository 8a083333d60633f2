//! Milestones in a long list, by which an offset is found without a walk over the list.
ghost use Rattle.std.specs.Prelude.{◌≡◌, ◌⊎◌, ◌+◌, ◌*◌, ◌/◌, ◌^◌, ◌<◌, ◌≤◌, ◌++◌, [], ◌∷◌, ℕ};
ghost use Rattle.std.specs.Prelude.{length, take, drop, min, slice_index, sum_by};
ghost use Rattle.rbbi_text.specs.Milestones.{AreMilestones};
ghost use Rattle.rbbi_text.specs.inner.Fits.{IsFit};
ghost use Rattle.rbbi_text.specs.inner.Cuts.{shifted};

use crate::Unit;
use crate::measure::{Fit, Measure, fit_in, total};
use crate::piece::FULL;
use crate::places::shift;
use std::alloc::Global;

/// How many items stand between two milestones.
const BETWEEN: usize = 8;

/// How much of a unit the items before each 8th take together. In characters none are made, since
/// they aren't needed to find a place.
///
/// Where memory runs out there are fewer milestones than have room, which only costs time.
#[derive(Drop)]
pub(crate) struct Milestones {
    /// The unit in which they are made.
    pub(crate) unit: Unit,
    pub(crate) sums: Vec<u32>,
}

impl Milestones {
    /// None, in characters.
    pub(crate) fn none(alloc: Global) -> Milestones
        ensures { result.sums.items ≡ [] }
    {
        Milestones {
            unit: Unit::Chars,
            sums: Vec::new(alloc),
        }
    }

    /// Makes those again that lie after an item from which on the items are others.
    pub(crate) fn renew<T: Measure>(&mut self, items: &[T], from: usize)
        requires small { sum_by (T.weight self.old.unit) items.now < 2 ^ 32 }
        requires kept { AreMilestones (T.weight self.old.unit) items.now
            (take (from / 8) self.old.sums.items) }
        ensures unit { self.new.unit ≡ self.old.unit }
        ensures are { AreMilestones (T.weight self.old.unit) items.now self.new.sums.items }
    {
        self.sums.truncate(from / BETWEEN);
        match self.unit {
            Unit::Chars => {}
            Unit::Utf8 | Unit::Utf16 => add_milestones(items, &mut self.sums, self.unit),
        }
    }

    /// Those in a unit, where they are made in it, and otherwise none.
    pub(crate) fn sums_in(&self, unit: Unit) -> &[u32]
        ensures { (result.now ≡ [])
            ⊎ ((self.now.unit ≡ unit) × (result.now ≡ self.now.sums.items)) }
    {
        match (self.unit, unit) {
            (Unit::Utf8, Unit::Utf8) | (Unit::Utf16, Unit::Utf16) => &self.sums,
            _ => &[],
        }
    }
}

/// Adds the milestones that are missing, as far as memory suffices.
fn add_milestones<T: Measure>(items: &[T], sums: &mut Vec<u32>, unit: Unit)
    requires small { sum_by (T.weight unit) items.now < 2 ^ 32 }
    requires sums { AreMilestones (T.weight unit) items.now sums.old.items }
    ensures { AreMilestones (T.weight unit) items.now sums.new.items }
{
    let mut from = sums.len() * BETWEEN;
    let mut units = at_milestone(sums, sums.len());
    while items.len() - from >= BETWEEN {
        units += total(&items[from..from + BETWEEN], unit);
        let Ok(()) = sums.push(units) else {
            return;
        };
        from += BETWEEN;
    }
}

/// How much of the unit the items before a milestone take together; before number 0, nothing.
fn at_milestone(sums: &[u32], number: usize) -> u32
    requires { number ≤ length sums.now }
    ensures { result ≡ slice_index (0 ∷ sums.now) number }
{
    if number == 0 { 0 } else { sums[number - 1] }
}

/// The number of the last milestone that doesn't lie past an offset.
fn last_milestone(sums: &[u32], most: u32) -> usize
    ensures within { result ≤ length sums.now }
    ensures low { slice_index (0 ∷ sums.now) result ≤ most }
{
    // Mostly the items are full pieces, and each character takes one.
    let guess = most as usize / (BETWEEN * FULL);
    if guess < sums.len() && at_milestone(sums, guess) <= most && sums[guess] > most {
        return guess;
    }
    let mut low = 0;
    let mut high = sums.len();
    while low < high {
        let middle = low + (high - low) / 2;
        if sums[middle] <= most {
            low = middle + 1;
        } else {
            high = middle;
        }
    }
    low
}

/// How much of the unit the items before this one take together.
pub(crate) fn before<T: Measure>(items: &[T], sums: &[u32], unit: Unit, i: usize) -> u32
    requires sums { AreMilestones (T.weight unit) items.now sums.now }
    requires within { i ≤ length items.now }
    requires small { sum_by (T.weight unit) items.now < 2 ^ 32 }
    ensures { result ≡ sum_by (T.weight unit) (take i items.now) }
{
    let number = (i / BETWEEN).min(sums.len());
    at_milestone(sums, number) + total(&items[number * BETWEEN..i], unit)
}

/// How many of the items, from the first on, take at most so much of the unit together.
pub(crate) fn find<T: Measure>(items: &[T], sums: &[u32], unit: Unit, most: u32) -> Fit
    requires sums { AreMilestones (T.weight unit) items.now sums.now }
    ensures { IsFit (T.weight unit) items.now most result.count result.units }
{
    let number = last_milestone(sums, most);
    let from = number * BETWEEN;
    let units = at_milestone(sums, number);
    let fit = fit_in(&items[from..], unit, most - units);
    Fit {
        count: from + fit.count,
        units: units + fit.units,
    }
}

/// Moves the milestones after an item that took `old` of their unit and takes `new` now.
pub(crate) fn shift_milestones(sums: &mut Vec<u32>, item: usize, old: u32, new: u32)
    requires behind { (k : ℕ) → item / 8 ≤ k → k < length sums.old.items
        → old ≤ slice_index sums.old.items k }
    requires small { (k : ℕ) → item / 8 ≤ k → k < length sums.old.items
        → slice_index sums.old.items k + new < 2 ^ 32 }
    ensures { let from = min (item / 8) (length sums.old.items) in sums.new.items
        ≡ take from sums.old.items ++ shifted old new (drop from sums.old.items) }
{
    let from = (item / BETWEEN).min(sums.len());
    shift(sums, from, old, new);
}
