//! How much of a unit characters and pieces of a text take.
ghost use Rattle.std.specs.Prelude.{◌≡◌, ◌+◌, ◌<◌, ◌≤◌, ◌^◌, ℕ, length, sum_by, chars, IsTrue};
ghost use Rattle.rbbi_model.specs.declared.unit.Unit.{Unit as TextUnit};
ghost use Rattle.rbbi_model.specs.declared.unit.Unit.TheVariants.{Utf8};
ghost use Rattle.rbbi_model.specs.Units.{size_of, offset_of};
ghost use Rattle.rbbi_model.specs.Words.{most_characters};
ghost use Rattle.rbbi_text.specs.Weighed.{IsSingle};
ghost use Rattle.rbbi_text.specs.inner.Fits.{IsFit};

use crate::Unit;

/// What takes some of each unit: a character, or a piece of a text.
pub(crate) trait Measure {
    /// How much of the unit it takes.
    ghost weight: { TextUnit → Self → ℕ };

    /// How much of the unit it takes.
    fn units(&self, unit: Unit) -> u32
        ensures { result ≡ weight unit self.now };
}

impl Measure for char {
    ghost weight = { size_of };

    fn units(&self, unit: Unit) -> u32 {
        let code = *self as u32;
        match unit {
            Unit::Chars => 1,
            Unit::Utf8 => utf8_size(code),
            Unit::Utf16 => { if code < 0x10000 { 1 } else { 2 } }
        }
    }
}

/// How many bytes of UTF-8 a character takes.
fn utf8_size(code: u32) -> u32
    ensures { result ≡ size_of Utf8 code }
{
    1 + u32::from(code >= 0x80) + u32::from(code >= 0x800) + u32::from(code >= 0x10000)
}

/// How much of the unit the items take together.
#[inline(always)]
#[tactic(auto, using(crate::proofs::MilestoneLemmas::total_more))]
pub(crate) fn total<T: Measure>(items: &[T], unit: Unit) -> u32
    requires { sum_by (T.weight unit) items.now < 2 ^ 32 }
    ensures { result ≡ sum_by (T.weight unit) items.now }
{
    let mut total = 0;
    for item in items {
        total += item.units(unit);
    }
    total
}

/// How much of a unit these characters take together.
pub(crate) fn taken(items: &[char], unit: Unit) -> u32
    requires { sum_by (size_of unit) items.now < 2 ^ 32 }
    ensures { result ≡ sum_by (size_of unit) items.now }
{
    // In a loop for one unit alone several characters are measured at once.
    match unit {
        Unit::Chars => items.len() as u32,
        Unit::Utf8 => total(items, Unit::Utf8),
        Unit::Utf16 => total(items, Unit::Utf16),
    }
}

/// Whether each character of a string takes one of a unit.
pub(crate) fn each_takes_one(text: &str, unit: Unit) -> bool
    ensures { IsTrue result → IsSingle unit (chars text.now) }
{
    for c in text.chars() {
        if c.units(unit) != 1 {
            return false;
        }
    }
    true
}

/// Whether each of these characters takes one of a unit. It reads them all, so that many are
/// compared at once.
pub(crate) fn are_single(items: &[char], unit: Unit) -> bool
    ensures { IsTrue result → IsSingle unit items.now }
{
    let mut bits = 0;
    for item in items {
        bits |= *item as u32;
    }
    match unit {
        Unit::Chars => true,
        Unit::Utf8 => bits < 0x80,
        Unit::Utf16 => bits < 0x10000,
    }
}

/// How much of a unit the characters from one number to another take together.
pub(crate) fn taken_between(items: &[char], unit: Unit, from: u32, to: u32) -> u32
    requires forward { from ≤ to }
    requires within { to ≤ length items.now }
    requires few { length items.now ≤ most_characters }
    ensures sum { offset_of unit items.now from + result ≡ offset_of unit items.now to }
    ensures small { offset_of unit items.now to < 2 ^ 32 }
{
    if to - from == 1 {
        return items[from as usize].units(unit);
    }
    taken(&items[from as usize..to as usize], unit)
}

/// How many items fit, and how much of the unit they take together.
#[derive(Clone, Copy)]
pub(crate) struct Fit {
    pub(crate) count: usize,
    pub(crate) units: u32,
}

/// How many of the items, from the first on, take at most so much of the unit together.
#[tactic(auto, using(crate::proofs::MilestoneLemmas::total_more))]
pub(crate) fn fit_in<T: Measure>(items: &[T], unit: Unit, most: u32) -> Fit
    ensures { IsFit (T.weight unit) items.now most result.count result.units }
{
    let mut fit = Fit { count: 0, units: 0 };
    for item in items {
        let units = item.units(unit);
        if units > most - fit.units {
            return fit;
        }
        fit.count += 1;
        fit.units += units;
    }
    fit
}

/// How many characters are measured at once.
const BLOCK: usize = 32;

/// As `fit_in`, for characters: it goes over them by blocks, and then over the last block.
pub(crate) fn fit_characters(items: &[char], unit: Unit, most: u32) -> Fit
    ensures { IsFit (size_of unit) items.now most result.count result.units }
{
    let mut count = 0;
    let mut units = 0;
    while items.len() - count >= BLOCK {
        let block = taken(&items[count..count + BLOCK], unit);
        if block > most - units {
            break;
        }
        count += BLOCK;
        units += block;
    }
    let rest = fit_in(&items[count..], unit, most - units);
    Fit {
        count: count + rest.count,
        units: units + rest.units,
    }
}
