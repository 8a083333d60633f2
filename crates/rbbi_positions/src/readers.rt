//! The positions that read each category.
ghost use Rattle.std.specs.Prelude.{◌≡◌, ◌*◌, ◌<◌, ◌≤◌, ℕ, IsTrue, false, ◌↔◌, IfOk, OnOk, length};
ghost use Rattle.std.specs.List.{AllByRecursion};
ghost use Rattle.rbbi_model.specs.Ranges.{Has};
ghost use Rattle.rbbi_classes.specs.CharacterSets.{characters_of};
ghost use Rattle.rbbi_classes.specs.Divisions.{IsDivision};
ghost use Rattle.rbbi_classes.specs.Steps.{number_at};
ghost use Rattle.rbbi_positions.specs.inner.Rows.{in_row};
ghost use Rattle.rbbi_positions.specs.inner.RuleTests.{AreCodesOf, ReadCode};
ghost use Rattle.rbbi_positions.specs.inner.Readers.{HasEachCategory, AreReaders};

use crate::row_union::unite_row;
use rbbi_bits::{insert, is_set};
use rbbi_cats::Categories;
use rbbi_classes::{ClassSet, Division, is_character};
use rbbi_resolve::SetList;
use std::alloc::{AllocError, Global};

/// One code point of each category but 0, whose place has some number.
pub(crate) fn codes_of(alloc: Global, cats: &Categories) -> Result<Vec<u32>, AllocError>
    requires { HasEachCategory cats.now.count cats.now.ranges }
    ensures few { IfOk result (λ codes. length codes.items ≤ 1000) }
    ensures codes { IfOk result (λ codes. AreCodesOf cats.now.count cats.now.ranges codes.items) }
{
    let mut codes = vec![in alloc; 0u32; cats.count() as usize]?;
    for range in cats.ranges() {
        codes[range.cat as usize] = range.start;
    }
    Ok(codes)
}

/// The row of the positions whose sets hold the code point.
fn readers_of_code(
    alloc: Global,
    sets: &SetList,
    numbers: &[u32],
    code: u32,
    words: usize,
) -> Result<Vec<u64>, AllocError>
    requires numbered { AllByRecursion (λ number. number < length sets.now) numbers.now }
    requires wide { length numbers.now ≤ 64 * words }
    ensures many { IfOk result (λ row. length row.items ≡ words) }
    ensures read { IfOk result (λ row. ReadCode sets.now numbers.now code row.items) }
{
    let (division, rows) = sets.by_classes();
    let class = division.class_at(code);
    let mut row = vec![in alloc; 0u64; words]?;
    for position in 0..numbers.len() {
        if is_in(division, &rows[numbers[position] as usize], code, class) {
            insert(&mut row, position);
        }
    }
    Ok(row)
}

/// Whether the code point, which is of this class of a division, is a character of the classes.
fn is_in(division: &Division, classes: &ClassSet, code: u32, class: usize) -> bool
    requires form { IsDivision division.now }
    requires class { class ≡ number_at division.now.steps code }
    ensures { IsTrue result ↔ Has (characters_of division.now classes.now) code }
{
    is_character(code) && is_set(classes.word(class / 64), class % 64)
}

/// For each category but 0 the row of the positions whose sets hold its code point.
pub(crate) fn readers_of(
    alloc: Global,
    sets: &SetList,
    numbers: &[u32],
    codes: &[u32],
    words: usize,
) -> Result<Vec<u64>, AllocError>
    requires numbered { AllByRecursion (λ number. number < length sets.now) numbers.now }
    requires wide { length numbers.now ≤ 64 * words }
    requires few_categories { length codes.now ≤ 1000 }
    requires few_words { words ≤ 128 }
    ensures many { IfOk result (λ rows. length rows.items ≡ length codes.now * words) }
    ensures read { IfOk result (λ rows.
        AreReaders sets.now numbers.now codes.now words rows.items) }
{
    let mut rows = vec![in alloc; 0u64; codes.len() * words]?;
    add_readers(alloc, sets, numbers, codes, words, &mut rows)?;
    Ok(rows)
}

/// Adds to the row of each category but 0, which is empty, the positions whose sets hold its code
/// point.
fn add_readers(
    alloc: Global,
    sets: &SetList,
    numbers: &[u32],
    codes: &[u32],
    words: usize,
    rows: &mut [u64],
) -> Result<(), AllocError>
    requires numbered { AllByRecursion (λ number. number < length sets.now) numbers.now }
    requires wide { length numbers.now ≤ 64 * words }
    requires many { length rows.old ≡ length codes.now * words }
    requires few_categories { length codes.now ≤ 1000 }
    requires few_words { words ≤ 128 }
    requires empty { (category position : ℕ) → in_row words rows.old category position ≡ false }
    ensures { OnOk result (AreReaders sets.now numbers.now codes.now words rows.new) }
{
    for category in 1..codes.len() {
        let row = readers_of_code(alloc, sets, numbers, codes[category], words)?;
        unite_row(rows, category, &row);
    }
    Ok(())
}
