//! Partition refinement: one row of bits splits the classes that it has a part of.
ghost use Rattle.std.specs.Prelude.{◌≡◌, ◌+◌, ◌*◌, ◌^◌, ◌≤◌, ◌<◌, IfOk, OnOk, length};
ghost use Rattle.rbbi_model.specs.Places.{has_bit};
ghost use Rattle.rbbi_cats.specs.inner.Refinements.{AreNumbered, Refines, IsNext, paired};

use rbbi_bits::is_set;
use rbbi_classes::ClassSet;
use std::alloc::{AllocError, Global};

/// Splits categories of classes by a row, which has a bit for each class: category 0 is what was in
/// it and isn't in the row, and the others are numbered in the order of their first classes. Gives
/// the number of categories, category 0 counted. It takes a step for each class.
pub(crate) fn refine(
    alloc: Global,
    categories: &mut [usize],
    count: usize,
    row: &ClassSet,
) -> Result<usize, AllocError>
    requires numbered { AreNumbered categories.old count }
    requires few { count < 2 ^ 32 }
    ensures numbered { IfOk result (λ count. AreNumbered categories.new count) }
    ensures refines { OnOk result (Refines row.now categories.old categories.new) }
{
    let mut table = vec![in alloc; 0usize; 2 * count]?;
    let numbers = table.as_mut_slice();
    let mut greatest = 0;
    let mut word = 0;
    for k in 0..categories.len() {
        if k % 64 == 0 {
            word = row.word(k / 64);
        }
        let pair = pair_of(categories[k], word, k % 64);
        greatest = number(numbers, greatest, pair);
        categories[k] = numbers[pair];
    }
    Ok(greatest + 1)
}

/// A category and a bit of a word in one number.
fn pair_of(category: usize, word: u64, bit: usize) -> usize
    requires bit { bit < 64 }
    requires small { category < 2 ^ 32 }
    ensures { result ≡ paired category (has_bit word bit) }
{
    if is_set(word, bit) {
        2 * category + 1
    } else {
        2 * category
    }
}

/// Gives a pair the next number if it has none; pair 0 has the number 0. Gives the greatest number.
fn number(numbers: &mut [usize], greatest: usize, pair: usize) -> usize
    requires inside { pair < length numbers.old }
    requires room { greatest + 1 < 2 ^ 64 }
    ensures { IsNext numbers.old greatest pair numbers.new result }
{
    if pair == 0 || numbers[pair] != 0 {
        return greatest;
    }
    numbers[pair] = greatest + 1;
    greatest + 1
}
