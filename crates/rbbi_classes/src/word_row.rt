//! A row of words that is changed in place.
ghost use Rattle.std.specs.Prelude.{◌≡◌, ◌+◌, ◌/◌, ◌<◌, ◌≤◌, ◌⊎◌, ℕ, length};
ghost use Rattle.rbbi_classes.specs.Classes.{class_bit};
ghost use Rattle.rbbi_classes.specs.inner.Operations.{joins};

use crate::ClassSet;
use crate::operation::Operation;

/// A row of words, of which the first one has the number `from`.
#[derive(Drop)]
pub(crate) struct WordRow {
    pub(crate) from: usize,
    pub(crate) words: Vec<u64>,
}

impl WordRow {
    ghost use Rattle.rbbi_classes.specs.inner.WordRows.{bits};

    /// Puts in the place of each word from the number `first` to before `last` what is made of it
    /// and the word of the other set with its number.
    pub(crate) fn combine(
        &mut self,
        operation: Operation,
        other: &ClassSet,
        first: usize,
        last: usize,
    )
        requires from { self.old.from ≤ first }
        requires end { last ≤ self.old.from + length self.old.words.items }
        ensures from { self.new.from ≡ self.old.from }
        ensures len { length self.new.words.items ≡ length self.old.words.items }
        ensures inside { (k : ℕ) → first ≤ k / 64 → k / 64 < last → class_bit (bits self.new) k
            ≡ joins operation (class_bit (bits self.old) k) (class_bit other.now k) }
        ensures outside { (k : ℕ) → (k / 64 < first) ⊎ (last ≤ k / 64)
            → class_bit (bits self.new) k ≡ class_bit (bits self.old) k }
    {
        let from = self.from;
        let row = self.words.as_mut_slice();
        let mut place = first;
        while place < last {
            let piece = other.piece_at(place);
            let count = piece.len().min(last - place);
            operation.apply(row, place - from, &piece[..count]);
            place += count;
        }
    }
}
