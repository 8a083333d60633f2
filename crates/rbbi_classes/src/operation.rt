//! Union, intersection and difference, word by word.
ghost use Rattle.std.specs.Prelude.{◌≡◌, ◌+◌, ◌<◌, ◌≤◌, ◌⊎◌, ℕ, length, slice_index};
ghost use Rattle.rbbi_model.specs.Places.{has_bit};

/// What is made of two sets.
#[derive(Clone, Copy)]
pub(crate) enum Operation {
    Union,
    Intersection,
    Difference,
}

impl Operation {
    ghost use Rattle.rbbi_classes.specs.inner.Operations.{joins};

    /// The word that is made of those of both sets.
    fn of(self, left: u64, right: u64) -> u64
        ensures { (t : ℕ) → t < 64
            → has_bit result t ≡ joins self (has_bit left t) (has_bit right t) }
    {
        match self {
            Operation::Union => left | right,
            Operation::Intersection => left & right,
            Operation::Difference => left & !right,
        }
    }

    /// Puts in the place of each word of the row from `start` on what is made of it and of the next
    /// one of the words.
    pub(crate) fn apply(self, row: &mut [u64], start: usize, words: &[u64])
        requires { start + length words.now ≤ length row.old }
        ensures inside { (k t : ℕ) → k < length words.now → t < 64
            → has_bit (slice_index row.new (start + k)) t
            ≡ joins self (has_bit (slice_index row.old (start + k)) t)
            (has_bit (slice_index words.now k) t) }
        ensures outside { (k : ℕ) → (k < start) ⊎ (start + length words.now ≤ k)
            → slice_index row.new k ≡ slice_index row.old k }
    {
        for i in 0..words.len() {
            row[start + i] = self.of(row[start + i], words[i]);
        }
    }
}
