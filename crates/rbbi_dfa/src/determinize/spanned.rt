//! A set of positions with its span.
ghost use Rattle.std.specs.Prelude.{◌≡◌, ◌⊎◌, ◌↔◌, ℕ, length};
ghost use Rattle.rbbi_bits.specs.BitRows.{Holds};

use rbbi_bits::{Span, span_of, unite_within};
use std::marker::Model;

/// A set of positions, with the words outside of which it holds nothing. What may follow a position
/// is narrow as a rule: no more than the positions of its own rule. Contracts see the row.
#[derive(Drop)]
pub(crate) struct SpannedRow {
    words: Vec<u64>,
    span: Span,
}

impl Model for SpannedRow {
    ghost use Rattle.std.specs.Prelude.{List, ℕ};
    ghost use Rattle.rbbi_bits.specs.BitRows.{IsSpan};

    ghost Value = { List ℕ };

    ghost view = { λ row. row.words.items };

    ghost invariant = { λ row. IsSpan row.words.items row.span.from row.span.to };
}

impl SpannedRow {
    /// The row of these words.
    pub fn new(words: Vec<u64>) -> SpannedRow
        ensures { result ≡ words.items }
    {
        let span = span_of(&words);
        SpannedRow { words, span }
    }

    /// Adds the positions to a set.
    pub fn add_to(&self, set: &mut [u64])
        requires { length set.old ≡ length self.now }
        ensures { (position : ℕ) →
            Holds set.new position ↔ (Holds set.old position ⊎ Holds self.now position) }
    {
        unite_within(set, &self.words, self.span);
    }
}
