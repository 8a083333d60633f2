//! Which set of positions comes next by a category.
ghost use Rattle.std.specs.Prelude.{◌≡◌, ◌<◌, ℕ, length, IsTrue, false};
ghost use Rattle.rbbi_bits.specs.BitRows.{Holds, IsSpan};
ghost use Rattle.rbbi_bits.specs.NumberedRows.{listed_row};
ghost use Rattle.rbbi_dfa.specs.inner.Determinizing.{IsStep, IsRow, Completes};

use crate::determinize::position_rows::Rows;
use rbbi_bits::{Span, has, intersect, meet, meet_within, unite_common};

/// The positions that can read the category.
fn readers(rows: &Rows, category: usize) -> &[u64]
    requires category { category < rows.now.categories }
    ensures readers { result.now ≡ listed_row rows.now.reads category }
    ensures wide { length result.now ≡ rows.now.width }
{
    rows.reads[category].as_slice()
}

/// Whether a candidate reads the category. The candidates have this span.
pub(crate) fn is_read(rows: &Rows, candidates: &[u64], span: Span, category: usize) -> bool
    requires category { category < rows.now.categories }
    requires candidates { length candidates.now ≡ rows.now.width }
    requires span { IsSpan candidates.now span.from span.to }
    ensures some { IsTrue result → (position : ℕ)
        × Holds candidates.now position × Holds (listed_row rows.now.reads category) position }
    ensures none { result ≡ false → (position : ℕ) →
        Holds candidates.now position → ¬ Holds (listed_row rows.now.reads category) position }
{
    meet_within(candidates, readers(rows, category), span)
}

/// Makes `next` the positions that come next by the category: the candidates that read it, and if
/// one of these is last, the first positions that read it of rules that may be chained into.
pub(crate) fn step(rows: &Rows, candidates: &[u64], category: usize, next: &mut [u64])
    requires category { category < rows.now.categories }
    requires candidates { length candidates.now ≡ rows.now.width }
    requires next { length next.old ≡ rows.now.width }
    ensures step { IsStep rows.now candidates.now category next.new }
    ensures row { IsRow rows.now.width next.new }
{
    let reads = readers(rows, category);
    intersect(next, candidates, reads);
    if meet(next, &rows.last) {
        unite_common(next, &rows.chained, reads);
    }
}

/// Whether a look-ahead rule is completed at the set.
pub(crate) fn completes(rows: &Rows, set: &[u64]) -> bool
    ensures some { IsTrue result → Completes rows.now set.now }
    ensures none { result ≡ false → ¬ Completes rows.now set.now }
{
    for mark in &rows.completed {
        if has(set, mark.position as usize) {
            return true;
        }
    }
    false
}
