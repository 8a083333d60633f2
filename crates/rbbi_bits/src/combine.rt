//! Union and intersection of rows of one length.
ghost use Rattle.std.specs.Prelude.{◌≡◌, ◌<◌, ◌^◌, ◌||◌, ◌&&◌, ℕ, false, length, slice_index};
ghost use Rattle.std.specs.Prelude.{IsTrue};
ghost use Rattle.rbbi_bits.specs.BitRows.{Holds, IsSpan, row_bit};

use crate::span::Span;

/// Makes the set its union with another.
pub fn unite(row: &mut [u64], other: &[u64])
    requires { length row.old ≡ length other.now }
    ensures { (place : ℕ) → row_bit row.new place
        ≡ (row_bit row.old place || row_bit other.now place) }
{
    let to = other.len();
    unite_within(row, other, Span { from: 0, to });
}

/// Makes the set its union with another, which has this span.
pub fn unite_within(row: &mut [u64], other: &[u64], span: Span)
    requires long { length row.old ≡ length other.now }
    requires span { IsSpan other.now span.from span.to }
    ensures { (place : ℕ) → row_bit row.new place
        ≡ (row_bit row.old place || row_bit other.now place) }
{
    for i in span.from..span.to {
        row[i] |= other[i];
    }
}

/// Makes the set the intersection of two others.
pub fn intersect(row: &mut [u64], these: &[u64], those: &[u64])
    requires these { length row.old ≡ length these.now }
    requires those { length row.old ≡ length those.now }
    ensures bits { (place : ℕ) → row_bit row.new place
        ≡ (row_bit these.now place && row_bit those.now place) }
    ensures words { (k : ℕ) → slice_index row.new k < 2 ^ 64 }
{
    for i in 0..row.len() {
        row[i] = these[i] & those[i];
    }
}

/// Makes the set its union with the intersection of two others.
pub fn unite_common(row: &mut [u64], these: &[u64], those: &[u64])
    requires these { length row.old ≡ length these.now }
    requires those { length row.old ≡ length those.now }
    ensures { (place : ℕ) → row_bit row.new place
        ≡ (row_bit row.old place || (row_bit these.now place && row_bit those.now place)) }
{
    for i in 0..row.len() {
        row[i] |= these[i] & those[i];
    }
}

/// Whether some number is in both sets.
pub fn meet(these: &[u64], those: &[u64]) -> bool
    requires { length these.now ≡ length those.now }
    ensures some { IsTrue result → (place : ℕ) × Holds these.now place × Holds those.now place }
    ensures none { result ≡ false → (place : ℕ) → Holds these.now place → ¬ Holds those.now place }
{
    let to = these.len();
    meet_within(these, those, Span { from: 0, to })
}

/// Whether some number is in both sets, the first of which has this span.
pub fn meet_within(these: &[u64], those: &[u64], span: Span) -> bool
    requires long { length these.now ≡ length those.now }
    requires span { IsSpan these.now span.from span.to }
    ensures some { IsTrue result → (place : ℕ) × Holds these.now place × Holds those.now place }
    ensures none { result ≡ false → (place : ℕ) → Holds these.now place → ¬ Holds those.now place }
{
    for i in span.from..span.to {
        if these[i] & those[i] != 0 {
            return true;
        }
    }
    false
}
