//! Rows of bits that come one after another in one list.
ghost use Rattle.std.specs.Prelude.{◌≡◌, ◌<◌, ◌≤◌, ◌+◌, ◌*◌, ◌==◌, ◌||◌, ◌&&◌, ℕ, length};
ghost use Rattle.rbbi_bits.specs.BitRows.{row_bit};
ghost use Rattle.rbbi_positions.specs.inner.Rows.{in_row};

use rbbi_bits::unite;

/// Makes the row with this number its union with another.
pub(crate) fn unite_row(rows: &mut [u64], row: usize, other: &[u64])
    requires { row * length other.now + length other.now ≤ length rows.old }
    ensures { (this position : ℕ) → position < 64 * length other.now →
        in_row (length other.now) rows.new this position
        ≡ (in_row (length other.now) rows.old this position
        || ((this == row) && row_bit other.now position)) }
{
    let from = row * other.len();
    unite(&mut rows[from..from + other.len()], other);
}
