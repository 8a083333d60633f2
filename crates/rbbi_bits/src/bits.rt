//! One bit of a word or of a row.
ghost use Rattle.std.specs.Prelude.{◌≡◌, ◌<◌, ◌*◌, ◌==◌, ◌||◌, ℕ, length};
ghost use Rattle.rbbi_model.specs.Places.{has_bit};
ghost use Rattle.rbbi_bits.specs.BitRows.{row_bit};

/// Whether the bit of the word is set.
pub fn is_set(word: u64, bit: usize) -> bool
    requires { bit < 64 }
    ensures { result ≡ has_bit word bit }
{
    word & (1u64 << bit) != 0
}

/// Whether the number is in the set. What lies past the row isn't.
pub fn has(row: &[u64], place: usize) -> bool
    ensures { result ≡ row_bit row.now place }
{
    let word = place / 64;
    word < row.len() && is_set(row[word], place % 64)
}

/// Adds the number to the set.
pub fn insert(row: &mut [u64], place: usize)
    requires { place < 64 * length row.old }
    ensures { (other : ℕ) → row_bit row.new other ≡ (row_bit row.old other || (other == place)) }
{
    row[place / 64] |= 1 << (place % 64);
}
