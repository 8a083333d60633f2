//! A hash of words.
ghost use Rattle.std.specs.Prelude.{◌≡◌};
ghost use Rattle.rbbi_bits.specs.Hashes.{mixed_with, hash_upon};

/// The hash with one word more: a product with 2 to the power of 64 over the golden ratio (Knuth,
/// The Art of Computer Programming 3, section 6.4). All bits of the word tell on its upper half,
/// which is folded onto the lower one.
pub fn mixed(hash: u64, word: u64) -> u64
    ensures { result ≡ mixed_with hash word }
{
    let product = (hash ^ word).wrapping_mul(0x9E37_79B9_7F4A_7C15);
    product ^ (product >> 32)
}

/// The hash of words, of which the upper bits count.
pub(crate) fn hash_of(words: &[u64]) -> u64
    ensures { result ≡ hash_upon words.now }
{
    let mut hash: u64 = 0;
    for word in words {
        hash = mixed(hash, *word);
    }
    hash
}
