//! Bits of front masks and of the bytes of the safe pairs.
ghost use Rattle.std.specs.Prelude.{◌≡◌, ℕ, ◌*◌, ◌/◌, ◌<◌, Bool, true, length, if◌then◌else◌, ◌==◌};
ghost use Rattle.rbbi_model.specs.Places.{has_bit};
ghost use Rattle.rbbi_model.specs.SafePairs.{stored_bit};

/// Whether the bit of a look-ahead rule is in the front mask.
pub(crate) fn has_front(fronts: u32, slash: u16) -> bool
    requires { slash < 32 }
    ensures { result ≡ has_bit fronts slash }
{
    fronts >> slash & 1 == 1
}

/// Whether the bit with this number is set: eight a byte, the one of least value first.
pub(crate) fn has_stored(bytes: &[u8], bit: usize) -> bool
    requires { bit / 8 < length bytes.now }
    ensures { result ≡ stored_bit bytes.now bit }
{
    bytes[bit / 8] >> (bit % 8) & 1 == 1
}

/// Sets the bit with this number.
pub(crate) fn store(bytes: &mut Vec<u8>, bit: usize)
    requires { bit / 8 < length bytes.old.items }
    ensures bits { (i : ℕ) → stored_bit bytes.new.items i
        ≡ (if i == bit then true else stored_bit bytes.old.items i) }
    ensures len { length bytes.new.items ≡ length bytes.old.items }
{
    bytes[bit / 8] |= 1 << (bit % 8);
}
