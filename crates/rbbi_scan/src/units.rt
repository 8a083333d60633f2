//! What is held of a text that is fed.
ghost use Rattle.std.specs.Prelude.{◌≡◌, length};
ghost use Rattle.rbbi_scan.specs.Units.{unit_of, units_of};

use rbbi_text::Unit;

/// What is held of a text that is fed, in its unit.
#[derive(Drop)]
pub(crate) enum Units {
    /// Bytes of UTF-8.
    Bytes(Vec<u8>),
    /// Units of UTF-16.
    Wide(Vec<u16>),
}

impl Units {
    /// How many there are.
    pub(crate) fn len(&self) -> usize
        ensures { result ≡ length (units_of self.now) }
    {
        match self {
            Units::Bytes(held) => held.len(),
            Units::Wide(held) => held.len(),
        }
    }

    /// Their unit.
    pub(crate) fn unit(&self) -> Unit
        ensures { result ≡ unit_of self.now }
    {
        match self {
            Units::Bytes(_) => Unit::Utf8,
            Units::Wide(_) => Unit::Utf16,
        }
    }
}
