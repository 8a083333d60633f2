//! Which numbers are those of characters.
ghost use Rattle.std.specs.Prelude.{◌↔◌, IsTrue};
ghost use Rattle.rbbi_model.specs.Words.{IsCharacter};

/// Whether a number is that of a character: a code point that is no surrogate.
pub fn is_character(code: u32) -> bool
    ensures { IsTrue result ↔ IsCharacter code }
{
    code < 0xD800 || 0xDFFF < code && code <= 0x10_FFFF
}
