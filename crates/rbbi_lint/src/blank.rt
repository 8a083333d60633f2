//! The text of a rule file without a piece.
ghost use Rattle.std.specs.Prelude.{◌≡◌, ◌<◌, ◌≤◌, ◌⊎◌, length, string_bytes, IfOk, encode_utf8};
ghost use Rattle.std.specs.Str.{chars};
ghost use Rattle.rbbi_text.specs.Bytes.{most_bytes};
ghost use Rattle.rbbi_lint.specs.Blanks.{IsBlanked};

use rbbi_text::push_character;
use std::alloc::{AllocError, Global};

/// The character at a place, or a space if the place is in the piece.
fn kept(c: char, place: u32, from: u32, to: u32) -> char
    ensures inside { from ≤ place → place < to → result ≡ 32 }
    ensures outside { (place < from) ⊎ (to ≤ place) → result ≡ c }
    ensures no_longer { length (encode_utf8 result) ≤ length (encode_utf8 c) }
{
    if from <= place && place < to { ' ' } else { c }
}

/// The text with spaces in place of the characters from a place up to another, so that all others
/// keep their places.
pub(crate) fn blanked(alloc: Global, text: &str, from: u32, to: u32) -> Result<String, AllocError>
    requires { length text.now ≤ most_bytes }
    ensures text { IfOk result (λ made.
        IsBlanked from to (chars text.now) (chars (string_bytes made))) }
    ensures no_longer { IfOk result (λ made. length (string_bytes made) ≤ length text.now) }
{
    let mut made = String::new(alloc);
    let mut place = 0u32;
    for c in text.chars() {
        push_character(&mut made, kept(c, place, from, to))?;
        place += 1;
    }
    Ok(made)
}
