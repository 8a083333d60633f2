//! Pieces of a text, as bytes.
ghost use Rattle.std.specs.Prelude.{◌≡◌, ◌==◌};
ghost use Rattle.std.specs.List.{slice_split};
ghost use Rattle.rbbi_props.specs.RowLines.{last_part};

use rbbi_text::place_or_len;

/// What stands after the last of this byte, and all where there is none.
pub(crate) fn after_last(text: &[u8], byte: u8) -> &[u8]
    ensures { result.now ≡ last_part (slice_split (λ b. b == byte) text.now) }
{
    let mut rest = text;
    loop {
        let place = place_or_len(rest, byte);
        if place == rest.len() {
            return rest;
        }
        rest = &rest[place + 1..];
    }
}
