//! Spellings of names and values that a look-up takes alike.
ghost use Rattle.std.specs.Prelude.{◌≡◌, ◌<◌, ◌↔◌, ◌∷◌, [], ◌++◌, List, length, chars};
ghost use Rattle.std.specs.Prelude.{IsTrue, MatchOption, OnOk, option_map, string_bytes};
ghost use Rattle.std.specs.Option.{option_copied};
ghost use Rattle.unicode.specs.Loose.{has_prefix};
ghost use Rattle.rbbi_props.specs.Rows.{File};
ghost use Rattle.rbbi_props.specs.LooseForms as spec;
ghost use Rattle.rbbi_props.specs.LooseForms.{loose};
ghost use Rattle.rbbi_props.specs.Lookups.{lookup};
ghost use Rattle.rbbi_props.specs.CommonForms.{common_form, HaveOneForm};

use crate::loose::is_well_formed;
use rbbi_text::push_character;
use std::alloc::AllocError;

/// Whether a look-up takes two spellings alike, those of a single name or of a name and a value.
///
/// They are alike where names and values have the same common forms: letters count in either case,
/// and spaces, `_` and `-` don't count. A text that begins with "is" is apart from others, since
/// the names of the database are found without it. Texts that aren't well formed are alike.
pub fn are_alike(name: &str, value: Option<&str>, other: &str, other_value: Option<&str>) -> bool
    ensures exact { IsTrue result ↔ HaveOneForm name.now (option_copied value.entry)
        other.now (option_copied other_value.entry) }
    ensures found { IsTrue result → (files : List File) →
        lookup files name.now (option_copied value.entry)
        ≡ lookup files other.now (option_copied other_value.entry) }
{
    are_texts_alike(name.as_bytes(), other.as_bytes()) && are_values_alike(value, other_value)
}

/// Adds the common form of a name or value to a text: `?` where it isn't well formed, and else its
/// loose form after a mark, which is `!` where it begins with "is", and else `=`.
///
/// No loose form of a well-formed text has a mark, so a text of common forms distinguishes them.
pub fn push_common_form(key: &mut String, text: &str) -> Result<(), AllocError>
    ensures { OnOk result (chars (string_bytes key.new)
        ≡ chars (string_bytes key.old) ++ common_form text.now) }
{
    let bytes = text.as_bytes();
    if !is_well_formed(bytes) {
        push_character(key, '?')?;
        return Ok(());
    }
    push_character(key, if begins_with_is(bytes) { '!' } else { '=' })?;
    push_loose(key, bytes)?;
    Ok(())
}

/// Adds the loose form of a text.
fn push_loose(key: &mut String, text: &[u8]) -> Result<(), AllocError>
    ensures { OnOk result (chars (string_bytes key.new)
        ≡ chars (string_bytes key.old) ++ loose text.now) }
{
    for byte in text {
        if is_counted(*byte) {
            push_character(key, byte.to_ascii_lowercase() as char)?;
        }
    }
    Ok(())
}

/// Whether both values have one common form, or there are none.
fn are_values_alike(value: Option<&str>, other: Option<&str>) -> bool
    ensures { IsTrue result ↔ (option_map common_form (option_copied value.entry)
        ≡ option_map common_form (option_copied other.entry)) }
{
    match value {
        Some(value) => match other {
            Some(other) => are_texts_alike(value.as_bytes(), other.as_bytes()),
            None => false,
        },
        None => other.is_none(),
    }
}

/// Whether both have one common form.
fn are_texts_alike(text: &[u8], other: &[u8]) -> bool
    ensures { IsTrue result ↔ (common_form text.now ≡ common_form other.now) }
{
    if !is_well_formed(text) {
        return !is_well_formed(other);
    }
    is_well_formed(other)
        && begins_with_is(text) == begins_with_is(other)
        && have_one_loose_form(text, other)
}

/// Whether both have one loose form. Compares in place, since keys are compared at each use.
pub(crate) fn have_one_loose_form(text: &[u8], other: &[u8]) -> bool
    ensures { IsTrue result ↔ (loose text.now ≡ loose other.now) }
{
    let mut left = text;
    let mut right = other;
    loop {
        let Some((byte, rest)) = next_counted(left) else {
            return next_counted(right).is_none();
        };
        let Some((other_byte, other_rest)) = next_counted(right) else {
            return false;
        };
        if byte != other_byte {
            return false;
        }
        left = rest;
        right = other_rest;
    }
}

/// The first byte of the loose form, and the text after it. None where the form is empty.
fn next_counted(text: &[u8]) -> Option<(u8, &[u8])>
    ensures { MatchOption result (loose text.now ≡ []) (λ next.
        (loose text.now ≡ next.0 ∷ loose next.1.now) × (length next.1.now < length text.now)) }
{
    for place in 0..text.len() {
        if is_counted(text[place]) {
            return Some((text[place].to_ascii_lowercase(), &text[place + 1..]));
        }
    }
    None
}

/// Whether a byte counts in a loose form.
fn is_counted(byte: u8) -> bool
    ensures { result ≡ spec.is_counted byte }
{
    !matches!(byte, b' ' | b'_' | b'-')
}

/// Whether a text begins with "is", in either case.
fn begins_with_is(text: &[u8]) -> bool
    ensures { result ≡ has_prefix text.now }
{
    text.len() >= 2 && matches!(text[0], b'i' | b'I') && matches!(text[1], b's' | b'S')
}
