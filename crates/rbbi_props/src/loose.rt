//! Loose forms, and names that are well formed. Texts are bytes here, since only ASCII counts.
ghost use Rattle.std.specs.Prelude.{◌≡◌, IfOk};
ghost use Rattle.std.specs.List.{list_all};
ghost use Rattle.rbbi_props.specs.LooseForms as spec;

use std::alloc::{AllocError, Global};

/// The loose form of a text: its letters in lower case, and no spaces, `_` and `-` (UAX #44,
/// section 5.9, names the idea).
pub(crate) fn loose(alloc: Global, text: &[u8]) -> Result<Vec<u8>, AllocError>
    ensures { IfOk result (λ form. form.items ≡ spec.loose text.now) }
{
    text.iter()
        .filter(|byte| !matches!(**byte, b' ' | b'_' | b'-'))
        .map(|byte| byte.to_ascii_lowercase())
        .collect(alloc)
}

/// Whether a text has a letter or digit.
pub(crate) fn has_letter_or_digit(text: &[u8]) -> bool
    ensures { result ≡ spec.has_letter_or_digit text.now }
{
    text.iter().any(|byte| byte.is_ascii_alphanumeric())
}

/// Whether a name or value has a letter or digit, and nothing but letters, digits, spaces, `_`, `-`
/// and `.`.
pub(crate) fn is_well_formed(text: &[u8]) -> bool
    ensures { result ≡ spec.is_well_formed text.now }
{
    has_letter_or_digit(text) && are_name_bytes(text)
}

fn are_name_bytes(text: &[u8]) -> bool
    ensures { result ≡ list_all spec.is_name_byte text.now }
{
    text.iter().all(|byte| is_name_byte(*byte))
}

fn is_name_byte(byte: u8) -> bool
    ensures { result ≡ spec.is_name_byte byte }
{
    byte.is_ascii_alphanumeric() || matches!(byte, b' ' | b'_' | b'-' | b'.')
}
