//! Tests of a character.
ghost use Rattle.std.specs.Prelude.{◌≡◌, ◌<◌, IsTrue, length, slice_get};
ghost use Rattle.rbbi_lex.specs.Characters.{is_bare, is_line_end, is_name_character, is_name_start};
ghost use Rattle.rbbi_lex.specs.Characters.{is_sign, is_word_character};

use unicode::properties::{GeneralCategory, GeneralCategoryGroup, is_pattern_white_space};

/// Whether a character ends a line: LF, CR, U+0085 or U+2028.
pub(crate) fn is_line_end(c: char) -> bool
    ensures { result ≡ is_line_end c }
{
    matches!(c, '\n' | '\r' | '\u{85}' | '\u{2028}')
}

/// Whether a character is an ASCII letter, a digit or `_`.
pub(crate) fn is_word_character(c: char) -> bool
    ensures { result ≡ is_word_character c }
{
    c.is_ascii_alphanumeric() || c == '_'
}

/// Whether a character stands for itself without a quote or an escape: an ASCII letter or digit, a
/// control character that is no white space, or any character past ASCII.
pub(crate) fn is_bare(c: char) -> bool
    ensures { result ≡ is_bare c }
{
    c.is_ascii_alphanumeric()
        || (c.is_ascii_control() && !is_pattern_white_space(c))
        || c >= '\u{80}'
}

/// Whether a name begins with a character: `_`, or one of the general category L.
pub(crate) fn is_name_start(c: char) -> bool
    ensures { result ≡ is_name_start c }
{
    c == '_' || GeneralCategoryGroup::Letter.contains(GeneralCategory::for_char(c))
}

/// Whether a name goes on with a character: `_`, or one of the general categories L and N.
pub(crate) fn is_name_character(c: char) -> bool
    ensures { result ≡ is_name_character c }
{
    is_name_start(c) || GeneralCategoryGroup::Number.contains(GeneralCategory::for_char(c))
}

/// Whether a character is there, and is this one.
pub(crate) fn is_sign(found: Option<char>, sign: char) -> bool
    ensures { result ≡ is_sign found sign }
{
    match found {
        Some(c) => c == sign,
        None => false,
    }
}

/// The character at a place, if there is one.
pub(crate) fn character_at(text: &[char], at: usize) -> Option<char>
    ensures { result ≡ slice_get text.now at }
{
    text.get(at).copied()
}

/// Whether this character stands at a place.
pub(crate) fn stands_at(text: &[char], at: usize, sign: char) -> bool
    ensures value { result ≡ is_sign (slice_get text.now at) sign }
    ensures within { IsTrue result → at < length text.now }
{
    is_sign(character_at(text, at), sign)
}
