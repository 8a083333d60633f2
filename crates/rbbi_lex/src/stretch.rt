//! Stretches: the longest pieces of a text whose characters belong together.
ghost use Rattle.std.specs.Prelude.{◌≡◌, ◌≤◌, max, length};
ghost use Rattle.rbbi_lex.specs.Stretches.{goes_on, stretch_end};

use crate::character::{character_at, is_line_end, is_name_character, is_sign, is_word_character};
use unicode::properties::is_pattern_white_space;

/// A kind of stretch, named for its characters.
#[derive(Clone, Copy)]
pub(crate) enum Stretch {
    WhiteSpace,
    /// A comment after its `#`, up to a line terminator.
    CommentText,
    /// A name after its `$`.
    NameText,
    /// A control after its `!!`.
    ControlText,
    Digits,
    HexadecimalDigits,
    /// The body of a property, up to a `}` or a line terminator.
    BracedBody,
    /// The name of such a property, up to a `=` or the end of the body.
    BracedName,
    /// The body of a property, up to a `:]` or a line terminator.
    BracketedBody,
    /// The name of such a property, up to a `=` or the end of the body.
    BracketedName,
}

/// Whether a stretch goes on with a character that has another, or none, after it.
fn goes_on(stretch: Stretch, c: char, next: Option<char>) -> bool
    ensures { result ≡ goes_on stretch c next }
{
    match stretch {
        Stretch::WhiteSpace => is_pattern_white_space(c),
        Stretch::CommentText => !is_line_end(c),
        Stretch::NameText => is_name_character(c),
        Stretch::ControlText => is_word_character(c),
        Stretch::Digits => c.is_ascii_digit(),
        Stretch::HexadecimalDigits => c.is_ascii_hexdigit(),
        Stretch::BracedBody => !(is_line_end(c) || c == '}'),
        Stretch::BracedName => !(is_line_end(c) || c == '}' || c == '='),
        Stretch::BracketedBody => !(is_line_end(c) || (c == ':' && is_sign(next, ']'))),
        Stretch::BracketedName => !(is_line_end(c) || (c == ':' && is_sign(next, ']')) || c == '='),
    }
}

/// The place at which the stretch from this place on ends.
pub(crate) fn stretch_end(stretch: Stretch, text: &[char], from: usize) -> usize
    ensures end { result ≡ stretch_end stretch text.now from }
    ensures within { result ≤ max from (length text.now) }
{
    let mut at = from;
    while at < text.len() && goes_on(stretch, text[at], character_at(text, at + 1)) {
        at += 1;
    }
    at
}
