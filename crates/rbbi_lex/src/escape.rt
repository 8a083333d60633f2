//! Escapes.
ghost use Rattle.std.specs.Prelude.{◌≡◌, ◌+◌, ◌<◌, ◌≤◌, length, SomeIff, slice_range};
ghost use Rattle.std.specs.Char.{IsScalar};
ghost use Rattle.rbbi_text.specs.Numbers.{number};
ghost use Rattle.rbbi_lex.specs.declared.case.Case.TheVariants.{Escape};
ghost use Rattle.rbbi_lex.specs.Escapes.{form_of, FixedDigits, DigitsInBraces, OneOrTwoDigits};
ghost use Rattle.rbbi_lex.specs.Escapes.{EscapeGoesOn};
ghost use Rattle.rbbi_lex.specs.inner.Steps.{IsRestBy, IsSpelling};

use crate::character::{character_at, is_sign, stands_at};
use crate::spelled::Spelled;
use crate::stretch::{Stretch, stretch_end};
use crate::token::TokenKind;
use rbbi_text::number_of_characters;

/// The greatest code point.
const MOST_CODE_POINT: u32 = 0x10_FFFF;

/// The form of an escape, by what stands after its `\`.
#[derive(Clone, Copy)]
pub(crate) enum Form {
    /// Four hexadecimal digits.
    FourDigits,
    /// Eight hexadecimal digits.
    EightDigits,
    /// One to six hexadecimal digits in braces.
    BracedDigits,
    /// One or two hexadecimal digits.
    FewDigits,
    /// Nothing more: the escape stands for this character.
    StandsFor(char),
    /// No escape.
    Unknown,
}

/// An escaped character, and the place after its escape.
#[derive(Clone, Copy)]
pub(crate) struct Escaped {
    pub character: char,
    pub end: usize,
}

/// The form of an escape, by the character after the `\` and the next one.
#[tactic(auto, unfolding(crate::specs::Escapes::form_of))]
fn form_of(c: char, next: Option<char>) -> Form
    ensures { result ≡ form_of c next }
{
    match c {
        'u' => Form::FourDigits,
        'U' => Form::EightDigits,
        'x' if is_sign(next, '{') => Form::BracedDigits,
        'x' => Form::FewDigits,
        'a' => Form::StandsFor('\u{7}'),
        'b' => Form::StandsFor('\u{8}'),
        'e' => Form::StandsFor('\u{1b}'),
        'f' => Form::StandsFor('\u{c}'),
        'n' => Form::StandsFor('\n'),
        'r' => Form::StandsFor('\r'),
        't' => Form::StandsFor('\t'),
        'v' => Form::StandsFor('\u{b}'),
        '0'..='9' | 'A'..='Z' | 'a'..='z' => Form::Unknown,
        _ => Form::StandsFor(c),
    }
}

/// The character that the hexadecimal digits from one place to another write, if it is one.
fn character_between(text: &[char], from: usize, to: usize) -> Option<char>
    requires forward { from ≤ to }
    requires within { to ≤ length text.now }
    ensures { let n = number 16 (slice_range text.now from to) in SomeIff result (IsScalar n) n }
{
    let number = number_of_characters(&text[from..to], 16, MOST_CODE_POINT)?;
    char::from_u32(number)
}

/// The character that an escape of so many digits stands for, if they are there.
fn digits(text: &[char], from: usize, count: usize) -> Option<Escaped>
    requires few { count ≤ 8 }
    requires within { from ≤ length text.now }
    ensures { IsRestBy (FixedDigits text.now count from) result }
{
    let end = from + count;
    if stretch_end(Stretch::HexadecimalDigits, text, from) < end {
        return None;
    }
    let character = character_between(text, from, end)?;
    Some(Escaped { character, end })
}

/// The character that the digits in braces stand for, if it is one.
fn braced_digits(text: &[char], from: usize) -> Option<Escaped>
    requires { from ≤ length text.now }
    ensures { IsRestBy (DigitsInBraces text.now from) result }
{
    let start = from + 1;
    let end = stretch_end(Stretch::HexadecimalDigits, text, start);
    if end == start || end > start + 6 || !stands_at(text, end, '}') {
        return None;
    }
    let character = character_between(text, start, end)?;
    let end = end + 1;
    Some(Escaped { character, end })
}

/// The character that one or two digits stand for, if they are there.
fn few_digits(text: &[char], from: usize) -> Option<Escaped>
    requires { from ≤ length text.now }
    ensures { IsRestBy (OneOrTwoDigits text.now from) result }
{
    let stretch = stretch_end(Stretch::HexadecimalDigits, text, from);
    if stretch == from {
        return None;
    }
    let end = stretch.min(from + 2);
    let character = character_between(text, from, end)?;
    Some(Escaped { character, end })
}

/// The character that an escape of this form stands for, by what goes on after its first two
/// characters.
fn rest_of_escape(text: &[char], form: Form, from: usize) -> Option<Escaped>
    requires { from ≤ length text.now }
    ensures { IsRestBy (EscapeGoesOn text.now form from) result }
{
    match form {
        Form::FourDigits => digits(text, from, 4),
        Form::EightDigits => digits(text, from, 8),
        Form::BracedDigits => braced_digits(text, from),
        Form::FewDigits => few_digits(text, from),
        Form::StandsFor(character) => Some(Escaped {
            character,
            end: from,
        }),
        Form::Unknown => None,
    }
}

/// The escaped character after the `\` at a place, if one is there.
pub(crate) fn escape(text: &[char], at: usize) -> Option<Spelled>
    requires { at < length text.now }
    ensures { IsSpelling text.now Escape at result }
{
    let second = character_at(text, at + 1)?;
    let from = at + 2;
    let form = form_of(second, character_at(text, from));
    let Escaped { character: c, end } = rest_of_escape(text, form, from)?;
    let kind = TokenKind::Char { c, bare: false };
    Some(Spelled { kind, end })
}
