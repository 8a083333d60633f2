//! Status numbers in braces.
ghost use Rattle.std.specs.Prelude.{◌<◌, length};
ghost use Rattle.rbbi_lex.specs.declared.case.Case.TheVariants.{StatusNumber};
ghost use Rattle.rbbi_lex.specs.inner.Steps.{IsSpelling};

use crate::character::stands_at;
use crate::spelled::Spelled;
use crate::stretch::{Stretch, stretch_end};
use crate::token::TokenKind;
use rbbi_text::number_of_characters;

/// The greatest status number.
const MOST_TAG: u32 = 2_147_483_647;

/// The status number after the `{` at a place, if one is there, isn't too great, and is closed.
pub(crate) fn tag(text: &[char], at: usize) -> Option<Spelled>
    requires { at < length text.now }
    ensures { IsSpelling text.now StatusNumber at result }
{
    let start = stretch_end(Stretch::WhiteSpace, text, at + 1);
    let end = stretch_end(Stretch::Digits, text, start);
    let close = stretch_end(Stretch::WhiteSpace, text, end);
    if start == end || !stands_at(text, close, '}') {
        return None;
    }
    let number = number_of_characters(&text[start..end], 10, MOST_TAG)?;
    let kind = TokenKind::Tag(number);
    let end = close + 1;
    Some(Spelled { kind, end })
}
