//! Properties, in both spellings.
ghost use Rattle.std.specs.Prelude.{◌≡◌, ◌<◌, ◌≤◌, length, IfOk};
ghost use Rattle.rbbi_lex.specs.declared.case.Case.TheVariants.{BracedProperty, BracketedProperty};
ghost use Rattle.rbbi_lex.specs.Properties.{value_between};
ghost use Rattle.rbbi_lex.specs.inner.Steps.{IsSpelling};

use crate::character::stands_at;
use crate::spelled::{Spelled, Spelling};
use crate::stretch::{Stretch, stretch_end};
use crate::token::TokenKind;
use crate::words::word_between;
use rbbi_text::Word;
use std::alloc::{AllocError, Global};

/// The value of a property whose name and body end at these places: what is after the `=`.
fn value_word(
    alloc: Global,
    text: &[char],
    name_end: usize,
    body_end: usize,
) -> Result<Option<Word>, AllocError>
    requires { body_end ≤ length text.now }
    ensures { IfOk result (λ value. value ≡ value_between text.now name_end body_end) }
{
    if name_end < body_end {
        Ok(Some(word_between(alloc, text, name_end + 1, body_end)?))
    } else {
        Ok(None)
    }
}

/// The property `\p{BODY}` or `\P{BODY}` at a place, if it is closed in its line.
pub(crate) fn braced_property(alloc: Global, text: &[char], at: usize) -> Spelling
    requires { at < length text.now }
    ensures { IfOk result (IsSpelling text.now BracedProperty at) }
{
    let start = at + 3;
    let body_end = stretch_end(Stretch::BracedBody, text, start);
    if !stands_at(text, body_end, '}') {
        return Ok(None);
    }
    let name_end = stretch_end(Stretch::BracedName, text, start);
    let kind = TokenKind::Prop {
        negated: stands_at(text, at + 1, 'P'),
        name: word_between(alloc, text, start, name_end)?,
        value: value_word(alloc, text, name_end, body_end)?,
    };
    let end = body_end + 1;
    Ok(Some(Spelled { kind, end }))
}

/// The property `[:BODY:]` at a place, if it is closed in its line.
pub(crate) fn bracketed_property(alloc: Global, text: &[char], at: usize) -> Spelling
    requires { at < length text.now }
    ensures { IfOk result (IsSpelling text.now BracketedProperty at) }
{
    let body_end = stretch_end(Stretch::BracketedBody, text, at + 2);
    if !(stands_at(text, body_end, ':') && stands_at(text, body_end + 1, ']')) {
        return Ok(None);
    }
    let negated = stands_at(text, at + 2, '^');
    let start = if negated { at + 3 } else { at + 2 };
    let name_end = stretch_end(Stretch::BracketedName, text, start);
    let kind = TokenKind::Prop {
        negated,
        name: word_between(alloc, text, start, name_end)?,
        value: value_word(alloc, text, name_end, body_end)?,
    };
    let end = body_end + 2;
    Ok(Some(Spelled { kind, end }))
}
