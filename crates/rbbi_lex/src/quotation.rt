//! Quoted sequences.
ghost use Rattle.std.specs.Prelude.{◌<◌, length, IfOk};
ghost use Rattle.rbbi_lex.specs.declared.case.Case.TheVariants.{Quotation};
ghost use Rattle.rbbi_lex.specs.Quotations.{IsQuoted};
ghost use Rattle.rbbi_lex.specs.inner.Steps.{IsRestBy, IsSpelling};

use crate::character::{character_at, is_line_end, stands_at};
use crate::escape::Escaped;
use crate::spelled::{Spelled, Spelling};
use crate::token::TokenKind;
use rbbi_text::{Word, push_character};
use std::alloc::Global;

/// The next character within quotes: `''` is one quote, and each other character but a line
/// terminator stands for itself.
fn next_quoted(text: &[char], at: usize) -> Option<Escaped>
    ensures { IsRestBy (IsQuoted text.now at) result }
{
    let character = character_at(text, at)?;
    let is_quote = character == '\'';
    if is_line_end(character) || (is_quote && !stands_at(text, at + 1, '\'')) {
        return None;
    }
    let end = if is_quote { at + 2 } else { at + 1 };
    Some(Escaped { character, end })
}

/// The quoted sequence that opens at a place, if it isn't empty and is closed in its line.
pub(crate) fn quotation(alloc: Global, text: &[char], at: usize) -> Spelling
    requires { at < length text.now }
    ensures { IfOk result (IsSpelling text.now Quotation at) }
{
    if stands_at(text, at + 1, '\'') {
        return Ok(None);
    }
    let mut word = String::new(alloc);
    let mut close = at + 1;
    while let Some(next) = next_quoted(text, close) {
        let character = next.character;
        push_character(&mut word, character)?;
        close = next.end;
    }
    if !stands_at(text, close, '\'') {
        return Ok(None);
    }
    let kind = TokenKind::Quoted(Word::new(alloc, word.as_str())?);
    let end = close + 1;
    Ok(Some(Spelled { kind, end }))
}
