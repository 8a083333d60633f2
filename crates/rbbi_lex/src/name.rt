//! Names of variables and of controls.
ghost use Rattle.std.specs.Prelude.{◌<◌, length, IfOk};
ghost use Rattle.rbbi_lex.specs.declared.case.Case.TheVariants.{Variable, ControlName};
ghost use Rattle.rbbi_lex.specs.inner.Steps.{IsSpelling};

use crate::character::{character_at, is_name_start};
use crate::spelled::{Spelled, Spelling};
use crate::stretch::{Stretch, stretch_end};
use crate::token::TokenKind;
use crate::words::word_between;
use std::alloc::Global;

/// A name after the `$` at a place, if one begins there.
pub(crate) fn variable(alloc: Global, text: &[char], at: usize) -> Spelling
    requires { at < length text.now }
    ensures { IfOk result (IsSpelling text.now Variable at) }
{
    match character_at(text, at + 1) {
        Some(c) if is_name_start(c) => {
            let end = stretch_end(Stretch::NameText, text, at + 1);
            let kind = TokenKind::Name(word_between(alloc, text, at + 1, end)?);
            Ok(Some(Spelled { kind, end }))
        }
        _ => Ok(None),
    }
}

/// A control after the `!!` at a place, if one letter, digit or `_` at least stands there.
pub(crate) fn control(alloc: Global, text: &[char], at: usize) -> Spelling
    requires { at < length text.now }
    ensures { IfOk result (IsSpelling text.now ControlName at) }
{
    let end = stretch_end(Stretch::ControlText, text, at + 2);
    if end == at + 2 {
        return Ok(None);
    }
    let kind = TokenKind::Control(word_between(alloc, text, at + 2, end)?);
    Ok(Some(Spelled { kind, end }))
}
