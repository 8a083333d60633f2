//! What a case of the tables spells.
ghost use Rattle.std.specs.Prelude.{◌+◌, ◌<◌, length, IfOk};
ghost use Rattle.rbbi_lex.specs.declared.case.Case.TheVariants.{Sign, SetSign, SetStart, QuotePair};
ghost use Rattle.rbbi_lex.specs.declared.case.Case.TheVariants.{BareCharacter};
ghost use Rattle.rbbi_lex.specs.Spellings.{SpellsBare};
ghost use Rattle.rbbi_lex.specs.inner.Steps.{IsSpelling};

use crate::case::Case;
use crate::character::stands_at;
use crate::escape::escape;
use crate::name::{control, variable};
use crate::property::{braced_property, bracketed_property};
use crate::quotation::quotation;
use crate::sign::{inner_sign, outer_sign};
use crate::spelled::{Spelled, Spelling};
use crate::tag::tag;
use crate::token::TokenKind;
use std::alloc::Global;

/// The token of the sign at a place outside of sets.
fn outer(text: &[char], at: usize) -> Option<Spelled>
    requires { at < length text.now }
    ensures { IsSpelling text.now Sign at result }
{
    let kind = outer_sign(text[at])?;
    Some(Spelled { kind, end: at + 1 })
}

/// The token of the sign at a place inside of sets.
fn inner(text: &[char], at: usize) -> Option<Spelled>
    requires { at < length text.now }
    ensures { IsSpelling text.now SetSign at result }
{
    let kind = inner_sign(text[at])?;
    Some(Spelled { kind, end: at + 1 })
}

/// The character at a place, which stands for itself.
fn bare(text: &[char], at: usize) -> Spelled
    requires { at < length text.now }
    ensures { SpellsBare text.now at result.end result.kind }
{
    let c = text[at];
    let kind = TokenKind::Char { c, bare: true };
    Spelled { kind, end: at + 1 }
}

/// One quote, where `''` stands at a place.
fn quote_pair(text: &[char], at: usize) -> Option<Spelled>
    requires { at < length text.now }
    ensures { IsSpelling text.now QuotePair at result }
{
    if !stands_at(text, at + 1, '\'') {
        return None;
    }
    let c = '\'';
    let kind = TokenKind::Char { c, bare: false };
    Some(Spelled { kind, end: at + 2 })
}

/// What a case spells from a place on, if it spells a token there.
pub(crate) fn spell(alloc: Global, text: &[char], case: Case, at: usize) -> Spelling
    requires { at < length text.now }
    ensures { IfOk result (IsSpelling text.now case at) }
{
    match case {
        Case::Sign => Ok(outer(text, at)),
        Case::SetSign => Ok(inner(text, at)),
        Case::BracketedProperty => bracketed_property(alloc, text, at),
        Case::SetStart => Ok(Some(Spelled {
            kind: TokenKind::SetOpen,
            end: at + 1,
        })),
        Case::Variable => variable(alloc, text, at),
        Case::ControlName => control(alloc, text, at),
        Case::StatusNumber => Ok(tag(text, at)),
        Case::QuotePair => Ok(quote_pair(text, at)),
        Case::Quotation => quotation(alloc, text, at),
        Case::BracedProperty => braced_property(alloc, text, at),
        Case::Escape => Ok(escape(text, at)),
        Case::BareCharacter | Case::SetCharacter => Ok(Some(bare(text, at))),
        Case::Brace | Case::OtherCharacter => Ok(None),
    }
}
