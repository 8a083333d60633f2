//! The cases of the tables of tokens.
ghost use Rattle.std.specs.Prelude.{◌≡◌, ◌||◌, ◌&&◌};
ghost use Rattle.rbbi_lex.specs.Characters.{is_sign};
ghost use Rattle.std.specs.List.{find};
ghost use Rattle.rbbi_lex.specs.Cases.{first_case, fits, outer_cases, inner_cases};
ghost use Rattle.rbbi_lex.specs.Faults.{fault_of};
ghost use Rattle.rbbi_lex.specs.inner.Errors.{error_of};

use crate::character::{is_bare, is_sign};
use crate::error::LexErr;
use crate::sign::{inner_sign, outer_sign};
use crate::state::State;

/// A case of the tables of tokens, named for what begins a token there. The first case that fits is
/// taken.
#[derive(Clone, Copy)]
pub(crate) enum Case {
    /// A character that is a token by itself, outside of sets.
    Sign,
    /// A character that is a token by itself, inside of sets.
    SetSign,
    /// `[:`
    BracketedProperty,
    /// `[`
    SetStart,
    /// `$`
    Variable,
    /// `!!`
    ControlName,
    /// `{`, outside of sets.
    StatusNumber,
    /// `''`
    QuotePair,
    /// `'`
    Quotation,
    /// `\p{` or `\P{`
    BracedProperty,
    /// `\`
    Escape,
    /// `{` or `}`, inside of sets.
    Brace,
    /// A character that stands for itself outside of sets.
    BareCharacter,
    /// Any character, inside of sets.
    SetCharacter,
    /// Any character, outside of sets.
    OtherCharacter,
}

impl Case {
    /// The error for a place where the case fits and spells no token.
    pub fn fault(self, place: u32) -> LexErr
        ensures { result ≡ error_of (fault_of self) place }
    {
        match self {
            Case::BracketedProperty | Case::BracedProperty => LexErr::OpenProperty(place),
            Case::Variable | Case::ControlName => LexErr::BadName(place),
            Case::StatusNumber => LexErr::BadTag(place),
            Case::Quotation => LexErr::OpenQuote(place),
            Case::Escape => LexErr::BadEscape(place),
            _ => LexErr::BadChar(place),
        }
    }
}

/// Whether these two characters after a `\` begin a property.
fn begins_property(next: Option<char>, third: Option<char>) -> bool
    ensures { result ≡ ((is_sign next 112 || is_sign next 80) && is_sign third 123) }
{
    (is_sign(next, 'p') || is_sign(next, 'P')) && is_sign(third, '{')
}

/// The first case outside of sets that fits at a character with two others, or none, after it.
fn outer_row(c: char, next: Option<char>, third: Option<char>) -> Case
    ensures { find (fits c next third) outer_cases ≡ Some result }
{
    if outer_sign(c).is_some() {
        return Case::Sign;
    }
    match c {
        '[' if is_sign(next, ':') => Case::BracketedProperty,
        '[' => Case::SetStart,
        '$' => Case::Variable,
        '!' if is_sign(next, '!') => Case::ControlName,
        '{' => Case::StatusNumber,
        '\'' if is_sign(next, '\'') => Case::QuotePair,
        '\'' => Case::Quotation,
        '\\' if begins_property(next, third) => Case::BracedProperty,
        '\\' => Case::Escape,
        _ if is_bare(c) => Case::BareCharacter,
        _ => Case::OtherCharacter,
    }
}

/// The first case inside of sets that fits at a character with two others, or none, after it.
fn inner_row(c: char, next: Option<char>, third: Option<char>) -> Case
    ensures { find (fits c next third) inner_cases ≡ Some result }
{
    if inner_sign(c).is_some() {
        return Case::SetSign;
    }
    match c {
        '[' if is_sign(next, ':') => Case::BracketedProperty,
        '[' => Case::SetStart,
        '$' => Case::Variable,
        '{' | '}' => Case::Brace,
        '\\' if begins_property(next, third) => Case::BracedProperty,
        '\\' => Case::Escape,
        _ => Case::SetCharacter,
    }
}

/// The first case that fits at a character with two others, or none, after it.
pub(crate) fn case_of(state: &State, c: char, next: Option<char>, third: Option<char>) -> Case
    ensures { first_case state.now c next third ≡ Some result }
{
    if state.depth == 0 {
        outer_row(c, next, third)
    } else {
        inner_row(c, next, third)
    }
}
