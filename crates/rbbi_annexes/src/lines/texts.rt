//! One pass over a text, with what stands before each place.

ghost use Rattle.std.specs.Prelude.{◌≡◌, ◌∷◌, ℕ, List, [], Option, IfOk, slice_get, if◌then◌else◌};
ghost use Rattle.rbbi_annexes.specs.LineBreaks.{items_after, left_of, right_of, line_verdict};
ghost use Rattle.rbbi_annexes.specs.LineTexts.{line_verdicts};
ghost use Rattle.rbbi_annexes.specs.inner.Lefts.{left_with, is_empty};

use super::items::{Item, alone, is, is_mark, item_of, one_of, takes_marks};
use super::rules::{Left, Right, Verdict, by_rules};
use std::alloc::{AllocError, Global};
use ucd_breaks::LineBreak::{
    BreakSymbols as SY, CloseParenthesis as CP, ClosePunctuation as CL, InfixNumeric as IS,
    Numeric as NU, RegionalIndicator as RI, Space as SP, Zwj as ZWJ,
};

pub(super) fn either(test: bool, held: Option<Item>, item: Option<Item>) -> Option<Item>
    ensures { result ≡ (if test then held else item) }
{
    if test { held } else { item }
}

/// What stands before a place, once an item of its own is passed.
pub(super) fn left_after_item(l: &Left, item: Item, joiner: bool) -> Left
    ensures { result ≡ left_with l.now item joiner }
{
    let first = Some(item);
    let space = is(SP, first);
    Left {
        first,
        second: l.first,
        held: either(space, l.held, first),
        before_held: either(space, l.before_held, l.first),
        joiner,
        number: is(NU, first) | one_of(&[SY, IS], first) & l.number,
        closed_number: one_of(&[CL, CP], first) & l.number,
        half_flag: is(RI, first) & !l.half_flag,
    }
}

/// What stands before a place, once the character at it is passed.
#[tactic(auto, using(crate::proofs::LineTexts::left_mark, crate::proofs::LineTexts::left_item))]
pub(super) fn left_after(l: &Left, c: char) -> Left
    ensures { (before : List ℕ) → l.now ≡ left_of before → result ≡ left_of (c ∷ before) }
{
    let raw = item_of(c);
    let joiner = is(ZWJ, Some(raw));
    if is_mark(raw) & takes_marks(l.first) {
        Left { joiner, ..*l }
    } else {
        left_after_item(l, alone(raw), joiner)
    }
}

/// The first item after one, and the characters after that.
#[tactic(auto, using(crate::proofs::LineTexts::after_mark, crate::proofs::LineTexts::after_item))]
pub(super) fn next_item(last: Option<Item>, after: &[char]) -> (Option<Item>, &[char])
    ensures first { result.0 ≡ slice_get (items_after last after.now) 0 }
    ensures second { slice_get (items_after result.0 result.1.now) 0
        ≡ slice_get (items_after last after.now) 1 }
{
    let takes = takes_marks(last);
    let mut rest = after;
    while let Some((c, further)) = rest.split_first() {
        let item = item_of(*c);
        rest = further;
        if !(is_mark(item) & takes) {
            return (Some(alone(item)), rest);
        }
    }
    (None, rest)
}

/// What stands after a place. It reads over all marks that follow, so the verdicts on a long run of
/// marks take the square of its length.
pub(super) fn right_of(next: char, after: &[char]) -> Right
    ensures { result ≡ right_of next after.now }
{
    let item = item_of(next);
    let first = Some(alone(item));
    let (second, rest) = next_item(first, after);
    let (third, _) = next_item(second, rest);
    Right {
        mark: is_mark(item),
        first,
        second,
        third,
    }
}

/// The verdict at the end of a text.
pub(super) fn verdict_at_end(is_start: bool) -> Verdict
    ensures { (before : List ℕ) → is_start ≡ is_empty before → result ≡ line_verdict before [] }
{
    if is_start {
        Verdict::NoBreak
    } else {
        Verdict::MustBreak
    }
}

/// The verdict in front of a character.
pub(super) fn verdict_before(is_start: bool, l: &Left, next: char, after: &[char]) -> Verdict
    ensures { (before : List ℕ) → is_start ≡ is_empty before → l.now ≡ left_of before
        → result ≡ line_verdict before (next ∷ after.now) }
{
    if is_start {
        Verdict::NoBreak
    } else {
        by_rules(l, &right_of(next, after))
    }
}

/// What stands before the first place of a text: nothing.
pub(super) fn start() -> Left
    ensures { result ≡ left_of [] }
{
    Left {
        first: None,
        second: None,
        held: None,
        before_held: None,
        joiner: false,
        number: false,
        closed_number: false,
        half_flag: false,
    }
}

/// Whether a line must, may or can't be broken at each place of a text, from its start to its end.
pub fn line_verdicts(alloc: Global, text: &[char]) -> Result<Vec<Verdict>, AllocError>
    ensures { IfOk result (λ verdicts. verdicts.items ≡ line_verdicts text.now) }
{
    let mut verdicts = Vec::new(alloc);
    let mut is_start = true;
    let mut left = start();
    let mut rest = text;
    while let Some((next, after)) = rest.split_first() {
        verdicts.push(verdict_before(is_start, &left, *next, after))?;
        is_start = false;
        left = left_after(&left, *next);
        rest = after;
    }
    verdicts.push(verdict_at_end(is_start))?;
    Ok(verdicts)
}
