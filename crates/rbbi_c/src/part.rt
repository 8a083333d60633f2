//! A part of a session's text, read back.
ghost use Rattle.std.specs.Prelude.{◌≡◌, ◌≤◌, length, slice_range, encode_utf8_all, string_bytes};
ghost use Rattle.std.specs.Prelude.{IfOk, MatchResult};
ghost use Rattle.rbbi_c.specs.Parts.{IsPart, IsNoPart};

use crate::codes;
use rbbi_text::{Chars, Pieces, Steps, Unit, UnitText};
use std::alloc::{AllocError, Global};
use std::sync::ledger::Ledger;

/// The characters from a place to another, in UTF-8.
pub(crate) fn spelled<L: Ledger>(
    alloc: Global,
    text: &Pieces,
    first: u32,
    last: u32,
    steps: &mut Steps<L>,
) -> Result<String, AllocError>
    requires order { first ≤ last }
    requires within { last ≤ length text.now }
    ensures { IfOk result (λ made.
        string_bytes made ≡ encode_utf8_all (slice_range text.now first last)) }
{
    let mut made = String::new(alloc);
    for at in first..last {
        made.push(text.char_at(at, steps))?;
    }
    Ok(made)
}

/// A copy of the text from a place to another.
pub(crate) fn copy_of<L: Ledger>(
    alloc: Global,
    text: &Pieces,
    first: u32,
    last: u32,
    steps: &mut Steps<L>,
) -> Result<Pieces, AllocError>
    requires order { first ≤ last }
    requires within { last ≤ length text.now }
    ensures { IfOk result (λ copy. copy ≡ slice_range text.now first last) }
{
    let made = spelled(alloc, text, first, last, steps)?;
    match Pieces::new(alloc, &made) {
        Ok(copy) => Ok(copy),
        Err(_) => Err(AllocError),
    }
}

/// The characters between two numbers, in UTF-8, or the code of the refusal.
pub(crate) fn part_of<L: Ledger>(
    alloc: Global,
    text: &Pieces,
    unit: Unit,
    from: u32,
    to: u32,
    steps: &mut Steps<L>,
) -> Result<String, u32>
    ensures { MatchResult result (λ made. IsPart unit text.now from to (string_bytes made))
        (IsNoPart unit text.now from to) }
{
    let units = text.offset(unit, text.len());
    if to < from {
        return Err(codes::OUTSIDE);
    }
    if units < to {
        return Err(codes::OUTSIDE);
    }
    let first = text.index(unit, from);
    if !first.whole {
        return Err(codes::INSIDE);
    }
    let last = text.index(unit, to);
    if !last.whole {
        return Err(codes::INSIDE);
    }
    match spelled(alloc, text, first.at, last.at, steps) {
        Ok(made) => Ok(made),
        Err(_) => Err(codes::MEMORY),
    }
}
