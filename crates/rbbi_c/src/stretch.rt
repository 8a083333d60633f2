//! Stretches of a text, in which boundaries are found without a look at the rest of it.
ghost use Rattle.std.specs.Prelude.{◌≡◌, ◌+◌, ◌^◌, ◌<◌, ◌≤◌, length, ⊤, MatchOption};
ghost use Rattle.rbbi_model.specs.declared.unit.Unit.{Unit as TextUnit};
ghost use Rattle.rbbi_model.specs.Units.{offset_of};
ghost use Rattle.rbbi_model.specs.Answers.{first_after};
ghost use Rattle.rbbi_model.specs.Searches.{table_boundaries};
ghost use Rattle.rbbi_c.specs.inner.Bounds.{IsBound, Finds};
ghost use Rattle.rbbi_c.specs.inner.Stretches.{AreGreatest, IsMeasured, IsStretch};

use crate::bounds::{Bound, next_bound};
use crate::greatest::Greatest;
use rbbi_table::{FrontPlaces, Table};
use rbbi_text::{Chars, Excerpt, FlatText, Pieces, Steps, Unit};
use std::sync::ledger::Ledger;

/// How many characters are measured at once.
const BLOCK: u32 = 64;

/// Characters next to each other, by their places, and whether each takes one of a unit.
#[derive(Clone, Copy)]
pub(crate) struct Block {
    pub(crate) from: u32,
    pub(crate) to: u32,
    pub(crate) even: bool,
}

/// A stretch of a text, and of some of its characters how much of a unit they take.
#[derive(Drop)]
pub(crate) struct Stretch<'a> {
    pub(crate) excerpt: Excerpt<'a>,
    pub(crate) block: Block,
}

impl<'a> Stretch<'a> {
    /// The stretch around a place, of which nothing is measured.
    pub(crate) fn around(text: &'a Pieces, at: u32) -> Stretch<'a>
        requires { at ≤ length text.now }
        ensures { (unit : TextUnit) → IsStretch unit text.now result }
    {
        let block = Block {
            from: 0,
            to: 0,
            even: false,
        };
        Stretch {
            excerpt: text.excerpt(at),
            block,
        }
    }
}

/// The next characters from a place on, measured.
fn measured(excerpt: &Excerpt<'_>, unit: Unit, from: u32) -> Block
    requires { from ≤ length excerpt.now.items }
    ensures from { result.from ≡ from }
    ensures measured { IsMeasured unit excerpt.now.items result }
{
    let to = from + BLOCK.min(excerpt.len() - from);
    let even = excerpt.are_single(unit, from, to);
    Block { from, to, even }
}

/// The block, or where it doesn't begin before these characters and end after them, the one that
/// begins with them.
#[inline(always)]
fn block_on(excerpt: &Excerpt<'_>, unit: Unit, from: u32, to: u32, block: Block) -> Block
    requires within { from ≤ length excerpt.now.items }
    requires measured { IsMeasured unit excerpt.now.items block }
    ensures from { result.from ≤ from }
    ensures measured { IsMeasured unit excerpt.now.items result }
{
    if block.from <= from && to <= block.to {
        return block;
    }
    measured(excerpt, unit, from)
}

/// How much of a unit the characters from one place to another take together. Mostly each takes
/// one, as the block that they are in says.
#[inline(always)]
fn units_on(excerpt: &Excerpt<'_>, unit: Unit, from: u32, to: u32, block: &mut Block) -> u32
    requires forward { from ≤ to }
    requires within { to ≤ length excerpt.now.items }
    requires measured { IsMeasured unit excerpt.now.items block.old }
    ensures sum { offset_of unit excerpt.now.items from + result
        ≡ offset_of unit excerpt.now.items to }
    ensures measured { IsMeasured unit excerpt.now.items block.new }
{
    if let Unit::Chars = unit {
        return to - from;
    }
    // Many segments are one character.
    if to - from == 1 {
        return excerpt.units_between(unit, from, to);
    }
    *block = block_on(excerpt, unit, from, to, *block);
    if block.even && to <= block.to {
        return to - from;
    }
    excerpt.units_between(unit, from, to)
}

/// The boundary that follows one, where the search for it reads characters of the stretch alone.
#[inline(always)]
fn next_within<L: Ledger>(
    table: &Table,
    text: &Pieces,
    unit: Unit,
    bound: Bound,
    stretch: &mut Stretch<'_>,
    greatest: &Greatest,
    marks: &mut FrontPlaces,
    steps: &mut Steps<L>,
) -> Option<Bound>
    requires bound { IsBound table.now unit text.now bound }
    requires small { offset_of unit text.now (length text.now) < 2 ^ 32 }
    requires stretch { IsStretch unit text.now stretch.old }
    requires greatest { AreGreatest table.now greatest.now.statuses }
    requires fit { marks.old ≡ table.now.slashes }
    ensures found { MatchOption result ⊤ (λ _. Finds table.now unit text.now
        (first_after (table_boundaries table.now text.now) bound.at) result) }
    ensures stretch { IsStretch unit text.now stretch.new }
    ensures fit { marks.new ≡ marks.old }
{
    rbbi_model::next_boundary_is_past_the_start();
    table.valid();
    let _text = text;
    let excerpt = &stretch.excerpt;
    let start = excerpt.from();
    if bound.at < start || bound.at - start >= excerpt.len() {
        return None;
    }
    let from = bound.at - start;
    let found = table.next(excerpt, from, marks, steps);
    if found.look > excerpt.len() {
        return None;
    }
    Some(Bound {
        at: start + found.at,
        offset: bound.offset + units_on(excerpt, unit, from, found.at, &mut stretch.block),
        status: greatest.get(table, found.status),
    })
}

/// The boundary that follows one: within the stretch, or in the text, and then the stretch is the
/// one around it.
#[inline(always)]
pub(crate) fn next_on<'a, L: Ledger>(
    table: &Table,
    text: &'a Pieces,
    unit: Unit,
    bound: Bound,
    stretch: &mut Stretch<'a>,
    greatest: &Greatest,
    marks: &mut FrontPlaces,
    steps: &mut Steps<L>,
) -> Option<Bound>
    requires bound { IsBound table.now unit text.now bound }
    requires small { offset_of unit text.now (length text.now) < 2 ^ 32 }
    requires stretch { IsStretch unit text.now stretch.old }
    requires greatest { AreGreatest table.now greatest.now.statuses }
    requires fit { marks.old ≡ table.now.slashes }
    ensures found { Finds table.now unit text.now
        (first_after (table_boundaries table.now text.now) bound.at) result }
    ensures stretch { IsStretch unit text.now stretch.new }
    ensures fit { marks.new ≡ marks.old }
{
    let within = next_within(table, text, unit, bound, stretch, greatest, marks, steps);
    if within.is_some() {
        return within;
    }
    let found = next_bound(table, text, unit, bound, marks, steps);
    if let Some(next) = found {
        *stretch = Stretch::around(text, next.at);
    }
    found
}
