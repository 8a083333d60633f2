//! The last boundary before a place: found by searches from anchors farther and farther back.
ghost use Rattle.std.specs.Prelude.{◌≡◌, ℕ, ◌+◌, ◌-◌, ◌*◌, ◌<◌, ◌≤◌, ◌⊎◌, length, List};
ghost use Rattle.std.specs.Prelude.{MatchOption};
ghost use Rattle.rbbi_model.specs.Words.{most_characters};
ghost use Rattle.rbbi_model.specs.ValidTables.{IsValidTable};
ghost use Rattle.rbbi_model.specs.Runs as model;
ghost use Rattle.rbbi_model.specs.Runs.{IsAnchor};
ghost use Rattle.rbbi_model.specs.Costs.{anchor_below, searches_cost, back_cost};
ghost use Rattle.rbbi_cache.specs.Kept.{IsLastBefore};
ghost use Rattle.rbbi_cache.specs.inner.Back.{AreBack};
ghost use Rattle.rbbi_cache.specs.inner.Lists.{StandsLastButOne};
ghost use Rattle.rbbi_cache.specs.inner.Ready.{HasNoneBefore, IsFloor, IsReadyBefore};

use crate::anchors::anchor_before;
use crate::reading_back::{Back, read_back};
use crate::scan::scan;
use crate::wide::{fill_from, fill_wide};
use crate::{Entry, Run};
use rbbi_table::{FrontPlaces, ShortTable, Table};
use rbbi_text::{Chars, Steps};
use std::sync::ledger::Ledger;

/// Searches for the last boundary before `i`, or None if it is the start. The first try begins at
/// the greatest anchor three characters back or more, each further one at least twice as far back.
/// The floor is a place from which on no anchor but 0 finds anything; these tries are left out.
pub(crate) fn search_back<T: Chars, L: Ledger>(
    table: &Table,
    text: &T,
    i: u32,
    floor: u32,
    run: &mut Run,
    slots: &mut [u16],
    marks: &mut FrontPlaces,
    steps: &mut Steps<L>,
) -> Option<Entry>
    requires fit { marks.old ≡ table.now.slashes }
    requires room { length slots.old ≡ 64 }
    requires some { 0 < i }
    requires within { i ≤ length (T.characters text.now) }
    requires small { i ≤ most_characters }
    requires floor { IsFloor table.now (T.characters text.now) floor i }
    ensures found { MatchOption result
        (IsLastBefore table.now (T.characters text.now) i
        (record { at = 0; status = 0; reach = 0 }))
        (λ entry. (kept : List model.Run) →
        IsReadyBefore table.now (T.characters text.now) i kept entry run.new) }
    ensures more { steps.old ≤ steps.new }
    ensures cost { steps.new ≤ steps.old + back_cost table.now (T.characters text.now) i }
    ensures fit { marks.new ≡ marks.old }
{
    table.valid();
    let first = first_try(table, text, i, floor, run, slots, marks, steps);
    if let Some(entry) = first.found {
        return Some(entry);
    }
    let mut anchor = first.anchor;
    'tries: loop {
        if anchor == 0 {
            return None;
        }
        anchor = anchor_before(table, text, 0, (2 * anchor + 1).saturating_sub(i), steps);
        if let Some(entry) = search_from(table, text, anchor, i, floor, run, marks, steps) {
            return Some(entry);
        }
    }
}

/// The anchor of the first try, and the last boundary before `i`, if one was found from there.
#[derive(Drop)]
struct First {
    anchor: u32,
    found: Option<Entry>,
}

/// Makes the first try. Over a short table it reads back three times as far, if it can, and then
/// mostly finds several boundaries before `i`.
fn first_try<T: Chars, L: Ledger>(
    table: &Table,
    text: &T,
    i: u32,
    floor: u32,
    run: &mut Run,
    slots: &mut [u16],
    marks: &mut FrontPlaces,
    steps: &mut Steps<L>,
) -> First
    requires fit { marks.old ≡ table.now.slashes }
    requires room { length slots.old ≡ 64 }
    requires some { 0 < i }
    requires within { i ≤ length (T.characters text.now) }
    requires small { i ≤ most_characters }
    requires floor { IsFloor table.now (T.characters text.now) floor i }
    ensures anchor { result.anchor ≡ anchor_below table.now (T.characters text.now) (i - 2) }
    ensures found { MatchOption result.found
        (HasNoneBefore table.now (T.characters text.now) result.anchor i)
        (λ entry. (kept : List model.Run) →
        IsReadyBefore table.now (T.characters text.now) i kept entry run.new) }
    ensures more { steps.old ≤ steps.new }
    ensures cost { steps.new ≤ steps.old + (2 * (i - result.anchor)
        + searches_cost table.now (T.characters text.now) result.anchor (i - 1)) }
    ensures fit { marks.new ≡ marks.old }
{
    table.valid();
    let Some(short) = table.short() else {
        let anchor = anchor_before(table, text, 0, i.saturating_sub(2), steps);
        let found = search_from(table, text, anchor, i, floor, run, marks, steps);
        return First { anchor, found };
    };
    let back = read_back(table, text, i, slots, steps);
    let anchor = back.near;
    if back.from > anchor {
        let found = search_from(table, text, anchor, i, floor, run, marks, steps);
        return First { anchor, found };
    }
    let read = &slots[back.start..];
    let found = search_read(&short, text, back, read, i, floor, run, steps);
    First { anchor, found }
}

/// As `search_from`, from the near anchor, over what was read back. If it can, it begins at the
/// wide one and finds more.
fn search_read<T: Chars, L: Ledger>(
    table: &ShortTable<'_>,
    text: &T,
    back: Back,
    categories: &[u16],
    i: u32,
    floor: u32,
    run: &mut Run,
    steps: &mut Steps<L>,
) -> Option<Entry>
    requires valid { IsValidTable table.now }
    requires some { 0 < i }
    requires within { i ≤ length (T.characters text.now) }
    requires small { i ≤ most_characters }
    requires floor { IsFloor table.now (T.characters text.now) floor i }
    requires back { AreBack table.now (T.characters text.now) i back.near back.wide back.from
        categories.now }
    requires covered { back.from ≤ back.near }
    ensures found { MatchOption result
        (HasNoneBefore table.now (T.characters text.now) back.near i)
        (λ entry. (kept : List model.Run) →
        IsReadyBefore table.now (T.characters text.now) i kept entry run.new) }
    ensures more { steps.old ≤ steps.new }
    ensures cost { steps.new + (i - 1 - back.near)
        ≤ steps.old + searches_cost table.now (T.characters text.now) back.near (i - 1) }
{
    if fill_wide(table, text, back, categories, i, floor, run, steps) {
        return last_but_one(run);
    }
    if back.near > 0 && back.near >= floor {
        return None;
    }
    if !fill_from(table, text, back, categories, back.near, run, i, steps) {
        unreachable!();
    }
    last_but_one(run)
}

/// The entry that stands last but one, if there are so many.
fn last_but_one(run: &Run) -> Option<Entry>
    ensures { MatchOption result (length run.now.entries < 2)
        (λ entry. StandsLastButOne run.now.entries entry) }
{
    let entries = run.entries();
    if entries.len() < 2 {
        return None;
    }
    Some(entries[entries.len() - 2])
}

/// Searches from an anchor for the last boundary before `i` two characters past it or more. From an
/// anchor at or past the floor, except 0, it finds none without a search.
fn search_from<T: Chars, L: Ledger>(
    table: &Table,
    text: &T,
    anchor: u32,
    i: u32,
    floor: u32,
    run: &mut Run,
    marks: &mut FrontPlaces,
    steps: &mut Steps<L>,
) -> Option<Entry>
    requires fit { marks.old ≡ table.now.slashes }
    requires anchor { IsAnchor table.now (T.characters text.now) anchor }
    requires before { (anchor ≡ 0) ⊎ (anchor + 2 ≤ i) }
    requires some { 0 < i }
    requires within { i ≤ length (T.characters text.now) }
    requires small { i ≤ most_characters }
    requires floor { IsFloor table.now (T.characters text.now) floor i }
    ensures found { MatchOption result
        (HasNoneBefore table.now (T.characters text.now) anchor i)
        (λ entry. (kept : List model.Run) →
        IsReadyBefore table.now (T.characters text.now) i kept entry run.new) }
    ensures more { steps.old ≤ steps.new }
    ensures cost { steps.new
        ≤ steps.old + searches_cost table.now (T.characters text.now) anchor (i - 1) }
    ensures fit { marks.new ≡ marks.old }
{
    table.valid();
    if anchor > 0 && anchor >= floor {
        return None;
    }
    run.begin(anchor);
    let from = Entry {
        at: anchor,
        status: 0,
        reach: 0,
    };
    scan(table, text, run, from, i - 1, marks, steps);
    last_but_one(run)
}
