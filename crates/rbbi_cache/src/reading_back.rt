//! What is read before a place at once: the categories of its characters, and two anchors.
ghost use Rattle.std.specs.Prelude.{◌≡◌, ℕ, ◌+◌, ◌-◌, ◌*◌, ◌<◌, ◌≤◌, length, drop, slice_index};
ghost use Rattle.std.specs.Prelude.{MatchOption, ⊤};
ghost use Rattle.rbbi_model.specs.Words.{most_characters};
ghost use Rattle.rbbi_model.specs.Costs.{anchor_below};
ghost use Rattle.rbbi_model.specs.SafePairs.{IsSafePair};
ghost use Rattle.rbbi_cache.specs.inner.Back.{AreBack, EndWith, HasNoneFrom, IsNear};

use crate::anchors::anchor_before;
use rbbi_table::Table;
use rbbi_text::{Chars, Steps};
use std::sync::ledger::Ledger;

/// How many characters are read at once at most.
pub(crate) const MOST_READ: u32 = 64;

/// The slot of the character before the end.
const LAST_SLOT: usize = 63;

/// Two anchors before a place, and where what was read begins.
#[derive(Clone, Copy)]
pub(crate) struct Back {
    /// The greatest anchor three characters before the place or more, or 0.
    pub(crate) near: u32,
    /// The least one that was found: the same, or one before it.
    pub(crate) wide: u32,
    /// The first character whose category is kept.
    pub(crate) from: u32,
    /// Where that is kept.
    pub(crate) start: usize,
}

/// Reads back, from two characters before a place on, to the greatest anchor three characters
/// before it or more, and then on to three times as far, but 64 characters in all. The categories
/// are kept at the end of the slots.
///
/// The bound on what `before` reads counts each character back to the anchor twice beside the
/// searches from there, and these read none of the characters again whose categories are kept.
pub(crate) fn read_back<T: Chars, L: Ledger>(
    table: &Table,
    text: &T,
    i: u32,
    slots: &mut [u16],
    steps: &mut Steps<L>,
) -> Back
    requires room { length slots.old ≡ 64 }
    requires some { 0 < i }
    requires within { i ≤ length (T.characters text.now) }
    requires small { i ≤ most_characters }
    ensures near { result.near ≡ anchor_below table.now (T.characters text.now) (i - 2) }
    ensures room { length slots.new ≡ 64 }
    ensures start { result.start ≤ 64 }
    ensures back { AreBack table.now (T.characters text.now) i result.near result.wide result.from
        (drop result.start slots.new) }
    ensures more { steps.old ≤ steps.new }
    ensures cost { result.from ≤ result.near → steps.new + 3 * result.near + 1 ≤ steps.old + 3 * i }
    ensures walk { result.near < result.from → steps.new + 2 * result.near ≤ steps.old + 2 * i }
{
    table.valid();
    let end = i - 1;
    let Some(near) = read_near(table, text, end, slots, steps) else {
        let from = end - MOST_READ;
        let near = anchor_before(table, text, 0, from, steps);
        return Back {
            near,
            wide: near,
            from,
            start: 0,
        };
    };
    let most = end.saturating_sub(MOST_READ);
    let from = most.max((3 * near).saturating_sub(2 * i));
    let start = (from + MOST_READ - end) as usize;
    let last = start + (near - from) as usize;
    read_on(table, text, from, near, end, slots, steps);
    let first = first_safe(table, slots, start, last);
    Back {
        near,
        wide: near - (last - first) as u32,
        from,
        start,
    }
}

/// Reads back from an end to the greatest anchor two characters before it or more, or 0, if it
/// comes there within 64 characters.
fn read_near<T: Chars, L: Ledger>(
    table: &Table,
    text: &T,
    end: u32,
    slots: &mut [u16],
    steps: &mut Steps<L>,
) -> Option<u32>
    requires room { length slots.old ≡ 64 }
    requires within { end ≤ length (T.characters text.now) }
    ensures near { MatchOption result (HasNoneFrom table.now (T.characters text.now) end)
        (IsNear table.now (T.characters text.now) end) }
    ensures room { length slots.new ≡ 64 }
    ensures kept { MatchOption result ⊤ (λ near.
        EndWith table.now (T.characters text.now) near end slots.new) }
    ensures steps { MatchOption result (steps.new ≡ steps.old + 64)
        (λ near. steps.new + near ≡ steps.old + end) }
{
    if end == 0 {
        return Some(0);
    }
    let low = end.saturating_sub(MOST_READ);
    let mut place = end - 1;
    let mut slot = LAST_SLOT;
    let mut next = table.category(text.char_at(place, steps));
    slots[slot] = next;
    while place > low {
        place -= 1;
        slot -= 1;
        let here = table.category(text.char_at(place, steps));
        slots[slot] = here;
        if table.is_safe(here, next) {
            return Some(place);
        }
        next = here;
    }
    if low == 0 { Some(0) } else { None }
}

/// Reads on back from a place to another one.
fn read_on<T: Chars, L: Ledger>(
    table: &Table,
    text: &T,
    from: u32,
    to: u32,
    end: u32,
    slots: &mut [u16],
    steps: &mut Steps<L>,
)
    requires room { length slots.old ≡ 64 }
    requires order { from ≤ to }
    requires before { to ≤ end }
    requires few { end ≤ from + 64 }
    requires within { end ≤ length (T.characters text.now) }
    requires small { end ≤ most_characters }
    requires kept { EndWith table.now (T.characters text.now) to end slots.old }
    ensures room { length slots.new ≡ 64 }
    ensures kept { EndWith table.now (T.characters text.now) from end slots.new }
    ensures steps { steps.new + from ≡ steps.old + to }
{
    let mut place = to;
    let mut slot = (to + MOST_READ - end) as usize;
    while place > from {
        place -= 1;
        slot -= 1;
        slots[slot] = table.category(text.char_at(place, steps));
    }
}

/// The first slot at which a safe pair stands, or the last one.
fn first_safe(table: &Table, slots: &[u16], low: usize, last: usize) -> usize
    requires order { low ≤ last }
    requires room { low < last → last < length slots.now }
    requires fit { (k : ℕ) → low ≤ k → k < length slots.now →
        slice_index slots.now k < table.now.categories }
    ensures from { low ≤ result }
    ensures to { result ≤ last }
    ensures safe { result < last → IsSafePair table.now (slice_index slots.now result)
        (slice_index slots.now (result + 1)) }
{
    let mut slot = low;
    while slot < last && !table.is_safe(slots[slot], slots[slot + 1]) {
        slot += 1;
    }
    slot
}
