//! How many characters a question may read, by its definition: sums over fresh searches.
ghost use Rattle.std.specs.Prelude.{◌≡◌, ◌<◌, length};

use crate::questions::Question;
use crate::searches::{Search, searches};
use rbbi_table::Table;
use rbbi_text::{Chars, PlainText, Steps};
use std::alloc::Global;
use std::process::Abort;
use std::sync::ledger::Ledger;

/// Whether a place is an anchor: 0, or where two characters of a safe pair begin.
fn is_anchor<L: Ledger>(table: &Table, text: &PlainText, place: u32, steps: &mut Steps<L>) -> bool {
    let len = text.len();
    if place == 0 {
        return true;
    }
    if place >= len || len - place < 2 {
        return false;
    }
    let first = table.category(text.char_at(place, steps));
    let second = table.category(text.char_at(place + 1, steps));
    table.is_safe(first, second)
}

/// The greatest anchor below a place, or 0.
fn anchor_below<L: Ledger>(
    table: &Table,
    text: &PlainText,
    high: u32,
    steps: &mut Steps<L>,
) -> u32 {
    for place in (0..high).rev() {
        if is_anchor(table, text, place, steps) {
            return place;
        }
    }
    0
}

/// The sum of what the searches read that begin at a place or before.
fn read_up_to(searches: &[Search], place: u32) -> u64 {
    let mut sum = 0u64;
    for search in searches {
        if search.from <= place {
            sum = sum.saturating_add(u64::from(search.end.saturating_sub(search.from)));
        }
    }
    sum
}

/// The cost of the first boundary past a place that lies before the end of the text: the walk back
/// to the greatest anchor before the place, and the searches from there.
fn forward_cost<L: Ledger>(
    rt: &impl Abort,
    alloc: Global,
    table: &Table,
    text: &PlainText,
    place: u32,
    steps: &mut Steps<L>,
) -> u64 {
    let anchor = anchor_below(table, text, place, steps);
    let searches = searches(rt, alloc, table, text, anchor, steps);
    let walk = u64::from(place.saturating_sub(anchor)) + 1;
    walk.saturating_add(read_up_to(&searches, place))
}

/// Whether a try from an anchor is the last one: a boundary before the place lies two characters
/// past the anchor or later, or the anchor is 0.
fn settles(searches: &[Search], anchor: u32, place: u32) -> bool {
    let low = u64::from(anchor) + 2;
    let mut found = searches.iter().map(|search| search.at);
    anchor == 0 || found.any(|at| u64::from(at) >= low && at < place)
}

/// The cost of the last boundary before a place from 1 to the length of the text: the walks back
/// to the last try's anchor, and the searches of each try. Each try but the last is followed by one
/// that lies at least twice as far back.
fn back_cost<L: Ledger>(
    rt: &impl Abort,
    alloc: Global,
    table: &Table,
    text: &PlainText,
    place: u32,
    steps: &mut Steps<L>,
) -> u64 {
    let mut anchor = anchor_below(table, text, place.saturating_sub(2), steps);
    let mut sum = 0u64;
    for _ in 0..place {
        let searches = searches(rt, alloc, table, text, anchor, steps);
        sum = sum.saturating_add(read_up_to(&searches, place.saturating_sub(1)));
        if settles(&searches, anchor, place) {
            break;
        }
        let high = anchor
            .saturating_mul(2)
            .saturating_add(1)
            .saturating_sub(place);
        anchor = anchor_below(table, text, high, steps);
    }
    let walk = u64::from(place.saturating_sub(anchor)) * 2;
    walk.saturating_add(sum)
}

/// The cost of a question from a cursor.
pub(crate) fn cost<L: Ledger>(
    rt: &impl Abort,
    alloc: Global,
    table: &Table,
    text: &PlainText,
    cursor: u32,
    question: Question,
    steps: &mut Steps<L>,
) -> u64 {
    let len = text.len();
    let end = len.saturating_sub(1);
    let forward = match question {
        Question::First | Question::Previous | Question::Preceding(_) => None,
        Question::Last => Some(end),
        Question::Next if cursor >= len => None,
        Question::Next => Some(cursor),
        Question::Following(place) => Some(place.min(end)),
        Question::IsBoundary(0) => None,
        Question::IsBoundary(place) => Some((place - 1).min(end)),
    };
    let back = match question {
        Question::Previous => cursor,
        Question::Preceding(place) => place,
        _ => 0,
    };
    match forward {
        _ if len == 0 => 0,
        Some(place) => forward_cost(rt, alloc, table, text, place, steps),
        None if back == 0 => 0,
        None if back > len => forward_cost(rt, alloc, table, text, end, steps),
        None => back_cost(rt, alloc, table, text, back, steps),
    }
}
