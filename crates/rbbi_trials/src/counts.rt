//! Counts that are kept under random edits, held against counting again after each.
ghost use Rattle.std.specs.Prelude.{◌≡◌, ◌<◌};

use crate::draws::Draws;
use crate::questions::Boundary;
use crate::rescans::Rescans;
use crate::tables::{WORDS, table_of};
use rbbi_table::Table;
use rbbi_tally::{Tally, ValueCount};
use rbbi_text::{Chars, Pieces, Steps};
use std::alloc::Global;
use std::marker::Brand;
use std::process::Abort;
use std::sync::ledger::{Blank, Ledger};

/// Rules, and the characters of their texts. By the last ones a search looks on to the next `b` or
/// `c`, past many boundaries.
const RULES: &[(&str, &[char])] = &[
    (WORDS, &['a', 'b', 'Z', '\'', '1', '2', '.', ',', ' ', '-']),
    (
        "a+ / b {7}; b {3}; [bc] {9};",
        &['a', 'a', 'a', 'b', 'c', 'd'],
    ),
    (
        "a {1}; a+b {2}; c;",
        &['a', 'a', 'a', 'a', 'a', 'a', 'a', 'a', 'a', 'b', 'c'],
    ),
];

/// The number of edits by each rule file, about 4,000 in all.
const EDITS: u32 = 1334;

/// The number of characters that a text has at first.
const LENGTH: u32 = 100;

/// The largest status of a boundary.
fn largest_status(table: &Table, boundary: Boundary) -> Option<u32> {
    if boundary.status >= table.lists() {
        return None;
    }
    table.status_list(boundary.status).iter().max().copied()
}

/// How many of the boundaries past 0 have a value as their largest status.
fn count_of(table: &Table, boundaries: &[Boundary], value: u32) -> u64 {
    let mut count: u64 = 0;
    for boundary in boundaries {
        if boundary.at > 0 && largest_status(table, *boundary) == Some(value) {
            count = count.wrapping_add(1);
        }
    }
    count
}

/// Whether a value has its count.
fn is_right(
    table: &Table,
    tally: &Tally<'_, Pieces>,
    boundaries: &[Boundary],
    pair: ValueCount,
) -> bool {
    pair.count > 0
        && u64::from(pair.count) == count_of(table, boundaries, pair.value)
        && tally.count(pair.value) == pair.count
}

/// Whether the values rise, each has its count, and no segment is left out.
fn are_right(
    table: &Table,
    tally: &Tally<'_, Pieces>,
    boundaries: &[Boundary],
    counts: &[ValueCount],
) -> bool {
    let mut least = 0u64;
    let mut all = 1u64;
    for pair in counts {
        if u64::from(pair.value) < least || !is_right(table, tally, boundaries, *pair) {
            return false;
        }
        least = u64::from(pair.value) + 1;
        all = all.wrapping_add(u64::from(pair.count));
    }
    all == boundaries.len() as u64 && u64::from(tally.segments()) + 1 == all
}

/// Makes a drawn edit, and tells whether all is as it must be.
fn is_edited<L: Ledger>(
    rt: &impl Abort,
    alloc: Global,
    draws: &mut Draws<'_>,
    tally: &mut Tally<'_, Pieces>,
    rescans: &mut Rescans<'_>,
    steps: &mut Steps<L>,
) -> bool {
    let edit = draws.edit(rt, alloc, tally.text().len());
    let insert = edit.insert.as_str();
    let wanted = rescans.replace(rt, alloc, edit.at, edit.remove, insert);
    let taken = tally.replace(edit.at, edit.remove, insert, steps).is_ok();
    let boundaries = rescans.boundaries(rt, alloc, &[], steps);
    let counts = tally.each(alloc).expect(rt, "counts");
    taken == wanted
        && tally.text().len() == rescans.len()
        && are_right(rescans.table, tally, &boundaries, counts.as_slice())
}

/// The number of the first edit, from 0, after which something isn't as it must be.
fn first_wrong<L: Ledger, R: Abort>(
    rt: &R,
    host: &HostRuntime,
    table: &Table,
    alphabet: &[char],
    blank: Blank,
) -> Option<u32>
    requires name { blank.name ≡ L.name }
    requires parts { blank.parts ≡ L.parts }
    requires some { 0 < blank.parts }
{
    let alloc = host.alloc();
    let mut steps = Steps::<L>::new(host, blank);
    let mut draws = Draws::new(1, alphabet);
    let letters = draws.text(rt, alloc, LENGTH);
    let text = Pieces::new(alloc, letters.as_str()).expect(rt, "a text");
    let mut tally = Tally::open(alloc, table, text, &mut steps).expect(rt, "a tally");
    let mut rescans = Rescans::open(rt, alloc, table, letters.as_str());
    for number in 0..EDITS {
        if !is_edited(rt, alloc, &mut draws, &mut tally, &mut rescans, &mut steps) {
            return Some(number);
        }
    }
    None
}

#[test]
fn counts_by_counting_again(rt: HostRuntime) {
    for row in RULES {
        let table = table_of(&rt, rt.alloc(), row.0);
        let wrong = first_wrong::<Brand, _>(&rt, &rt, &table, row.1, Blank::new(1));
        assert!(rt; wrong.is_none(), "edit {wrong:?} of {:?}", row.0);
    }
}
