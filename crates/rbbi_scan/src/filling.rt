//! Boundaries in a window of a text.
ghost use Rattle.std.specs.Prelude.{◌≡◌, ℕ, ◌+◌, ◌-◌, ◌^◌, ◌<◌, ◌≤◌, ◌==◌, length};
ghost use Rattle.std.specs.Prelude.{slice_index, slice_set, if◌then◌else◌};
ghost use Rattle.rbbi_scan.specs.Columns.{columns};
ghost use Rattle.rbbi_scan.specs.Filling.{FillsOn, FillsAll};
ghost use Rattle.rbbi_scan.specs.Greatest.{AreGreatest};

use crate::greatest::Greatest;
use crate::reached::Asked;
use crate::window::Window;
use rbbi_table::{FrontPlaces, Table};
use rbbi_text::{Chars, Steps};
use std::sync::ledger::Ledger;

/// How far the boundaries in a window were written.
#[derive(Clone, Copy)]
pub(crate) struct Filled {
    /// The last of them in the window, in characters, or 0 where there is none.
    pub(crate) at: u32,
    /// How many are written, with those before the window.
    pub(crate) count: usize,
}

/// Writes a number at a place of a list, if there is room for it.
#[inline(always)]
fn write_at(room: &mut [u32], i: usize, number: u32)
    ensures { room.new ≡ slice_set room.old i number }
{
    if i < room.len() {
        room[i] = number;
    }
}

/// Writes where a segment starts or ends at a place of a list, if there is room for it.
#[inline(always)]
fn write_place(room: &mut [u64], i: usize, place: u64)
    ensures { room.new ≡ slice_set room.old i place }
{
    if i < room.len() {
        room[i] = place;
    }
}

/// How many units the characters before a place take, by where each ends.
#[inline(always)]
pub(crate) fn units_before(ends: &[u32], at: u32) -> u64
    requires { at ≤ length ends.now }
    ensures { result ≡ (if at == 0 then 0 else slice_index ends.now (at - 1)) }
{
    if at == 0 {
        0
    } else {
        u64::from(ends[at as usize - 1])
    }
}

/// Writes the segments in a window after the first so many, as far as there is room and no search
/// reads on past the window, unless with `is_final` the text ends there. The window begins at
/// `base`, and `ends` has where each character ends after that.
pub(crate) fn fill<L: Ledger>(
    table: &Table,
    asked: Asked,
    window: &Window<'_>,
    ends: &[u32],
    base: usize,
    is_final: bool,
    count: usize,
    starts: &mut [u64],
    places: &mut [u64],
    statuses: &mut [u32],
    greatest: &Greatest,
    marks: &mut FrontPlaces,
    steps: &mut Steps<L>,
) -> Filled
    requires ends { length ends.now ≡ length window.now }
    requires room { count ≤ length places.old }
    requires low { asked.origin + base < 2 ^ 64 }
    requires small { (k : ℕ) → k < length window.now →
        asked.origin + base + slice_index ends.now k < 2 ^ 64 }
    requires greatest { AreGreatest table.now greatest.now.statuses }
    requires fit { marks.old ≡ table.now.slashes }
    ensures fit { marks.new ≡ marks.old }
    ensures within { result.at ≤ length window.now }
    ensures room { result.count ≤ length places.new }
    ensures filled { FillsOn table.now asked window.now ends.now base is_final count
        (columns starts.old places.old statuses.old)
        (columns starts.new places.new statuses.new) result }
    ensures all { FillsAll table.now window.now is_final (length places.old) result }
{
    rbbi_model::next_boundary_is_past_the_start();
    table.valid();
    let len = window.len();
    let from = asked.origin + base as u64;
    let mut at = 0;
    let mut count = count;
    while at < len && count < places.len() {
        let found = table.next(window, at, marks, steps);
        if !is_final && found.look > len {
            return Filled { at, count };
        }
        let start = at;
        at = found.at;
        if !window.is_kept(asked.only_words, start, at) {
            continue;
        }
        write_place(starts, count, from + units_before(ends, start));
        places[count] = from + units_before(ends, at);
        write_at(statuses, count, greatest.get(table, found.status));
        count += 1;
    }
    Filled { at, count }
}
