//! The calls that are measured. Each answers a number of what it made, or nothing where it is
//! refused.
ghost use Rattle.std.specs.Prelude.{◌≡◌, ◌<◌, ◌≤◌, length, IfSome};
ghost use Rattle.rbbi_text.specs.Bytes.{most_bytes};

use crate::rules::rules_of;
use rbbi_cats::partition;
use rbbi_positions::positions;
use rbbi_table::{FrontPlaces, Table};
use rbbi_text::{Chars, EditText, Pieces, PlainText, Raw, Steps};
use std::alloc::Global;
use std::sync::ledger::Ledger;

/// The categories of a rule file's rules, and how many there are.
pub(crate) fn measure_categories(alloc: Global, bytes: &[u8], rounds: u32) -> Option<u64>
    requires { length bytes.now ≤ most_bytes }
{
    let rules = rules_of(alloc, bytes)?;
    let mut count = 0;
    for _ in 0..rounds {
        count = u64::from(partition(alloc, &rules).ok()?.count());
    }
    Some(count)
}

/// The positions of a rule file's rules, whose categories are made once, and how many there are.
pub(crate) fn measure_positions(alloc: Global, bytes: &[u8], rounds: u32) -> Option<u64>
    requires { length bytes.now ≤ most_bytes }
{
    let rules = rules_of(alloc, bytes)?;
    let cats = partition(alloc, &rules).ok()?;
    let mut count = 0;
    for _ in 0..rounds {
        count = u64::from(positions(alloc, &rules, &cats).ok()?.leaves());
    }
    Some(count)
}

/// How many boundaries a text has, by searches from one to the next.
fn count_boundaries<T: Chars, L: Ledger>(
    table: &Table,
    text: &T,
    marks: &mut FrontPlaces,
    steps: &mut Steps<L>,
) -> u64
    requires { marks.old ≡ table.now.slashes }
    ensures { marks.new ≡ marks.old }
{
    let len = text.len();
    let mut at = 0;
    for count in 0..len {
        if at >= len {
            return u64::from(count) + 1;
        }
        at = table.next(text, at, marks, steps).at;
    }
    u64::from(len) + 1
}

/// How many boundaries a text has, found so many times.
fn count_again<T: Chars, L: Ledger>(
    alloc: Global,
    table: &Table,
    text: &T,
    rounds: u32,
    steps: &mut Steps<L>,
) -> Option<u64> {
    let mut marks = FrontPlaces::new(alloc, table).ok()?;
    let mut count = 0;
    for _ in 0..rounds {
        count = count_boundaries(table, text, &mut marks, steps);
    }
    Some(count)
}

/// All boundaries of a text by a table, and how many there are. The text is in one list, or by
/// pieces.
pub(crate) fn measure_nexts<L: Ledger>(
    alloc: Global,
    table: &Table,
    text: &Raw,
    by_pieces: bool,
    rounds: u32,
    steps: &mut Steps<L>,
) -> Option<u64>
    requires { length text.now ≤ most_bytes }
{
    if by_pieces {
        let text = Pieces::from_raw(alloc, text).ok()?;
        return count_again(alloc, table, &text, rounds, steps);
    }
    let text = PlainText::from_raw(alloc, text).ok()?;
    count_again(alloc, table, &text, rounds, steps)
}

/// The next number of a fixed row of numbers below 2^31.
pub(crate) fn draw(state: u64) -> u64 {
    state.wrapping_mul(1_103_515_245).wrapping_add(12_345) % 2_147_483_648
}

/// A place below a length, by a number below 2^31: it takes no division, which would count beside
/// the call that is measured.
pub(crate) fn place_by(number: u64, len: u32) -> u32 {
    let product = number.wrapping_mul(u64::from(len));
    (product / 2_147_483_648 % 4_294_967_296) as u32
}

/// A text by pieces, with so many letters inserted at random places.
fn edited(alloc: Global, file: &Raw, edits: u32) -> Option<Pieces>
    requires { length file.now ≤ most_bytes }
{
    let mut text = Pieces::from_raw(alloc, file).ok()?;
    let mut state = 0;
    for _ in 0..edits {
        state = draw(state);
        let at = place_by(state, text.len());
        text.replace(at, 0, "x").ok()?;
    }
    Some(text)
}

/// The characters at random places of a text that was edited so many times, and their sum.
pub(crate) fn measure_places<L: Ledger>(
    alloc: Global,
    file: &Raw,
    rounds: u32,
    edits: u32,
    steps: &mut Steps<L>,
) -> Option<u64>
    requires { length file.now ≤ most_bytes }
{
    let text = edited(alloc, file, edits)?;
    let len = text.len();
    let mut state = 0;
    let mut sum = 0u64;
    for _ in 0..rounds {
        state = draw(state);
        let place = place_by(state, len);
        if place < len {
            sum = sum.wrapping_add(u64::from(u32::from(text.char_at(place, steps))));
        }
    }
    Some(sum)
}
