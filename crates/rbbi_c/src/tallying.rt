//! What C calls to open, edit and ask a tally. `include/rbbi.h` documents these calls.
ghost use Rattle.std.specs.Prelude.{◌≡◌, ◌<◌, ◌⊎◌, None, Some, IsSome, IsSomeAnd, map};
ghost use Rattle.std.specs.Prelude.{MatchOption, MatchResult, chars};
ghost use Rattle.rbbi_tally.specs.Counts.{segment_count, count as count_in, AreCounts};
ghost use Rattle.rbbi_c.specs.Copying.{IsCopied};
ghost use Rattle.rbbi_c.specs.Holding.{tally_in};
ghost use Rattle.rbbi_c.specs.Tallying.{boundaries_of, counted_in};
ghost use Rattle.rbbi_c.specs.Opening.{IsNoSession};
ghost use Rattle.rbbi_c.specs.TallyCalls.{IsTallyFrom, OpensTallyThrough, EditsTallyThrough};
ghost use Rattle.rbbi_c.specs.TallyCalls.{EditsTallyIn, TalliesThrough, ListsCountsThrough, counted};

use crate::answering::{edit_code, text_of};
use crate::codes;
use crate::copying::write_at;
use crate::handle::Handle;
use crate::held::Held;
use crate::opening::{Source, is_open, keep, source_of};
use crate::tally_desk::TallyDesk;
use rbbi_tally::{Counts, ValueCount};
use rbbi_text::Steps;
use std::alloc::Global;
use std::marker::Brand;
use std::rt::Memory;
use std::sync::ledger::{Blank, Ledger};

/// The tally that is asked for, or the code of the refusal.
fn tally_of<L: Ledger>(
    alloc: Global,
    table: &mut Handle,
    text: &[u8],
    unit: u32,
    steps: &mut Steps<L>,
) -> Result<TallyDesk, u32>
    ensures told { MatchResult result (IsTallyFrom table.old.held text.now unit)
        (IsNoSession table.old.held text.now unit) }
    ensures same { table.new.held ≡ table.old.held }
{
    let Source { table, unit, text } = source_of(alloc, table, text, unit)?;
    match TallyDesk::open(alloc, table, text, unit, steps) {
        Ok(desk) => Ok(desk),
        Err(_) => Err(codes::MEMORY),
    }
}

/// Opens a tally, with a counter of its own.
fn open_counted<L: Ledger>(
    memory: Memory,
    table: &mut Handle,
    text: &[u8],
    unit: u32,
    tally: &mut Handle,
    blank: Blank,
) -> u32
    requires name { blank.name ≡ L.name }
    requires parts { blank.parts ≡ L.parts }
    requires some { 0 < blank.parts }
    ensures opened { OpensTallyThrough table.old.held text.now unit tally.old.held result
        tally.new.held }
    ensures table { table.new.held ≡ table.old.held }
{
    let alloc = Global::new(memory);
    if is_open(alloc, tally) {
        return codes::HANDLE;
    }
    let mut steps = Steps::<L>::exported(memory, blank);
    match tally_of(alloc, table, text, unit, &mut steps) {
        Ok(desk) => keep(alloc, tally, Held::Tally(desk)),
        Err(code) => code,
    }
}

/// Opens a tally of a text in UTF-8, with places of edits in the unit of a number.
#[unsafe(no_mangle)]
pub extern "C" fn rbbi_c_tally_open(
    memory: Memory,
    table: &mut Handle,
    text: &[u8],
    unit: u32,
    tally: &mut Handle,
) -> u32
    ensures opened { OpensTallyThrough table.old.held text.now unit tally.old.held result
        tally.new.held }
    ensures table { table.new.held ≡ table.old.held }
{
    open_counted::<Brand>(memory, table, text, unit, tally, Blank::new(1))
}

/// Edits the tally in a box.
fn edit_held<L: Ledger>(
    held: &mut Held,
    at: u32,
    remove: u32,
    insert: &str,
    steps: &mut Steps<L>,
) -> u32
    ensures { EditsTallyIn (Some held.old) at remove (chars insert.now) result
        (Some held.new) }
{
    match held {
        Held::Tally(desk) => edit_code(desk.replace(at, remove, insert, steps)),
        _ => codes::HANDLE,
    }
}

/// Edits the tally that a handle holds, with a counter of its own.
fn edit_counted<L: Ledger>(
    memory: Memory,
    tally: &mut Handle,
    at: u32,
    remove: u32,
    insert: &[u8],
    blank: Blank,
) -> u32
    requires name { blank.name ≡ L.name }
    requires parts { blank.parts ≡ L.parts }
    requires some { 0 < blank.parts }
    ensures { EditsTallyThrough tally.old.held at remove insert.now result tally.new.held }
{
    let text = match text_of(insert) {
        Ok(text) => text,
        Err(code) => return code,
    };
    let alloc = Global::new(memory);
    let Some(mut held) = tally.take(alloc) else {
        return codes::HANDLE;
    };
    let mut steps = Steps::<L>::exported(memory, blank);
    let code = edit_held(&mut held, at, remove, text, &mut steps);
    tally.put(alloc, held);
    code
}

/// Puts bytes of UTF-8 in place of a part of the text, and counts again what that touches.
#[unsafe(no_mangle)]
pub extern "C" fn rbbi_c_tally_replace(
    memory: Memory,
    tally: &mut Handle,
    at: u32,
    remove: u32,
    insert: &[u8],
) -> u32
    ensures { EditsTallyThrough tally.old.held at remove insert.now result tally.new.held }
{
    edit_counted::<Brand>(memory, tally, at, remove, insert, Blank::new(1))
}

/// A number of the tally in a box.
fn count_held(held: &Held, status: Option<u32>) -> Option<u32>
    ensures { MatchOption result (tally_in (Some held.now) ≡ None) (λ number.
        IsSomeAnd (tally_in (Some held.now))
        (λ tally. number ≡ counted_in status (boundaries_of tally))) }
{
    match held {
        Held::Tally(desk) => Some(desk.count(status)),
        _ => None,
    }
}

/// A number of the tally that a handle holds.
fn count_through(memory: Memory, tally: &mut Handle, status: Option<u32>, count: &mut u32) -> u32
    ensures { TalliesThrough (counted_in status) tally.old.held result count.old count.new
        tally.new.held }
{
    let alloc = Global::new(memory);
    let Some(held) = tally.take(alloc) else {
        return codes::HANDLE;
    };
    let number = count_held(&held, status);
    tally.put(alloc, held);
    match number {
        Some(number) => {
            *count = number;
            codes::OK
        }
        None => codes::HANDLE,
    }
}

/// How many segments the text has.
#[unsafe(no_mangle)]
pub extern "C" fn rbbi_c_tally_segments(memory: Memory, tally: &mut Handle, count: &mut u32) -> u32
    ensures { TalliesThrough segment_count tally.old.held result count.old count.new
        tally.new.held }
{
    count_through(memory, tally, None, count)
}

/// How many segments have a status as their largest one.
#[unsafe(no_mangle)]
pub extern "C" fn rbbi_c_tally_count(
    memory: Memory,
    tally: &mut Handle,
    status: u32,
    count: &mut u32,
) -> u32
    ensures { TalliesThrough (λ boundaries. count_in boundaries status) tally.old.held result
        count.old count.new tally.new.held }
{
    count_through(memory, tally, Some(status), count)
}

/// The counts of the tally in a box, or the code of the refusal.
fn each_held(alloc: Global, held: &Held) -> Result<Counts, u32>
    ensures { MatchResult result (λ counts. IsSomeAnd (tally_in (Some held.now))
        (λ tally. AreCounts (boundaries_of tally) counts.items))
        (λ code. ((code ≡ 3) × (tally_in (Some held.now) ≡ None))
        ⊎ ((code ≡ 9) × IsSome (tally_in (Some held.now)))) }
{
    match held {
        Held::Tally(desk) => match desk.each(alloc) {
            Ok(counts) => Ok(counts),
            Err(_) => Err(codes::MEMORY),
        },
        _ => Err(codes::HANDLE),
    }
}

/// Writes values and their counts, as many as there is room for.
fn write_counts(list: &[ValueCount], statuses: &mut [u32], counts: &mut [u32])
    ensures statuses { IsCopied (map (λ pair. pair.value) list.now) statuses.old statuses.new }
    ensures counts { IsCopied (map (λ pair. pair.count) list.now) counts.old counts.new }
{
    for (i, pair) in list.iter().enumerate() {
        write_at(statuses, i, pair.value);
        write_at(counts, i, pair.count);
    }
}

/// Writes the statuses that some segment has as its largest one, which rise, and their counts, as
/// many as there is room for, and tells how many there are.
#[unsafe(no_mangle)]
pub extern "C" fn rbbi_c_tally_each(
    memory: Memory,
    tally: &mut Handle,
    statuses: &mut [u32],
    counts: &mut [u32],
    count: &mut usize,
) -> u32
    ensures { ListsCountsThrough tally.old.held result (counted statuses.old counts.old)
        (counted statuses.new counts.new) count.old count.new tally.new.held }
{
    let alloc = Global::new(memory);
    let Some(held) = tally.take(alloc) else {
        return codes::HANDLE;
    };
    let each = each_held(alloc, &held);
    tally.put(alloc, held);
    let list = match each {
        Ok(list) => list,
        Err(code) => return code,
    };
    write_counts(&list, statuses, counts);
    *count = list.len();
    if list.len() > statuses.len() {
        return codes::ROOM;
    }
    codes::OK
}
