//! What C calls to have the boundaries, or the words, of a text that nobody edits. `include/rbbi.h`
//! documents these calls.
ghost use Rattle.std.specs.Prelude.{◌≡◌, ◌<◌, None, Some, [], MatchOption, length, true, false};
ghost use Rattle.rbbi_model.specs.declared.unit.Unit.TheVariants.{Utf8, Utf16};
ghost use Rattle.rbbi_scan.specs.Columns.{columns};
ghost use Rattle.rbbi_c.specs.Holding.{table_in};
ghost use Rattle.rbbi_c.specs.Scanning.{code_of, given_by, Scans, ScansThrough};

use crate::codes;
use crate::handle::Handle;
use crate::held::Held;
use rbbi_scan::{Reached, Stop, breaks_utf8, breaks_utf16, words_utf8, words_utf16};
use rbbi_session::Holds;
use rbbi_table::Table;
use rbbi_text::Steps;
use std::alloc::Global;
use std::marker::Brand;
use std::rt::Memory;
use std::sync::ledger::{Blank, Ledger};

/// How many were written, and the place to go on from, or that of a fault.
#[derive(Clone, Copy)]
#[repr(C)]
pub struct Given {
    pub count: usize,
    pub place: usize,
}

/// The table that is held, if it is one.
fn table_of(held: &Held) -> Option<&Table>
    ensures { MatchOption result (table_in (Some held.now) ≡ None)
        (λ table. table_in (Some held.now) ≡ Some table.now) }
{
    match held {
        Held::Table(shared) => Some(shared.table()),
        _ => None,
    }
}

/// Writes how far the boundaries were given to where C wants it.
pub(crate) fn tell(reached: Reached, fault: u32, given: &mut Given) -> u32
    ensures code { result ≡ code_of fault reached.stop }
    ensures given { given.new ≡ given_by reached }
{
    given.count = reached.count;
    given.place = reached.resume;
    match reached.stop {
        Stop::End => codes::OK,
        Stop::Room => codes::ROOM,
        Stop::More => codes::DONE,
        Stop::Fault(at) => {
            given.place = at;
            fault
        }
        Stop::Far => codes::TOO_LONG,
        Stop::Memory => codes::MEMORY,
    }
}

/// Gives boundaries of a text in UTF-8, with a counter of its own.
fn boundaries_utf8<L: Ledger>(
    memory: Memory,
    table: &Table,
    text: &[u8],
    from: usize,
    places: &mut [u64],
    statuses: &mut [u32],
    given: &mut Given,
    blank: Blank,
) -> u32
    requires name { blank.name ≡ L.name }
    requires parts { blank.parts ≡ L.parts }
    requires some { 0 < blank.parts }
    ensures { Scans Utf8 false table.now text.now from (columns [] places.old statuses.old)
        (columns [] places.new statuses.new) result given.old given.new }
{
    if from > text.len() {
        return codes::OUTSIDE;
    }
    let mut steps = Steps::<L>::exported(memory, blank);
    let alloc = Global::new(memory);
    let reached = breaks_utf8(alloc, table, text, from, places, statuses, &mut steps);
    tell(reached, codes::NOT_UTF8, given)
}

/// Gives boundaries of a text in UTF-16, with a counter of its own.
fn boundaries_utf16<L: Ledger>(
    memory: Memory,
    table: &Table,
    text: &[u16],
    from: usize,
    places: &mut [u64],
    statuses: &mut [u32],
    given: &mut Given,
    blank: Blank,
) -> u32
    requires name { blank.name ≡ L.name }
    requires parts { blank.parts ≡ L.parts }
    requires some { 0 < blank.parts }
    ensures { Scans Utf16 false table.now text.now from (columns [] places.old statuses.old)
        (columns [] places.new statuses.new) result given.old given.new }
{
    if from > text.len() {
        return codes::OUTSIDE;
    }
    let mut steps = Steps::<L>::exported(memory, blank);
    let alloc = Global::new(memory);
    let reached = breaks_utf16(alloc, table, text, from, places, statuses, &mut steps);
    tell(reached, codes::LONE, given)
}

/// Gives words of a text in UTF-8, with a counter of its own.
fn found_utf8<L: Ledger>(
    memory: Memory,
    table: &Table,
    text: &[u8],
    from: usize,
    starts: &mut [u64],
    ends: &mut [u64],
    statuses: &mut [u32],
    given: &mut Given,
    blank: Blank,
) -> u32
    requires name { blank.name ≡ L.name }
    requires parts { blank.parts ≡ L.parts }
    requires some { 0 < blank.parts }
    ensures { Scans Utf8 true table.now text.now from (columns starts.old ends.old statuses.old)
        (columns starts.new ends.new statuses.new) result given.old given.new }
{
    if from > text.len() {
        return codes::OUTSIDE;
    }
    let mut steps = Steps::<L>::exported(memory, blank);
    let alloc = Global::new(memory);
    let reached = words_utf8(alloc, table, text, from, starts, ends, statuses, &mut steps);
    tell(reached, codes::NOT_UTF8, given)
}

/// Gives words of a text in UTF-16, with a counter of its own.
fn found_utf16<L: Ledger>(
    memory: Memory,
    table: &Table,
    text: &[u16],
    from: usize,
    starts: &mut [u64],
    ends: &mut [u64],
    statuses: &mut [u32],
    given: &mut Given,
    blank: Blank,
) -> u32
    requires name { blank.name ≡ L.name }
    requires parts { blank.parts ≡ L.parts }
    requires some { 0 < blank.parts }
    ensures { Scans Utf16 true table.now text.now from (columns starts.old ends.old statuses.old)
        (columns starts.new ends.new statuses.new) result given.old given.new }
{
    if from > text.len() {
        return codes::OUTSIDE;
    }
    let mut steps = Steps::<L>::exported(memory, blank);
    let alloc = Global::new(memory);
    let reached = words_utf16(alloc, table, text, from, starts, ends, statuses, &mut steps);
    tell(reached, codes::LONE, given)
}

/// Writes the boundaries of a text in UTF-8 past a place, in bytes, as many as there is room for,
/// each with its greatest status; where there is no room for statuses, without.
#[unsafe(no_mangle)]
pub extern "C" fn rbbi_c_breaks(
    memory: Memory,
    table: &mut Handle,
    text: &[u8],
    from: usize,
    places: &mut [u64],
    statuses: &mut [u32],
    given: &mut Given,
) -> u32
    ensures { ScansThrough Utf8 false table.old.held text.now from
        (columns [] places.old statuses.old) (columns [] places.new statuses.new)
        result given.old given.new table.new.held }
{
    let alloc = Global::new(memory);
    let Some(held) = table.take(alloc) else {
        return codes::HANDLE;
    };
    let code = match table_of(&held) {
        Some(table) => {
            let blank = Blank::new(1);
            boundaries_utf8::<Brand>(memory, table, text, from, places, statuses, given, blank)
        }
        None => codes::HANDLE,
    };
    table.put(alloc, held);
    code
}

/// Writes the boundaries of a text in UTF-16 past a place, in its units.
#[unsafe(no_mangle)]
pub extern "C" fn rbbi_c_breaks_utf16(
    memory: Memory,
    table: &mut Handle,
    text: &[u16],
    from: usize,
    places: &mut [u64],
    statuses: &mut [u32],
    given: &mut Given,
) -> u32
    ensures { ScansThrough Utf16 false table.old.held text.now from
        (columns [] places.old statuses.old) (columns [] places.new statuses.new)
        result given.old given.new table.new.held }
{
    let alloc = Global::new(memory);
    let Some(held) = table.take(alloc) else {
        return codes::HANDLE;
    };
    let code = match table_of(&held) {
        Some(table) => {
            let blank = Blank::new(1);
            boundaries_utf16::<Brand>(memory, table, text, from, places, statuses, given, blank)
        }
        None => codes::HANDLE,
    };
    table.put(alloc, held);
    code
}

/// Writes the segments of a text in UTF-8 past a place in which a letter or a digit stands: where
/// each starts and ends, in bytes, and its greatest status.
#[unsafe(no_mangle)]
pub extern "C" fn rbbi_c_words(
    memory: Memory,
    table: &mut Handle,
    text: &[u8],
    from: usize,
    starts: &mut [u64],
    ends: &mut [u64],
    statuses: &mut [u32],
    given: &mut Given,
) -> u32
    ensures { ScansThrough Utf8 true table.old.held text.now from
        (columns starts.old ends.old statuses.old) (columns starts.new ends.new statuses.new)
        result given.old given.new table.new.held }
{
    let alloc = Global::new(memory);
    let Some(held) = table.take(alloc) else {
        return codes::HANDLE;
    };
    let code = match table_of(&held) {
        Some(table) => {
            let blank = Blank::new(1);
            found_utf8::<Brand>(
                memory, table, text, from, starts, ends, statuses, given, blank,
            )
        }
        None => codes::HANDLE,
    };
    table.put(alloc, held);
    code
}

/// Writes such segments of a text in UTF-16, in its units.
#[unsafe(no_mangle)]
pub extern "C" fn rbbi_c_words_utf16(
    memory: Memory,
    table: &mut Handle,
    text: &[u16],
    from: usize,
    starts: &mut [u64],
    ends: &mut [u64],
    statuses: &mut [u32],
    given: &mut Given,
) -> u32
    ensures { ScansThrough Utf16 true table.old.held text.now from
        (columns starts.old ends.old statuses.old) (columns starts.new ends.new statuses.new)
        result given.old given.new table.new.held }
{
    let alloc = Global::new(memory);
    let Some(held) = table.take(alloc) else {
        return codes::HANDLE;
    };
    let code = match table_of(&held) {
        Some(table) => {
            let blank = Blank::new(1);
            found_utf16::<Brand>(
                memory, table, text, from, starts, ends, statuses, given, blank,
            )
        }
        None => codes::HANDLE,
    };
    table.put(alloc, held);
    code
}
