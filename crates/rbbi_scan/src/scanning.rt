//! Boundaries of a text, by windows.
ghost use Rattle.std.specs.Prelude.{◌≡◌, ◌+◌, ◌^◌, ◌<◌, ◌≤◌, ◌⊎◌, length, IsTrue, MatchOption, false};
ghost use Rattle.rbbi_model.specs.Words.{most_characters};
ghost use Rattle.rbbi_scan.specs.Columns.{columns};
ghost use Rattle.rbbi_scan.specs.Greatest.{AreGreatest};
ghost use Rattle.rbbi_scan.specs.Scanning.{ScansOn, GoesOn, StopIs, IsFarIf};

use crate::filling::{Filled, fill, units_before};
use crate::greatest::Greatest;
use crate::reached::{Asked, Reached, Stop};
use crate::source::{Decoded, Source};
use crate::window::Window;
use rbbi_table::{FrontPlaces, Table};
use rbbi_text::Steps;
use std::alloc::Global;
use std::sync::ledger::Ledger;

/// How many characters the first windows have.
const NEAR: usize = 1024;

/// The most characters that a window may have.
const MOST: usize = 16_777_216;

/// The most units that a character takes.
const LONGEST: usize = 4;

/// What one window gave.
#[derive(Clone, Copy)]
pub(crate) struct Turn {
    pub(crate) reached: Reached,
    /// Whether nothing more is found in the next window.
    pub(crate) is_over: bool,
}

/// Why nothing more is found in a window that ends there in the units, or none if there may be more
/// in the next one.
fn stop_of(
    is_last: bool,
    len: usize,
    room: usize,
    size: usize,
    decoded: Decoded,
    filled: Filled,
    end: usize,
) -> Option<Stop>
    requires within { end ≤ len }
    requires count { decoded.count ≤ size }
    requires room { filled.count ≤ room }
    requires last { IsTrue is_last → end ≡ len →
        (filled.at ≡ decoded.count) ⊎ (filled.count ≡ room) }
    ensures { StopIs is_last len room size decoded filled end result }
{
    let at = filled.at as usize;
    if is_last && at == decoded.count && end == len {
        return Some(Stop::End);
    }
    if filled.count == room {
        return Some(Stop::Room);
    }
    if end == len {
        return Some(Stop::More);
    }
    if decoded.count < size {
        if is_last || len - end >= LONGEST {
            return Some(Stop::Fault(end));
        }
        return Some(Stop::More);
    }
    if at == 0 {
        return Some(Stop::Far);
    }
    None
}

/// Gives the boundaries in the window that begins where the last one was given.
fn one_window<S: Source, L: Ledger>(
    table: &Table,
    asked: Asked,
    source: &S,
    is_last: bool,
    chars: &mut [char],
    ends: &mut [u32],
    start: Reached,
    starts: &mut [u64],
    places: &mut [u64],
    statuses: &mut [u32],
    greatest: &Greatest,
    marks: &mut FrontPlaces,
    steps: &mut Steps<L>,
) -> Turn
    requires within { start.resume ≤ length (S.units source.now) }
    requires small { asked.origin + length (S.units source.now) < 2 ^ 64 }
    requires counted { start.count ≤ length places.old }
    requires room { length ends.old ≡ length chars.old }
    requires few { length chars.old ≤ most_characters }
    requires some { 0 < length chars.old }
    requires greatest { AreGreatest table.now greatest.now.statuses }
    requires fit { marks.old ≡ table.now.slashes }
    ensures fit { marks.new ≡ marks.old }
    ensures within { result.reached.resume ≤ length (S.units source.now) }
    ensures counted { result.reached.count ≤ length places.new }
    ensures goes { GoesOn S.unit table.now asked is_last (length chars.old) (S.units source.now)
        start (columns starts.old places.old statuses.old)
        (columns starts.new places.new statuses.new) result }
    ensures further { result.is_over ≡ false → start.resume < result.reached.resume }
{
    let decoded = source.decode(start.resume, chars, ends);
    let len = source.len();
    let end = start.resume + decoded.used;
    let window = Window::of(&chars[..decoded.count]);
    let ends_of = &ends[..decoded.count];
    let filled = fill(
        table,
        asked,
        &window,
        ends_of,
        start.resume,
        is_last && end == len,
        start.count,
        starts,
        places,
        statuses,
        greatest,
        marks,
        steps,
    );
    let resume = start.resume + units_before(ends_of, filled.at) as usize;
    let (room, size) = (places.len(), chars.len());
    let stop = stop_of(is_last, len, room, size, decoded, filled, end);
    turn_of(filled.count, resume, stop)
}

/// What one window gave, by why there is no more.
fn turn_of(count: usize, resume: usize, stop: Option<Stop>) -> Turn
    ensures count { result.reached.count ≡ count }
    ensures resume { result.reached.resume ≡ resume }
    ensures stop { MatchOption stop (result.is_over ≡ false)
        (λ why. IsTrue result.is_over × (result.reached.stop ≡ why)) }
{
    match stop {
        Some(stop) => Turn {
            reached: Reached {
                count,
                resume,
                stop,
            },
            is_over: true,
        },
        None => Turn {
            reached: Reached {
                count,
                resume,
                stop: Stop::More,
            },
            is_over: false,
        },
    }
}

/// Gives the boundaries from a start on, by windows of one size.
fn by_windows<S: Source, L: Ledger>(
    table: &Table,
    asked: Asked,
    source: &S,
    is_last: bool,
    chars: &mut [char],
    ends: &mut [u32],
    start: Reached,
    starts: &mut [u64],
    places: &mut [u64],
    statuses: &mut [u32],
    greatest: &Greatest,
    marks: &mut FrontPlaces,
    steps: &mut Steps<L>,
) -> Reached
    requires within { start.resume ≤ length (S.units source.now) }
    requires small { asked.origin + length (S.units source.now) < 2 ^ 64 }
    requires counted { start.count ≤ length places.old }
    requires room { length ends.old ≡ length chars.old }
    requires few { length chars.old ≤ most_characters }
    requires some { 0 < length chars.old }
    requires greatest { AreGreatest table.now greatest.now.statuses }
    requires fit { marks.old ≡ table.now.slashes }
    ensures fit { marks.new ≡ marks.old }
    ensures within { result.resume ≤ length (S.units source.now) }
    ensures counted { result.count ≤ length places.new }
    ensures scans { ScansOn S.unit table.now asked is_last (length chars.old) (S.units source.now)
        start (columns starts.old places.old statuses.old)
        (columns starts.new places.new statuses.new) result }
{
    let mut now = Turn {
        reached: start,
        is_over: false,
    };
    while !now.is_over {
        now = one_window(
            table,
            asked,
            source,
            is_last,
            chars,
            ends,
            now.reached,
            starts,
            places,
            statuses,
            greatest,
            marks,
            steps,
        );
    }
    now.reached
}

/// Goes on by windows of so many characters. If memory runs out, nothing more is given.
fn by_wide_windows<S: Source, L: Ledger>(
    alloc: Global,
    table: &Table,
    asked: Asked,
    source: &S,
    is_last: bool,
    size: usize,
    start: Reached,
    starts: &mut [u64],
    places: &mut [u64],
    statuses: &mut [u32],
    greatest: &Greatest,
    marks: &mut FrontPlaces,
    steps: &mut Steps<L>,
) -> Reached
    requires within { start.resume ≤ length (S.units source.now) }
    requires small { asked.origin + length (S.units source.now) < 2 ^ 64 }
    requires counted { start.count ≤ length places.old }
    requires few { size ≤ most_characters }
    requires some { 0 < size }
    requires greatest { AreGreatest table.now greatest.now.statuses }
    requires fit { marks.old ≡ table.now.slashes }
    ensures fit { marks.new ≡ marks.old }
    ensures within { result.resume ≤ length (S.units source.now) }
    ensures counted { result.count ≤ length places.new }
    ensures scans { ScansOn S.unit table.now asked is_last size (S.units source.now)
        start (columns starts.old places.old statuses.old)
        (columns starts.new places.new statuses.new) result }
{
    let memory = Reached {
        stop: Stop::Memory,
        ..start
    };
    let Ok(mut chars) = vec![in alloc; '\0'; size] else {
        return memory;
    };
    let Ok(mut ends) = vec![in alloc; 0u32; size] else {
        return memory;
    };
    by_windows(
        table, asked, source, is_last, &mut chars, &mut ends, start, starts, places, statuses,
        greatest, marks, steps,
    )
}

/// Whether a search reads on past a window.
fn is_far(stop: Stop) -> bool
    ensures { IsFarIf result stop }
{
    matches!(stop, Stop::Far)
}

/// Gives the boundaries of a text from a place on, as many as there is room for. Windows grow with
/// what a search reads.
pub(crate) fn scan<S: Source, L: Ledger>(
    alloc: Global,
    table: &Table,
    asked: Asked,
    source: &S,
    from: usize,
    is_last: bool,
    starts: &mut [u64],
    places: &mut [u64],
    statuses: &mut [u32],
    steps: &mut Steps<L>,
) -> Reached
    requires within { from ≤ length (S.units source.now) }
    requires small { asked.origin + length (S.units source.now) < 2 ^ 64 }
    ensures within { result.resume ≤ length (S.units source.now) }
    ensures counted { result.count ≤ length places.new }
    ensures scans { (stop : Stop) → ScansOn S.unit table.now asked is_last most_characters (S.units source.now)
        (record { count = 0; resume = from; stop = stop }) (columns starts.old places.old statuses.old)
        (columns starts.new places.new statuses.new) result }
{
    let start = Reached {
        count: 0,
        resume: from,
        stop: Stop::Memory,
    };
    let Ok(mut marks) = FrontPlaces::new(alloc, table) else {
        return start;
    };
    let greatest = Greatest::of(table);
    let mut chars = ['\0'; NEAR];
    let mut ends = [0; NEAR];
    let mut now = by_windows(
        table, asked, source, is_last, &mut chars, &mut ends, start, starts, places, statuses,
        &greatest, &mut marks, steps,
    );
    let mut size = NEAR;
    while size < MOST && is_far(now.stop) {
        size = (size * 4).min(MOST);
        now = by_wide_windows(
            alloc, table, asked, source, is_last, size, now, starts, places, statuses, &greatest,
            &mut marks, steps,
        );
    }
    now
}
