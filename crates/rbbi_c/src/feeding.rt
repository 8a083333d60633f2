//! What C calls to have the boundaries, or the words, of a text that it feeds piece by piece.
//! `include/rbbi.h` documents these calls.
ghost use Rattle.std.specs.Prelude.{◌≡◌, ◌<◌, None, Some, MatchOption, MatchResult, length};
ghost use Rattle.rbbi_model.specs.declared.unit.Unit.TheVariants.{Utf8, Utf16};
ghost use Rattle.rbbi_scan.specs.Columns.{columns};
ghost use Rattle.rbbi_scan.specs.Units.{unit_of};
ghost use Rattle.rbbi_c.specs.Feeding.{scan_unit, IsFreshScanner, IsNewScan, IsNoScan};
ghost use Rattle.rbbi_c.specs.Feeding.{OpensScanThrough, code_of_feed, FeedsThrough, GivesThrough};
ghost use Rattle.rbbi_c.specs.Scanning.{fault_code};

use crate::codes;
use crate::handle::Handle;
use crate::held::Held;
use crate::opening::{is_open, keep, table_in};
use crate::scan_desk::ScanDesk;
use crate::scanning::{Given, tell};
use rbbi_scan::{NotFed, Scanner};
use rbbi_session::Holds;
use rbbi_text::{Steps, Unit};
use std::alloc::Global;
use std::marker::Brand;
use std::rt::Memory;
use std::sync::ledger::{Blank, Ledger};

/// A scanner in the unit of a number, of which nothing is fed.
fn scanner_of(alloc: Global, unit: u32, only_words: bool) -> Option<Scanner>
    ensures { MatchOption result (scan_unit unit ≡ None) (IsFreshScanner unit only_words) }
{
    match unit {
        1 => Some(Scanner::utf8(alloc, only_words)),
        2 => Some(Scanner::utf16(alloc, only_words)),
        _ => None,
    }
}

/// The scan that is asked for, or the code of the refusal.
fn scan_of(alloc: Global, table: &mut Handle, unit: u32, only_words: bool) -> Result<ScanDesk, u32>
    ensures told { MatchResult result (IsNewScan table.old.held unit only_words)
        (IsNoScan table.old.held unit) }
    ensures same { table.new.held ≡ table.old.held }
{
    let Some(scanner) = scanner_of(alloc, unit, only_words) else {
        return Err(codes::UNIT);
    };
    let table = table_in(alloc, table)?;
    Ok(ScanDesk { table, scanner })
}

/// Opens a scan of a text in UTF-8 (1) or UTF-16 (2), of which nothing is fed. With `only_words` it
/// gives the segments that have a letter or a digit alone.
#[unsafe(no_mangle)]
pub extern "C" fn rbbi_c_scan_open(
    memory: Memory,
    table: &mut Handle,
    unit: u32,
    only_words: bool,
    scan: &mut Handle,
) -> u32
    ensures opened { OpensScanThrough table.old.held unit only_words scan.old.held result
        scan.new.held }
    ensures table { table.new.held ≡ table.old.held }
{
    let alloc = Global::new(memory);
    if is_open(alloc, scan) {
        return codes::HANDLE;
    }
    match scan_of(alloc, table, unit, only_words) {
        Ok(desk) => keep(alloc, scan, Held::Scan(desk)),
        Err(code) => code,
    }
}

/// The code of what feeding a piece answers.
fn feed_code(fed: Result<(), NotFed>) -> u32
    ensures { result ≡ code_of_feed fed }
{
    match fed {
        Ok(()) => codes::OK,
        Err(NotFed::Ended) => codes::OUTSIDE,
        Err(NotFed::Unit) => codes::UNIT,
        Err(NotFed::Memory) => codes::MEMORY,
    }
}

/// Feeds bytes to the scan in a box.
fn feed_held(alloc: Global, held: &mut Held, piece: &[u8], is_last: bool) -> u32
    ensures { FeedsThrough Utf8 (Some held.old) piece.now is_last result (Some held.new) }
{
    match held {
        Held::Scan(desk) => feed_code(desk.scanner.feed_utf8(alloc, piece, is_last)),
        _ => codes::HANDLE,
    }
}

/// Feeds units of UTF-16 to the scan in a box.
fn feed_held_utf16(alloc: Global, held: &mut Held, piece: &[u16], is_last: bool) -> u32
    ensures { FeedsThrough Utf16 (Some held.old) piece.now is_last result (Some held.new) }
{
    match held {
        Held::Scan(desk) => feed_code(desk.scanner.feed_utf16(alloc, piece, is_last)),
        _ => codes::HANDLE,
    }
}

/// Feeds the next bytes of a text in UTF-8, the last ones with `is_last`.
#[unsafe(no_mangle)]
pub extern "C" fn rbbi_c_scan_feed(
    memory: Memory,
    scan: &mut Handle,
    piece: &[u8],
    is_last: bool,
) -> u32
    ensures { FeedsThrough Utf8 scan.old.held piece.now is_last result scan.new.held }
{
    let alloc = Global::new(memory);
    let Some(mut held) = scan.take(alloc) else {
        return codes::HANDLE;
    };
    let code = feed_held(alloc, &mut held, piece, is_last);
    scan.put(alloc, held);
    code
}

/// Feeds the next units of a text in UTF-16, the last ones with `is_last`.
#[unsafe(no_mangle)]
pub extern "C" fn rbbi_c_scan_feed_utf16(
    memory: Memory,
    scan: &mut Handle,
    piece: &[u16],
    is_last: bool,
) -> u32
    ensures { FeedsThrough Utf16 scan.old.held piece.now is_last result scan.new.held }
{
    let alloc = Global::new(memory);
    let Some(mut held) = scan.take(alloc) else {
        return codes::HANDLE;
    };
    let code = feed_held_utf16(alloc, &mut held, piece, is_last);
    scan.put(alloc, held);
    code
}

/// The code of a text that has a fault, by its unit.
fn fault_of(unit: Unit) -> u32
    ensures { result ≡ fault_code unit }
{
    match unit {
        Unit::Utf16 => codes::LONE,
        _ => codes::NOT_UTF8,
    }
}

/// Gives segments of the scan in a box, with a counter of its own.
fn next_held<L: Ledger>(
    memory: Memory,
    held: &mut Held,
    starts: &mut [u64],
    ends: &mut [u64],
    statuses: &mut [u32],
    given: &mut Given,
    blank: Blank,
) -> u32
    requires name { blank.name ≡ L.name }
    requires parts { blank.parts ≡ L.parts }
    requires some { 0 < blank.parts }
    ensures { GivesThrough (Some held.old) (columns starts.old ends.old statuses.old)
        (columns starts.new ends.new statuses.new) result given.old given.new (Some held.new) }
{
    match held {
        Held::Scan(desk) => {
            let fault = fault_of(desk.scanner.unit());
            let mut steps = Steps::<L>::exported(memory, blank);
            let alloc = Global::new(memory);
            let table = desk.table.table();
            let reached = desk
                .scanner
                .next(alloc, table, starts, ends, statuses, &mut steps);
            tell(reached, fault, given)
        }
        _ => codes::HANDLE,
    }
}

/// Writes the next segments of what was fed: where each starts and ends, in the unit of the text,
/// and the greatest status of its end. `starts` and `statuses` may have no room.
#[unsafe(no_mangle)]
pub extern "C" fn rbbi_c_scan_next(
    memory: Memory,
    scan: &mut Handle,
    starts: &mut [u64],
    ends: &mut [u64],
    statuses: &mut [u32],
    given: &mut Given,
) -> u32
    ensures { GivesThrough scan.old.held (columns starts.old ends.old statuses.old)
        (columns starts.new ends.new statuses.new) result given.old given.new scan.new.held }
{
    let alloc = Global::new(memory);
    let Some(mut held) = scan.take(alloc) else {
        return codes::HANDLE;
    };
    let blank = Blank::new(1);
    let code = next_held::<Brand>(memory, &mut held, starts, ends, statuses, given, blank);
    scan.put(alloc, held);
    code
}
