//! What C calls to turn a session into one through a filter. `include/rbbi.h` documents these
//! calls.
ghost use Rattle.std.specs.Prelude.{◌≡◌, ◌≤◌, length, None, Some, MatchOption, MatchResult};
ghost use Rattle.rbbi_text.specs.Bytes.{most_bytes};
ghost use Rattle.rbbi_c.specs.Faults.{told};
ghost use Rattle.rbbi_c.specs.Calls.{IsUnserved};
ghost use Rattle.rbbi_c.specs.Filtering as spec;
ghost use Rattle.rbbi_c.specs.Filtering.{ReadsFilter, IsFilterRead, IsNoFilter, GoesThrough};
ghost use Rattle.rbbi_c.specs.Filtering.{FiltersThrough, SuppressesThrough, TailorsThrough};
ghost use Rattle.rbbi_c.specs.Holding.{session_in, unserved_code};

use crate::codes;
use crate::faults::Fault;
use crate::filter_desk::FilterDesk;
use crate::filter_lending::unserved_by;
use crate::handle::Handle;
use crate::held::Held;
use rbbi_command::{FilterKind, Place};
use rbbi_filter::{Abbreviations, Filter, Tailoring};
use rbbi_props::PropTable;
use rbbi_text::LinesErr;
use std::alloc::Global;
use std::rt::Memory;

/// The most bytes that a filter file may have.
const MOST_FILTER: usize = 65_536;

/// The filter of a file.
fn read(alloc: Global, kind: FilterKind, bytes: &[u8]) -> Result<Filter, LinesErr>
    requires { length bytes.now ≤ most_bytes }
    ensures { ReadsFilter kind bytes.now result }
{
    match kind {
        FilterKind::Abbreviations => match Abbreviations::read(alloc, bytes) {
            Ok(list) => Ok(Filter::Suppressing(list)),
            Err(error) => Err(error),
        },
        FilterKind::Pairs => match Tailoring::read(alloc, bytes) {
            Ok(pairs) => Ok(Filter::Turning(pairs)),
            Err(error) => Err(error),
        },
    }
}

/// The place of a fault of a file.
fn place_of(error: &LinesErr) -> Place
    ensures { result ≡ spec.place_of error.now }
{
    match error {
        LinesErr::NotUtf8(at) => Place::Byte(*at),
        LinesErr::BadLine(line) => Place::Row(*line),
        LinesErr::Memory => Place::Whole,
    }
}

/// The filter of the bytes of a file, or the code of the refusal. A fault is reported.
fn filter_of(
    alloc: Global,
    kind: FilterKind,
    bytes: &[u8],
    fault: &mut Fault,
    name: &mut [u8],
) -> Result<Filter, u32>
    ensures { MatchResult result
        (IsFilterRead kind bytes.now (told fault.old name.old) (told fault.new name.new))
        (IsNoFilter kind bytes.now (told fault.old name.old) (told fault.new name.new)) }
{
    if bytes.len() > MOST_FILTER {
        return Err(codes::TOO_LONG);
    }
    match read(alloc, kind, bytes) {
        Ok(filter) => Ok(filter),
        Err(LinesErr::Memory) => Err(codes::MEMORY),
        Err(error) => Err(fault.tell(error.label(), place_of(&error), name)),
    }
}

/// Turns a session that was taken out into one through a filter.
fn turned(alloc: Global, held: Held, filter: Filter) -> (u32, Held)
    ensures { MatchOption (session_in (Some held))
        ((result.0 ≡ unserved_code (Some held)) × (result.1 ≡ held))
        (λ old. GoesThrough (Some held) old filter result.0 (Some result.1)) }
{
    match held {
        Held::Session(desk) => match FilterDesk::open(alloc, desk, filter) {
            Ok(desk) => (codes::OK, Held::Filtered(desk)),
            Err(desk) => (codes::MEMORY, Held::Session(desk)),
        },
        other => (unserved_by(&other), other),
    }
}

/// Turns the session that a handle holds into one through the filter of a file.
fn filter_through(
    memory: Memory,
    kind: FilterKind,
    session: &mut Handle,
    bytes: &[u8],
    fault: &mut Fault,
    name: &mut [u8],
) -> u32
    ensures { FiltersThrough kind session.old.held bytes.now (told fault.old name.old)
        (told fault.new name.new) result session.new.held }
{
    let alloc = Global::new(memory);
    let filter = match filter_of(alloc, kind, bytes, fault, name) {
        Ok(filter) => filter,
        Err(code) => return code,
    };
    let Some(mut held) = session.take(alloc) else {
        return codes::HANDLE;
    };
    // Something has to be in the box while the session is out of it.
    let former = Box::replace(&mut held, Held::Properties(PropTable::new(alloc)));
    let (code, now) = turned(alloc, former, filter);
    Box::replace(&mut held, now);
    session.put(alloc, held);
    code
}

/// From now on boundaries before which one of the abbreviations of a file stands aren't reported.
/// The cursor goes to 0. A fault of the file is reported.
#[unsafe(no_mangle)]
pub extern "C" fn rbbi_c_suppress(
    memory: Memory,
    session: &mut Handle,
    list: &[u8],
    fault: &mut Fault,
    name: &mut [u8],
) -> u32
    ensures { SuppressesThrough session.old.held list.now (told fault.old name.old)
        (told fault.new name.new) result session.new.held }
{
    filter_through(
        memory,
        FilterKind::Abbreviations,
        session,
        list,
        fault,
        name,
    )
}

/// From now on boundaries are those of the text as the pairs of a file turn its characters. The
/// cursor goes to 0. A fault of the file is reported.
#[unsafe(no_mangle)]
pub extern "C" fn rbbi_c_tailor(
    memory: Memory,
    session: &mut Handle,
    pairs: &[u8],
    fault: &mut Fault,
    name: &mut [u8],
) -> u32
    ensures { TailorsThrough session.old.held pairs.now (told fault.old name.old)
        (told fault.new name.new) result session.new.held }
{
    filter_through(memory, FilterKind::Pairs, session, pairs, fault, name)
}
