//! What C calls to open, edit and close a session. `include/rbbi.h` documents these calls.
ghost use Rattle.std.specs.Prelude.{◌≡◌, None};
ghost use Rattle.rbbi_c.specs.Copying.{room_code};
ghost use Rattle.rbbi_c.specs.Calls.{EditsThrough};
ghost use Rattle.rbbi_c.specs.Opening.{OpensThrough};
ghost use Rattle.rbbi_c.specs.Reading.{MeasuresThrough, ListsThrough};

use crate::answering::edit_through;
use crate::codes;
use crate::filter_lending::lend_filtered;
use crate::handle::Handle;
use crate::held::Held;
use crate::lending::lend;
use crate::opening::{is_open, keep, session_of};
use std::alloc::Global;
use std::rt::Memory;

/// Opens a session over a text in UTF-8, with places in the unit of a number.
#[unsafe(no_mangle)]
pub extern "C" fn rbbi_c_open(
    memory: Memory,
    table: &mut Handle,
    text: &[u8],
    unit: u32,
    session: &mut Handle,
) -> u32
    ensures opened { OpensThrough table.old.held text.now unit session.old.held result
        session.new.held }
    ensures table { table.new.held ≡ table.old.held }
{
    let alloc = Global::new(memory);
    if is_open(alloc, session) {
        return codes::HANDLE;
    }
    match session_of(alloc, table, text, unit) {
        Ok(desk) => keep(alloc, session, Held::Session(desk)),
        Err(code) => code,
    }
}

/// Closes a handle of any kind. What it held is freed, but for a table that sessions use.
#[unsafe(no_mangle)]
pub extern "C" fn rbbi_c_close(memory: Memory, handle: &mut Handle)
    ensures { handle.new.held ≡ None }
{
    let _held = handle.take(Global::new(memory));
}

/// Puts bytes of UTF-8 in place of a part of the text, and the cursor at 0.
#[unsafe(no_mangle)]
pub extern "C" fn rbbi_c_replace(
    memory: Memory,
    session: &mut Handle,
    at: u32,
    remove: u32,
    insert: &[u8],
) -> u32
    ensures { EditsThrough session.old.held at remove insert.now result session.new.held }
{
    edit_through(memory, session, at, remove, insert)
}

/// The length of the text in the session's unit.
#[unsafe(no_mangle)]
pub extern "C" fn rbbi_c_length(memory: Memory, session: &mut Handle, length: &mut u32) -> u32
    ensures { MeasuresThrough session.old.held result length.old length.new session.new.held }
{
    let alloc = Global::new(memory);
    let Some(mut held) = session.take(alloc) else {
        return codes::HANDLE;
    };
    let code = match lend(&mut held) {
        Some(desk) => {
            *length = desk.length();
            codes::OK
        }
        None => match lend_filtered(&mut held) {
            Some(desk) => {
                *length = desk.length();
                codes::OK
            }
            None => codes::HANDLE,
        },
    };
    session.put(alloc, held);
    code
}

/// Writes the statuses of the boundary at the cursor, which rise, as many as there is room for, and
/// tells how many there are.
#[unsafe(no_mangle)]
pub extern "C" fn rbbi_c_statuses(
    memory: Memory,
    session: &mut Handle,
    room: &mut [u32],
    count: &mut usize,
) -> u32
    ensures { ListsThrough session.old.held result room.old room.new count.old count.new
        session.new.held }
{
    let alloc = Global::new(memory);
    let Some(mut held) = session.take(alloc) else {
        return codes::HANDLE;
    };
    let code = match lend(&mut held) {
        Some(desk) => tell_count(desk.statuses(room), room.len(), count),
        None => match lend_filtered(&mut held) {
            Some(desk) => tell_count(desk.statuses(room), room.len(), count),
            None => codes::HANDLE,
        },
    };
    session.put(alloc, held);
    code
}

/// Tells how many statuses there are, and whether there was room for them.
fn tell_count(statuses: usize, room: usize, count: &mut usize) -> u32
    ensures code { result ≡ room_code statuses room }
    ensures count { count.new ≡ statuses }
{
    *count = statuses;
    if statuses > room {
        codes::ROOM
    } else {
        codes::OK
    }
}
