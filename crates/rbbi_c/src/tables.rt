//! What C calls to load, share and write tables. `include/rbbi.h` documents these calls.
ghost use Rattle.std.specs.Prelude.{◌≡◌};
ghost use Rattle.rbbi_c.specs.Faults.{told};
ghost use Rattle.rbbi_c.specs.Tables.{LoadsThrough, SharesThrough, WritesThrough};

use crate::codes;
use crate::faults::Fault;
use crate::handle::Handle;
use crate::held::Held;
use crate::loading::{keep_table, loaded, write_through};
use crate::opening::{is_open, keep, table_in};
use std::alloc::Global;
use std::rt::Memory;

/// Loads the table of a table file, of either version. A fault is reported.
#[unsafe(no_mangle)]
pub extern "C" fn rbbi_c_table_load(
    memory: Memory,
    bytes: &[u8],
    table: &mut Handle,
    fault: &mut Fault,
    name: &mut [u8],
) -> u32
    ensures { LoadsThrough bytes.now (told fault.old name.old) (told fault.new name.new)
        table.old.held result table.new.held }
{
    let alloc = Global::new(memory);
    if is_open(alloc, table) {
        return codes::HANDLE;
    }
    match loaded(alloc, bytes, fault, name) {
        Ok(read) => keep_table(alloc, table, read),
        Err(code) => code,
    }
}

/// Makes one more handle of a table.
#[unsafe(no_mangle)]
pub extern "C" fn rbbi_c_table_share(memory: Memory, table: &mut Handle, other: &mut Handle) -> u32
    ensures shares { SharesThrough table.old.held other.old.held result other.new.held }
    ensures table { table.new.held ≡ table.old.held }
{
    let alloc = Global::new(memory);
    let shared = match table_in(alloc, table) {
        Ok(shared) => shared,
        Err(code) => return code,
    };
    if is_open(alloc, other) {
        return codes::HANDLE;
    }
    keep(alloc, other, Held::Table(shared))
}

/// Writes the table file of a table, of version 2, as much of it as there is room for, and its
/// length.
#[unsafe(no_mangle)]
pub extern "C" fn rbbi_c_table_write(
    memory: Memory,
    table: &mut Handle,
    room: &mut [u8],
    count: &mut usize,
) -> u32
    ensures { WritesThrough table.old.held result room.old room.new count.old count.new
        table.new.held }
{
    write_through(Global::new(memory), table, room, count)
}
