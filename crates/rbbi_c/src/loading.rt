//! Tables of table files.
ghost use Rattle.std.specs.Prelude.{◌≡◌, ◌⊎◌, Some, MatchResult};
ghost use Rattle.rbbi_c.specs.declared.held.Held.TheVariants as variant;
ghost use Rattle.rbbi_c.specs.Faults.{told};
ghost use Rattle.rbbi_c.specs.Tables.{IsLoaded, IsNotLoaded};
ghost use Rattle.rbbi_c.specs.Tables.{IsWritten, WritesThrough};

use crate::codes;
use crate::copying::copy_front;
use crate::faults::Fault;
use crate::handle::Handle;
use crate::held::Held;
use crate::opening::{keep, table_in};
use crate::shared::SharedTable;
use rbbi_command::Place;
use rbbi_file::{FileErr, read_table, write_table};
use rbbi_session::Holds;
use rbbi_table::Table;
use rbbi_text::MOST_BYTES;
use std::alloc::Global;

/// The table that the bytes of a table file spell, of either version, or the code of the refusal. A
/// fault is reported.
pub(crate) fn loaded(
    alloc: Global,
    bytes: &[u8],
    fault: &mut Fault,
    name: &mut [u8],
) -> Result<Table, u32>
    ensures { MatchResult result
        (IsLoaded bytes.now (told fault.old name.old) (told fault.new name.new))
        (IsNotLoaded bytes.now (told fault.old name.old) (told fault.new name.new)) }
{
    if bytes.len() > MOST_BYTES {
        return Err(codes::TOO_LONG);
    }
    match read_table(alloc, bytes) {
        Ok(table) => Ok(table),
        Err(FileErr::Memory) => Err(codes::MEMORY),
        Err(error) => {
            let place = match error.place() {
                Some(at) => Place::Byte(at),
                None => Place::Whole,
            };
            Err(fault.tell(error.label(), place, name))
        }
    }
}

/// Puts a table into a handle. Where there is no memory, the handle stays as it is.
pub(crate) fn keep_table(alloc: Global, handle: &mut Handle, table: Table) -> u32
    ensures { ((result ≡ 0) × (handle.new.held ≡ Some (variant.Table table)))
        ⊎ ((result ≡ 9) × (handle.new.held ≡ handle.old.held)) }
{
    match SharedTable::new(alloc, table) {
        Ok(shared) => keep(alloc, handle, Held::Table(shared)),
        Err(_) => codes::MEMORY,
    }
}

/// Writes the table file of a table, as much of it as there is room for.
fn write_file(alloc: Global, table: &Table, room: &mut [u8], count: &mut usize) -> u32
    ensures { IsWritten table.now room.old room.new result count.new
        ⊎ ((result ≡ 9) × (room.new ≡ room.old) × (count.new ≡ count.old)) }
{
    let Ok(file) = write_table(alloc, table) else {
        return codes::MEMORY;
    };
    let bytes = file.as_slice();
    copy_front(bytes, room);
    *count = bytes.len();
    if bytes.len() > room.len() {
        return codes::ROOM;
    }
    codes::OK
}

/// Writes the table file of the table that a handle holds, as much of it as there is room for.
pub(crate) fn write_through(
    alloc: Global,
    table: &mut Handle,
    room: &mut [u8],
    count: &mut usize,
) -> u32
    ensures { WritesThrough table.old.held result room.old room.new count.old count.new
        table.new.held }
{
    match table_in(alloc, table) {
        Ok(shared) => write_file(alloc, shared.table(), room, count),
        Err(code) => code,
    }
}
