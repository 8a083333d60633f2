//! What C calls to read property files and to compile rules. `include/rbbi.h` documents these
//! calls.
ghost use Rattle.std.specs.Prelude.{◌≡◌};
ghost use Rattle.rbbi_c.specs.Faults.{told};
ghost use Rattle.rbbi_c.specs.Compiling.{StartsFiles, AddsThrough, CompilesThrough};

use crate::codes;
use crate::compiling::{add_through, compiled_by};
use crate::faults::Fault;
use crate::handle::Handle;
use crate::held::Held;
use crate::loading::keep_table;
use crate::opening::{is_open, keep};
use rbbi_props::PropTable;
use std::alloc::Global;
use std::rt::Memory;

/// Starts a list of property files.
#[unsafe(no_mangle)]
pub extern "C" fn rbbi_c_properties(memory: Memory, files: &mut Handle) -> u32
    ensures { StartsFiles files.old.held result files.new.held }
{
    let alloc = Global::new(memory);
    if is_open(alloc, files) {
        return codes::HANDLE;
    }
    keep(alloc, files, Held::Properties(PropTable::new(alloc)))
}

/// Adds a property file under the name of its property. A fault is reported.
#[unsafe(no_mangle)]
pub extern "C" fn rbbi_c_properties_add(
    memory: Memory,
    files: &mut Handle,
    property: &[u8],
    bytes: &[u8],
    fault: &mut Fault,
    name: &mut [u8],
) -> u32
    ensures { AddsThrough files.old.held property.now bytes.now (told fault.old name.old)
        (told fault.new name.new) result files.new.held }
{
    add_through(Global::new(memory), files, property, bytes, fault, name)
}

/// Compiles the rules of a rule file, with property files or, by a handle that holds nothing,
/// without. A fault is reported.
#[unsafe(no_mangle)]
pub extern "C" fn rbbi_c_table_compile(
    memory: Memory,
    files: &mut Handle,
    rules: &[u8],
    ignore_dictionary: bool,
    table: &mut Handle,
    fault: &mut Fault,
    name: &mut [u8],
) -> u32
    ensures compiles { CompilesThrough files.old.held ignore_dictionary rules.now
        (told fault.old name.old) (told fault.new name.new) table.old.held result table.new.held }
    ensures files { files.new.held ≡ files.old.held }
{
    let alloc = Global::new(memory);
    if is_open(alloc, table) {
        return codes::HANDLE;
    }
    match compiled_by(alloc, files, rules, ignore_dictionary, fault, name) {
        Ok(compiled) => keep_table(alloc, table, compiled),
        Err(code) => code,
    }
}
