//! Tables of rule files.
ghost use Rattle.std.specs.Prelude.{◌≡◌, ◌≤◌, length, Some, MatchResult};
ghost use Rattle.rbbi_c.specs.Compiling.{AddsThrough, IsCompiledBy, IsNotCompiledBy};
ghost use Rattle.rbbi_text.specs.Bytes.{most_bytes};
ghost use Rattle.rbbi_c.specs.Faults.{told};
ghost use Rattle.rbbi_c.specs.Compiling.{IsAdded, IsCompiledFrom, IsNotCompiled};

use crate::answering::text_of;
use crate::codes;
use crate::faults::Fault;
use crate::handle::Handle;
use crate::held::Held;
use rbbi_builtin::compile_over;
use rbbi_command::{Place, place_in};
use rbbi_compile::{CompileErr, rule_text};
use rbbi_props::{PropErr, PropTable};
use rbbi_table::Table;
use rbbi_text::MOST_BYTES;
use std::alloc::Global;

/// The most bytes that a rule file may have.
const MOST_RULES: usize = 1_048_576;

/// Adds the rows of a property file, or reports why not.
fn add_file(
    files: &mut PropTable,
    property: &str,
    bytes: &[u8],
    fault: &mut Fault,
    name: &mut [u8],
) -> u32
    requires { length bytes.now ≤ most_bytes }
    ensures { IsAdded files.old property.now bytes.now result
        (told fault.old name.old) (told fault.new name.new) files.new }
{
    match files.add(property, bytes) {
        Ok(()) => codes::OK,
        Err(PropErr::NotUtf8(at)) => fault.tell("NotUtf8", Place::Byte(at), name),
        Err(PropErr::BadRow(row)) => fault.tell("BadRow", Place::Row(row), name),
        Err(PropErr::Memory) => codes::MEMORY,
    }
}

/// The table of the bytes of a rule file, over property files and what is built in, or the code of
/// the refusal. A fault is reported.
fn compiled(
    alloc: Global,
    bytes: &[u8],
    files: &mut PropTable,
    ignored: bool,
    fault: &mut Fault,
    name: &mut [u8],
) -> Result<Table, u32>
    requires { length bytes.now ≤ most_bytes }
    ensures told { MatchResult result
        (IsCompiledFrom files.old ignored bytes.now (told fault.old name.old)
        (told fault.new name.new))
        (IsNotCompiled files.old ignored bytes.now (told fault.old name.old)
        (told fault.new name.new)) }
    ensures same { files.new ≡ files.old }
{
    let text = match rule_text(bytes) {
        Ok(text) => text,
        Err(at) => return Err(fault.tell("NotUtf8", Place::Byte(at), name)),
    };
    match compile_over(alloc, text, files, ignored) {
        Ok(table) => Ok(table),
        Err(CompileErr::Memory) => Err(codes::MEMORY),
        Err(error) => Err(fault.tell(error.label(), place_in(text, error.place()), name)),
    }
}

/// Adds a property file to those that a handle holds. A fault is reported.
pub(crate) fn add_through(
    alloc: Global,
    files: &mut Handle,
    property: &[u8],
    bytes: &[u8],
    fault: &mut Fault,
    name: &mut [u8],
) -> u32
    ensures { AddsThrough files.old.held property.now bytes.now (told fault.old name.old)
        (told fault.new name.new) result files.new.held }
{
    let property = match text_of(property) {
        Ok(property) => property,
        Err(code) => return code,
    };
    if bytes.len() > MOST_BYTES {
        return codes::TOO_LONG;
    }
    let Some(mut held) = files.take(alloc) else {
        return codes::HANDLE;
    };
    let code = match &mut *held {
        Held::Properties(list) => add_file(list, property, bytes, fault, name),
        Held::Table(_) | Held::Session(_) | Held::Filtered(_) | Held::Tally(_) | Held::Scan(_) =>
            codes::HANDLE,
    };
    files.put(alloc, held);
    code
}

/// The table of the rules, by the property files in a box.
fn compiled_with(
    alloc: Global,
    held: &mut Held,
    rules: &[u8],
    ignored: bool,
    fault: &mut Fault,
    name: &mut [u8],
) -> Result<Table, u32>
    requires { length rules.now ≤ most_bytes }
    ensures told { MatchResult result
        (IsCompiledBy (Some held.old) ignored rules.now (told fault.old name.old)
        (told fault.new name.new))
        (IsNotCompiledBy (Some held.old) ignored rules.now (told fault.old name.old)
        (told fault.new name.new)) }
    ensures same { held.new ≡ held.old }
{
    match held {
        Held::Properties(files) => compiled(alloc, rules, files, ignored, fault, name),
        _ => Err(codes::HANDLE),
    }
}

/// The table of the rules of a rule file, by the property files that a handle holds, or by none. A
/// fault is reported.
pub(crate) fn compiled_by(
    alloc: Global,
    files: &mut Handle,
    rules: &[u8],
    ignored: bool,
    fault: &mut Fault,
    name: &mut [u8],
) -> Result<Table, u32>
    ensures told { MatchResult result
        (IsCompiledBy files.old.held ignored rules.now (told fault.old name.old)
        (told fault.new name.new))
        (IsNotCompiledBy files.old.held ignored rules.now (told fault.old name.old)
        (told fault.new name.new)) }
    ensures same { files.new.held ≡ files.old.held }
{
    if rules.len() > MOST_RULES {
        return Err(codes::TOO_LONG);
    }
    match files.take(alloc) {
        Some(mut held) => {
            let table = compiled_with(alloc, &mut held, rules, ignored, fault, name);
            files.put(alloc, held);
            table
        }
        None => {
            let mut none = PropTable::new(alloc);
            compiled(alloc, rules, &mut none, ignored, fault, name)
        }
    }
}
