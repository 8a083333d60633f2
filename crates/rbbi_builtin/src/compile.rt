//! Compiling rules over property files and what is built in.
ghost use Rattle.std.specs.Prelude.{◌≡◌, ◌≤◌, ◌⊎◌, length, IfOk, IfErr};
ghost use Rattle.std.specs.Str.{chars};
ghost use Rattle.rbbi_text.specs.Bytes.{most_bytes};
ghost use Rattle.rbbi_builtin.specs.Compiling.{CompilesOver, HasFaultOver};

use crate::fill::add_asked_for;
use rbbi_compile::{CompileErr, compile};
use rbbi_props::PropTable;
use rbbi_table::Table;
use std::alloc::{AllocError, Global};

/// The least table of the rules that a text means, with these property files and, for a property
/// for whose name there is none, what is built in. Where `ignored` holds, `$dictionary` is a
/// variable like others.
///
/// The text has at most 100,663,296 bytes. Refuses the first fault of the text, or fails if memory
/// runs out. The files are as before.
pub fn compile_over(
    alloc: Global,
    text: &str,
    files: &mut PropTable,
    ignored: bool,
) -> Result<Table, CompileErr>
    requires { length text.now ≤ most_bytes }
    ensures table { IfOk result (CompilesOver files.old ignored (chars text.now)) }
    ensures refused { IfErr result (λ e. (e ≡ CompileErr.Memory)
        ⊎ HasFaultOver files.old ignored (chars text.now) e) }
    ensures same { files.new ≡ files.old }
{
    let given = files.len();
    let added = add_asked_for(alloc, text, files);
    let table = match added {
        Ok(()) => compile(alloc, text, files, ignored),
        Err(AllocError) => Err(CompileErr::Memory),
    };
    files.truncate(given);
    table
}
