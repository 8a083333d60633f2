//! What leaving a piece out of a rule file changes.
ghost use Rattle.std.specs.Prelude.{◌≤◌, length, IfOk};
ghost use Rattle.std.specs.Str.{chars};
ghost use Rattle.rbbi_text.specs.Bytes.{most_bytes};
ghost use Rattle.rbbi_lint.specs.Effects.{HasEffect};

use crate::blank::blanked;
use crate::piece::Piece;
use rbbi_canon::differ;
use rbbi_compile::{CompileErr, compile};
use rbbi_props::PropTable;
use rbbi_table::Table;
use rbbi_text::Word;
use std::alloc::{AllocError, Global};

/// What leaving a piece out changes.
#[derive(Drop)]
pub enum Effect {
    /// Nothing: after each text the marks are the same.
    Nothing,
    /// The marks after this text. It is a shortest one; no contract states that.
    Marks(Word),
    /// Without the piece the file has this fault.
    Fault(CompileErr),
}

/// What leaving a piece out of a text changes, where the text has this table. Without the piece it
/// is compiled again, with the same property files, and both tables are compared.
pub fn effect_of(
    alloc: Global,
    text: &str,
    table: &Table,
    piece: Piece,
    props: &PropTable,
    ignored: bool,
) -> Result<Effect, AllocError>
    requires { length text.now ≤ most_bytes }
    ensures { IfOk result (HasEffect props.now ignored (chars text.now) table.now piece) }
{
    let without = blanked(alloc, text, piece.from, piece.to)?;
    match compile(alloc, without.as_str(), props, ignored) {
        Ok(other) => match differ(alloc, table, &other)? {
            None => Ok(Effect::Nothing),
            Some(shown) => Ok(Effect::Marks(shown)),
        },
        Err(CompileErr::Memory) => Err(AllocError),
        Err(error) => Ok(Effect::Fault(error)),
    }
}
