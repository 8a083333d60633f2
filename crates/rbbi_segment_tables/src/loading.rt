//! The tables themselves, by kind.
ghost use Rattle.std.specs.Prelude.{◌≤◌, length, IfOk};
ghost use Rattle.rbbi_model.specs.TableFile.{IsSpelling};
ghost use Rattle.rbbi_model.specs.Tables.{Table};
ghost use Rattle.rbbi_model.specs.ValidTables.{IsValidTable};
ghost use Rattle.rbbi_text.specs.Bytes.{most_bytes};
ghost use Rattle.rbbi_annexes.specs.Breaks.{SpellTable};
ghost use Rattle.rbbi_segment_tables.specs.BuiltIn.{IsBuiltIn};

use crate::tailored::{cj, loose, loose_cj, normal, normal_cj, strict};
use crate::{graphemes, lines, sentences, words};
use rbbi_file::{FileErr, read_table};
use rbbi_table::Table;
use std::alloc::{AllocError, Global};

/// What a built-in table breaks a text into.
#[derive(Clone, Copy, PartialEq, Eq)]
pub enum Kind {
    /// Extended grapheme clusters of UAX #29.
    Grapheme,
    /// Words of UAX #29.
    Word,
    /// Sentences of UAX #29.
    Sentence,
    /// Lines of UAX #14.
    Line,
    /// The same, as CSS names them.
    LineStrict,
    /// Lines tailored for text with small kana.
    LineNormal,
    /// The same, with fewer characters that begin no line.
    LineLoose,
    /// Strict lines tailored for Chinese and Japanese.
    LineCj,
    /// Normal lines tailored for Chinese and Japanese.
    LineNormalCj,
    /// Loose lines tailored for Chinese and Japanese.
    LineLooseCj,
}

/// The bytes of the table file of a kind.
fn bytes_of(kind: Kind) -> &'static [u8]
    ensures valid { SpellTable result.now }
    ensures short { length result.now ≤ most_bytes }
    ensures built { (table : Table) → IsValidTable table → IsSpelling result.now table
        → IsBuiltIn kind table }
{
    match kind {
        Kind::Grapheme => graphemes(),
        Kind::Word => words(),
        Kind::Sentence => sentences(),
        Kind::Line => lines(),
        Kind::LineStrict => strict(),
        Kind::LineNormal => normal(),
        Kind::LineLoose => loose(),
        Kind::LineCj => cj(),
        Kind::LineNormalCj => normal_cj(),
        Kind::LineLooseCj => loose_cj(),
    }
}

/// The built-in table of a kind: that of its bytes. It gives the boundaries of each text by UAX #29, or
/// those of lines by UAX #14; what tailored lines are, the rules alone say.
///
/// Refuses only where memory runs out.
pub fn built_in(alloc: Global, kind: Kind) -> Result<Table, AllocError>
    ensures { IfOk result (IsBuiltIn kind) }
{
    match read_table(alloc, bytes_of(kind)) {
        Ok(table) => Ok(table),
        Err(FileErr::Memory) => Err(AllocError),
        Err(_) => unreachable!(),
    }
}
