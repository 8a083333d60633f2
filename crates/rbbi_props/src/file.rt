//! A property file.
ghost use Rattle.std.specs.Prelude.{◌≡◌, ◌≤◌, ◌<◌, ◌∷◌, [], ◌++◌, false, length, None, IfOk, IfErr};
ghost use Rattle.std.specs.Prelude.{OnOk, IsUtf8, filter_map};
ghost use Rattle.std.specs.List.{position};
ghost use Rattle.std.specs.Str.Lines.{lines};
ghost use Rattle.rbbi_text.specs.Bytes.{most_bytes};
ghost use Rattle.rbbi_props.specs.RowLines.{property_row, is_bad};
ghost use Rattle.rbbi_props.specs.Files.{named_file};
ghost use Rattle.rbbi_props.specs.Refusals.{HasRowsAlone, IsCause};
ghost use Rattle.rbbi_props.specs.inner.Refusals.{IsLineCause, IsOneLineCause};

use crate::error::PropErr;
use crate::loose::loose;
use crate::row::{PropRow, property_row};
use rbbi_text::{is_skipped, utf8_text, without_mark};
use std::alloc::Global;
use std::marker::Model;

/// A property file: its name in loose form, and its rows in order.
#[derive(Drop)]
pub(crate) struct PropFile {
    pub(crate) name: Vec<u8>,
    pub(crate) rows: Vec<PropRow>,
}

impl Model for PropFile {
    ghost use Rattle.rbbi_props.specs.Rows.{File};

    ghost Value = { File };

    ghost view = { λ file. record { name = file.name.items; rows = file.rows.items } };
}

/// The file of these bytes under a name.
pub(crate) fn read_file(alloc: Global, name: &str, bytes: &[u8]) -> Result<PropFile, PropErr>
    requires { length bytes.now ≤ most_bytes }
    ensures utf8 { OnOk result (IsUtf8 bytes.now) }
    ensures rows { OnOk result (HasRowsAlone bytes.now) }
    ensures file { IfOk result (λ file. file ≡ named_file name.now bytes.now) }
    ensures cause { IfErr result (λ e. IsCause e bytes.now) }
{
    let text = match utf8_text(bytes) {
        Ok(text) => text,
        Err(at) => return Err(PropErr::NotUtf8(at)),
    };
    let rows = read_rows(alloc, without_mark(text))?;
    let name = loose(alloc, name.as_bytes())?;
    Ok(PropFile { name, rows })
}

/// The rows that the lines of a text write.
fn read_rows(alloc: Global, text: &str) -> Result<Vec<PropRow>, PropErr>
    requires { length text.now ≤ most_bytes }
    ensures rows { IfOk result (λ rows. rows.items ≡ filter_map property_row (lines text.now)) }
    ensures alone { OnOk result (position is_bad (lines text.now) ≡ None) }
    ensures cause { IfErr result (λ e. IsLineCause e (lines text.now)) }
{
    let mut rows = Vec::new(alloc);
    let mut number = 0;
    for line in text.lines() {
        number += 1;
        read_line(&mut rows, alloc, line.as_bytes(), number)?;
    }
    Ok(rows)
}

/// Adds the row of a line, which has this number. A line that is skipped adds none.
fn read_line(
    rows: &mut Vec<PropRow>,
    alloc: Global,
    line: &[u8],
    number: u32,
) -> Result<(), PropErr>
    ensures row { OnOk result
        (rows.new.items ≡ rows.old.items ++ filter_map property_row (line.now ∷ [])) }
    ensures good { OnOk result (is_bad line.now ≡ false) }
    ensures cause { IfErr result (λ e. IsOneLineCause e line.now number) }
{
    let Some(row) = property_row(alloc, line)? else {
        if is_skipped(line) {
            return Ok(());
        }
        return Err(PropErr::BadRow(number));
    };
    rows.push(row)?;
    Ok(())
}
