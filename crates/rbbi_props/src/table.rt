//! The table of property files.
ghost use Rattle.std.specs.Prelude.{◌≡◌, ◌≤◌, ◌∷◌, [], ◌++◌, List, length, bytes_eq, map, filter};
ghost use Rattle.std.specs.Prelude.{IfOk, IfErr, OnOk, OnErr, IsUtf8};
ghost use Rattle.std.specs.List.{All};
ghost use Rattle.std.specs.Option.{option_copied};
ghost use Rattle.rbbi_sets.specs.Rising.{IsRange};
ghost use Rattle.rbbi_text.specs.Bytes.{most_bytes};
ghost use Rattle.rbbi_props.specs.Rows.{Row, File};
ghost use Rattle.rbbi_props.specs.Files.{named_file};
ghost use Rattle.rbbi_props.specs.Refusals.{HasRowsAlone, IsCause};
ghost use Rattle.rbbi_props.specs.Lookups as spec;
ghost use Rattle.rbbi_props.specs.Lookups.{IsSetOf};

use crate::error::PropErr;
use crate::file::{PropFile, read_file};
use crate::loose::{is_well_formed, loose};
use crate::row::PropRow;
use crate::single::single;
use rbbi_sets::{CodeRange, CodeSet};
use std::alloc::{AllocError, Global};
use std::marker::Model;

/// The property files that were passed. Contracts see it as their list.
#[derive(Drop)]
pub struct PropTable {
    pub(crate) files: Vec<PropFile>,
}

impl Model for PropTable {
    ghost use Rattle.std.specs.Prelude.{List};
    ghost use Rattle.rbbi_props.specs.Rows.{File};

    ghost Value = { List File };

    ghost view = { λ table. table.files.items };
}

impl PropTable {
    /// A table with no rows.
    pub fn new(alloc: Global) -> PropTable
        ensures { result ≡ [] }
    {
        PropTable {
            files: Vec::new(alloc),
        }
    }

    /// Adds the rows of a property file under a name. Files of one loose name are asked together.
    ///
    /// The file has at most 100,663,296 bytes. One U+FEFF at its start isn't part of it. A line is
    /// cut before its first `#`, and skipped where only spaces and tabs are left. Otherwise its
    /// fields between `;` are two or more: the first is one code point or two joined by `..`, each
    /// of four to six hexadecimal digits, at most 10FFFF, the first not greater than the second;
    /// the last is the value, which has a letter or digit of ASCII. Fields between are ignored, as
    /// the files of the Unicode Character Database have them (UAX #44, section 4.2).
    ///
    /// Refuses `NotUtf8` with the first byte past the longest valid prefix, `BadRow` with the first
    /// line that is neither skipped nor of this form, and `Memory`. The table is then as before.
    pub fn add(&mut self, name: &str, bytes: &[u8]) -> Result<(), PropErr>
        requires { length bytes.now ≤ most_bytes }
        ensures utf8 { OnOk result (IsUtf8 bytes.now) }
        ensures rows { OnOk result (HasRowsAlone bytes.now) }
        ensures added { OnOk result (self.new ≡ self.old ++ named_file name.now bytes.now ∷ []) }
        ensures cause { IfErr result (λ e. IsCause e bytes.now) }
        ensures unchanged { OnErr result (self.new ≡ self.old) }
    {
        let alloc = *self.files.allocator();
        let file = read_file(alloc, name, bytes)?;
        self.files.push(file)?;
        Ok(())
    }

    /// The set that a single name, or a name and a value, stand for, and None where nothing is
    /// found.
    ///
    /// Where a name or value isn't well formed, nothing is. For a name and a value the code points
    /// of all rows of files of this name with this value, both compared in loose form, are found
    /// first; then, where the name is that of the general category or of the script, what the value
    /// gives as a single name. A single name is a binary property, a general category or a script
    /// of the Unicode Character Database; files aren't asked for it.
    pub fn lookup(
        &self,
        alloc: Global,
        name: &str,
        value: Option<&str>,
    ) -> Result<Option<CodeSet>, AllocError>
        ensures { IfOk result (λ found.
            IsSetOf found (spec.lookup self.now name.now (option_copied value.entry))) }
    {
        match value {
            None => single(alloc, name),
            Some(value) => lookup_value(alloc, &self.files, name, value),
        }
    }
}

fn lookup_value(
    alloc: Global,
    files: &[PropFile],
    name: &str,
    value: &str,
) -> Result<Option<CodeSet>, AllocError>
    ensures { IfOk result (λ found.
        IsSetOf found (spec.lookup files.now name.now (Some value.now))) }
{
    if !is_well_formed(name.as_bytes()) || !is_well_formed(value.as_bytes()) {
        return Ok(None);
    }
    let loose_name = loose(alloc, name.as_bytes())?;
    let loose_value = loose(alloc, value.as_bytes())?;
    let ranges = ranges_with(alloc, files, &loose_name, &loose_value)?;
    if ranges.is_empty() {
        if is_category_or_script(&loose_name) {
            return single(alloc, value);
        }
        return Ok(None);
    }
    let found = CodeSet::from_ranges(alloc, ranges)?;
    Ok(Some(found))
}

/// Whether a loose name is that of the general category or of the script.
fn is_category_or_script(name: &[u8]) -> bool
    ensures { result ≡ spec.is_category_or_script name.now }
{
    name == b"gc".as_slice()
        || name == b"generalcategory".as_slice()
        || name == b"sc".as_slice()
        || name == b"script".as_slice()
}

/// The ranges of all rows with this value in files of this name, both in loose form.
fn ranges_with(
    alloc: Global,
    files: &[PropFile],
    name: &[u8],
    value: &[u8],
) -> Result<Vec<CodeRange>, AllocError>
    ensures ranges { IfOk result (λ ranges.
        ranges.items ≡ spec.ranges_with files.now name.now value.now) }
    ensures valid { IfOk result (λ ranges. All IsRange ranges.items) }
{
    let mut ranges = Vec::new(alloc);
    for file in files {
        push_file(&mut ranges, file, name, value)?;
    }
    Ok(ranges)
}

/// Adds the ranges of a file's rows with this value, where the file has this name.
fn push_file(
    ranges: &mut Vec<CodeRange>,
    file: &PropFile,
    name: &[u8],
    value: &[u8],
) -> Result<(), AllocError>
    requires { All IsRange ranges.old.items }
    ensures ranges { OnOk result (ranges.new.items ≡
        ranges.old.items ++ spec.ranges_of (spec.rows_under name.now file.now) value.now) }
    ensures valid { OnOk result (All IsRange ranges.new.items) }
{
    if file.name.as_slice() == name {
        push_rows(ranges, &file.rows, value)?;
    }
    Ok(())
}

/// Adds the ranges of the rows with this value.
fn push_rows(ranges: &mut Vec<CodeRange>, rows: &[PropRow], value: &[u8]) -> Result<(), AllocError>
    requires { All IsRange ranges.old.items }
    ensures ranges { OnOk result
        (ranges.new.items ≡ ranges.old.items ++ spec.ranges_of rows.now value.now) }
    ensures valid { OnOk result (All IsRange ranges.new.items) }
{
    for row in rows {
        if row.value.as_slice() == value {
            ranges.push(row.range)?;
        }
    }
    Ok(())
}
