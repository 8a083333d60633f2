//! Files of properties that are known by runs of code points, added for a while.
ghost use Rattle.std.specs.Prelude.{◌≡◌, [], ◌++◌, length, take, map, slice_index_or, bytes_eq};
ghost use Rattle.std.specs.Prelude.{IfOk, OnOk, OnErr};
ghost use Rattle.unicode.specs.Steps.{IsPartition};
ghost use Rattle.rbbi_sets.specs.Rising.{IsRange};
ghost use Rattle.rbbi_props.specs.LooseForms as forms;
ghost use Rattle.rbbi_props.specs.RunRows as spec;
ghost use Rattle.rbbi_props.specs.RunRows.{AddsRowsOf, AreRowsOf, names_in, rows_under_names};

use crate::common::have_one_loose_form;
use crate::file::PropFile;
use crate::loose::loose;
use crate::row::PropRow;
use crate::table::PropTable;
use rbbi_sets::CodeRange;
use std::alloc::{AllocError, Global};

/// How many values there are. A run is the code point after it, times this, and its value.
const VALUES: u32 = 2048;

impl PropTable {
    /// Adds a file under a name for a property that is known by runs of code points: for each run
    /// a row under each name of its value.
    ///
    /// A run is the code point after it, times 2,048, and the number of its value. The values are
    /// the texts of their names, by number, with spaces between names. If memory runs out, the
    /// table is as before.
    pub fn add_runs(&mut self, name: &str, runs: &[u32], values: &[&str]) -> Result<(), AllocError>
        requires { IsPartition runs.now }
        ensures added { OnOk result (AddsRowsOf runs.now (map (λ names. names.now) values.now)
            name.now self.old self.new) }
        ensures unchanged { OnErr result (self.new ≡ self.old) }
    {
        let alloc = *self.files.allocator();
        let rows = rows_of_runs(alloc, runs, values)?;
        let name = loose(alloc, name.as_bytes())?;
        self.files.push(PropFile { name, rows })?;
        Ok(())
    }

    /// Whether a file has this name, in loose form.
    pub fn has_file(&self, alloc: Global, name: &str) -> Result<bool, AllocError>
        ensures { IfOk result (λ found. found ≡ spec.has_file self.now (forms.loose name.now)) }
    {
        let name = loose(alloc, name.as_bytes())?;
        Ok(self.files.iter().any(|file| file.name == name))
    }

    /// The number of files.
    pub fn len(&self) -> usize
        ensures { result ≡ length self.now }
    {
        self.files.len()
    }

    /// Takes files away from the end until this many are left. Leaves all if there are fewer.
    pub fn truncate(&mut self, len: usize)
        ensures { self.new ≡ take len self.old }
    {
        self.files.truncate(len);
    }
}

/// Whether one of the names in a text, which spaces part, has the loose form of this one.
pub fn has_loose_name(names: &str, name: &str) -> bool
    ensures { result ≡ spec.is_among names.now (forms.loose name.now) }
{
    names.split(' ').any(|other| is_loosely(other, name))
}

/// Whether two names have one loose form.
fn is_loosely(other: &str, name: &str) -> bool
    ensures { result ≡ bytes_eq (forms.loose other.now) (forms.loose name.now) }
{
    have_one_loose_form(other.as_bytes(), name.as_bytes())
}

/// For each run a row under each name of its value.
fn rows_of_runs(alloc: Global, runs: &[u32], values: &[&str]) -> Result<Vec<PropRow>, AllocError>
    requires { IsPartition runs.now }
    ensures { IfOk result (λ rows.
        AreRowsOf runs.now (map (λ names. names.now) values.now) rows.items) }
{
    let mut rows = Vec::new(alloc);
    let mut low = 0;
    for run in runs {
        let end = run / VALUES;
        let range = CodeRange { low, high: end - 1 };
        push_names(&mut rows, range, names_at(values, run % VALUES))?;
        low = end;
    }
    Ok(rows)
}

/// The names of the value with this number, and none where there is no such value.
fn names_at<'a>(values: &[&'a str], number: u32) -> &'a str
    ensures { result.now ≡ slice_index_or (map (λ names. names.now) values.now) number [] }
{
    if (number as usize) < values.len() {
        return values[number as usize];
    }
    ""
}

/// Adds a row with this range under each of the names, which spaces part.
fn push_names(rows: &mut Vec<PropRow>, range: CodeRange, names: &str) -> Result<(), AllocError>
    requires { IsRange range }
    ensures { OnOk result
        (rows.new.items ≡ rows.old.items ++ rows_under_names range (names_in names.now)) }
{
    let alloc = *rows.allocator();
    for name in names.split(' ') {
        let value = loose(alloc, name.as_bytes())?;
        rows.push(PropRow { value, range })?;
    }
    Ok(())
}
