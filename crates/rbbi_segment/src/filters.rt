//! The filter that a request names.
ghost use Rattle.std.specs.Prelude.{◌≡◌, ◌≤◌, ℕ, List, length, IfOk};
ghost use Rattle.rbbi_text.specs.Bytes.{most_bytes};
ghost use Rattle.rbbi_model.specs.Words.{IsText};
ghost use Rattle.rbbi_segment.specs.Contents.{IsRead};
ghost use Rattle.rbbi_segment.specs.Filters.{IsFilterOf, IsListed, IsPaired, searched};

use crate::abbreviations::{Language, abbreviations};
use crate::colors::Colors;
use crate::failure::{Failure, Status};
use crate::faults::{Place, fault_of};
use crate::options::Filtering;
use crate::reading::{FILTER_LIMIT, read};
use rbbi_filter::{Abbreviations, Filter, Tailoring};
use rbbi_io::Files;
use rbbi_text::{LinesErr, MOST_BYTES, Steps};
use std::alloc::Global;
use std::io::Read;
use std::sync::ledger::Ledger;

/// What an error of a filter file comes to.
fn refused(alloc: Global, name: &str, error: LinesErr, colors: Colors) -> Failure {
    let (label, place) = match error {
        LinesErr::NotUtf8(at) => ("NotUtf8", Place::Byte(at.into())),
        LinesErr::BadLine(line) => ("BadLine", Place::Line(line)),
        LinesErr::Memory => return Failure::Memory,
    };
    fault_of(alloc, Status::IsRefused, name, label, place, colors)
}

/// The filter of a file of abbreviations.
fn suppressing(
    alloc: Global,
    name: &str,
    bytes: &[u8],
    colors: Colors,
) -> Result<Option<Filter>, Failure>
    ensures { IfOk result (IsListed bytes.now) }
{
    if bytes.len() > MOST_BYTES {
        let place = Place::Whole;
        return Err(fault_of(alloc, Status::IsRefused, name, "TooLong", place, colors));
    }
    match Abbreviations::read(alloc, bytes) {
        Ok(list) => Ok(Some(Filter::Suppressing(list))),
        Err(error) => Err(refused(alloc, name, error, colors)),
    }
}

/// The filter of a file of pairs.
fn turning(
    alloc: Global,
    name: &str,
    bytes: &[u8],
    colors: Colors,
) -> Result<Option<Filter>, Failure>
    requires { length bytes.now ≤ most_bytes }
    ensures { IfOk result (IsPaired bytes.now) }
{
    match Tailoring::read(alloc, bytes) {
        Ok(pairs) => Ok(Some(Filter::Turning(pairs))),
        Err(error) => Err(refused(alloc, name, error, colors)),
    }
}

/// The filter of the abbreviations of a language.
fn of_language(alloc: Global, language: Language, colors: Colors) -> Result<Option<Filter>, Failure>
    ensures { IfOk result (λ filter. (bytes : List ℕ) × IsListed bytes filter) }
{
    let bytes = abbreviations(alloc, language)?;
    suppressing(alloc, "--suppress", &bytes, colors)
}

/// The filter of the file of abbreviations of this name. What the files hold stays.
fn read_suppressing<F: Files, R: Read, L: Ledger>(
    alloc: Global,
    name: &str,
    colors: Colors,
    files: &mut F,
    input: &mut R,
    steps: &mut Steps<L>,
) -> Result<Option<Filter>, Failure>
    ensures filter { IfOk result (λ filter. (bytes : List ℕ)
        × IsRead (F.contents files.old) (R.remaining input.old) name.now bytes
        (R.remaining input.new) × IsListed bytes filter) }
    ensures same { F.contents files.new ≡ F.contents files.old }
{
    let raw = read(alloc, name, FILTER_LIMIT, colors, files, input)?;
    let bytes = raw.bytes(steps);
    suppressing(alloc, name, bytes, colors)
}

/// The filter of the file of pairs of this name. What the files hold stays.
fn read_turning<F: Files, R: Read, L: Ledger>(
    alloc: Global,
    name: &str,
    colors: Colors,
    files: &mut F,
    input: &mut R,
    steps: &mut Steps<L>,
) -> Result<Option<Filter>, Failure>
    ensures filter { IfOk result (λ filter. (bytes : List ℕ)
        × IsRead (F.contents files.old) (R.remaining input.old) name.now bytes
        (R.remaining input.new) × IsPaired bytes filter) }
    ensures same { F.contents files.new ≡ F.contents files.old }
{
    let raw = read(alloc, name, FILTER_LIMIT, colors, files, input)?;
    let bytes = raw.bytes(steps);
    turning(alloc, name, bytes, colors)
}

/// The filter that is named, if one is. What the files hold stays.
pub(crate) fn filter_of<F: Files, R: Read, L: Ledger>(
    alloc: Global,
    filtering: Filtering<'_>,
    colors: Colors,
    files: &mut F,
    input: &mut R,
    steps: &mut Steps<L>,
) -> Result<Option<Filter>, Failure>
    ensures filter { IfOk result (λ filter. IsFilterOf (F.contents files.old)
        (R.remaining input.old) filtering.entry filter (R.remaining input.new)) }
    ensures same { F.contents files.new ≡ F.contents files.old }
{
    match filtering {
        Filtering::Nothing => Ok(None),
        Filtering::Language(language) => of_language(alloc, language, colors),
        Filtering::Abbreviations(name) => {
            read_suppressing(alloc, name, colors, files, input, steps)
        }
        Filtering::Pairs(name) => read_turning(alloc, name, colors, files, input, steps),
    }
}

/// That what is searched in place of a text is a text. It is there for proofs, and does nothing
/// when it runs.
pub(crate) fn searches_texts(filter: &Option<Filter>)
    ensures { (x : List ℕ) → IsText x → IsText (searched filter.now x) }
{
    if let Some(filter) = filter {
        filter.searches_texts();
    }
}
