//! From positions to a determinised automaton: each row is the set of the positions by which the
//! last character of a word can be read (subset construction; Rabin and Scott 1959).
ghost use Rattle.std.specs.Prelude.{◌≡◌, ◌≢◌, ◌+◌, ◌≤◌, ◌<◌, ℕ, List, [], length, IfOk, OnOk};
ghost use Rattle.rbbi_dfa.specs.inner.Determinizing.{AreReachedSets, AreReachedCandidates, Begin};
ghost use Rattle.rbbi_dfa.specs.inner.Determinizing.{AddsCells, AddsZeros, AreCellsUpTo, AreMarked};
ghost use Rattle.rbbi_dfa.specs.inner.Determinizing.{IsLed};
ghost use Rattle.rbbi_dfa.specs.inner.LastWords.{AreKept};
ghost use Rattle.rbbi_dfa.specs.inner.Determinizing.{HasReachedSets, IsDeterminized};
ghost use Rattle.rbbi_bits.specs.NumberedRows.{items_of, listed_row, IsUnlisted, KeepsOrAdds};
ghost use Rattle.rbbi_model.specs.Rules.{Rule};
ghost use Rattle.rbbi_model.specs.Tables.{CategoryRange};
ghost use Rattle.rbbi_model.specs.Marks.{HasSameMarks};
ghost use Rattle.rbbi_model.specs.LeafSets.{HasLeafSets};
ghost use Rattle.rbbi_dfa.specs.inner.Automata.{IsDetermined, with_ranges};
ghost use Rattle.rbbi_dfa.specs.inner.MarkedRows.{AreReadable, AreOf};

mod last_words;
mod marks;
mod position_rows;
mod rows_of;
mod spanned;
mod step;

use crate::automaton::{Automaton, Head};
use crate::error::BuildErr;
use last_words::LastWords;
use position_rows::Rows;
use rbbi_bits::{NumberedRows, span_of};
use rbbi_positions::Positions;
use rows_of::rows_of;
use std::alloc::{AllocError, Global};

/// The number of the set, which is added if it isn't there yet.
fn number_of(alloc: Global, sets: &mut NumberedRows, set: &[u64]) -> Result<usize, BuildErr>
    ensures number { IfOk result (λ i. (i < length sets.new) × (listed_row sets.new i ≡ set.now)) }
    ensures few { IfOk result (λ i. i < 16384) }
    ensures sets { KeepsOrAdds sets.old set.now sets.new }
    ensures alone { (result ≢ Err BuildErr.TooManyRows) × (result ≢ Err BuildErr.TooManyStatuses) }
    ensures refused { result ≡ Err BuildErr.TooManySets →
        (length sets.new ≡ 16384) × IsUnlisted sets.new set.now }
{
    match sets.number_of(alloc, set)? {
        Some(number) => Ok(number),
        None => Err(BuildErr::TooManySets),
    }
}

/// Adds the cells of a row with these candidates, and the sets that are new. `next` is scratch.
fn lead_on(
    alloc: Global,
    rows: &Rows,
    candidates: &[u64],
    sets: &mut NumberedRows,
    next: &mut [u64],
    cells: &mut Vec<u16>,
) -> Result<(), BuildErr>
    requires sets { AreReachedSets rows.now sets.old }
    requires candidates { AreReachedCandidates rows.now candidates.now }
    requires wide { length candidates.now ≡ rows.now.width }
    requires next { length next.old ≡ rows.now.width }
    ensures reached { OnOk result (AreReachedSets rows.now sets.new) }
    ensures kept { OnOk result (Begin sets.old sets.new) }
    ensures cells { OnOk result (AddsCells rows.now sets.new candidates.now
        cells.old.items cells.new.items rows.now.categories) }
    ensures alone { (result ≢ Err BuildErr.TooManyRows) × (result ≢ Err BuildErr.TooManyStatuses) }
    ensures refused { result ≡ Err BuildErr.TooManySets → HasReachedSets rows.now 16385 }
{
    let span = span_of(candidates);
    for category in 0..rows.categories as usize {
        let cell = if step::is_read(rows, candidates, span, category) {
            step::step(rows, candidates, category, next);
            number_of(alloc, sets, next)? + 2
        } else {
            0
        };
        cells.push(cell as u16)?;
    }
    Ok(())
}

/// Adds the cells of a row that leads to row 0 only.
fn lead_nowhere(rows: &Rows, cells: &mut Vec<u16>) -> Result<(), AllocError>
    ensures { OnOk result (AddsZeros cells.old.items cells.new.items rows.now.categories) }
{
    for _category in 0..rows.categories {
        cells.push(0)?;
    }
    Ok(())
}

/// Adds the cells of the row of a set, with the sets that are found on the way. `candidates` and
/// `next` are scratch.
fn lead_set(
    alloc: Global,
    rows: &Rows,
    sets: &mut NumberedRows,
    i: usize,
    candidates: &mut [u64],
    next: &mut [u64],
    last: &mut LastWords,
    cells: &mut Vec<u16>,
) -> Result<(), BuildErr>
    requires short { i < length sets.old }
    requires led { IsLed rows.now sets.old cells.old.items candidates.old next.old i }
    requires kept { AreKept rows.now last.old.words.items last.old.unions.items }
    ensures led { OnOk result
        (IsLed rows.now sets.new cells.new.items candidates.new next.new (i + 1)) }
    ensures kept { OnOk result (AreKept rows.now last.new.words.items last.new.unions.items) }
    ensures alone { (result ≢ Err BuildErr.TooManyRows) × (result ≢ Err BuildErr.TooManyStatuses) }
    ensures refused { result ≡ Err BuildErr.TooManySets → HasReachedSets rows.now 16385 }
{
    let set = sets.get(i);
    if step::completes(rows, set) {
        lead_nowhere(rows, cells)?;
        return Ok(());
    }
    last.follow(alloc, rows, set, candidates)?;
    lead_on(alloc, rows, candidates, sets, next, cells)?;
    Ok(())
}

/// Adds to no cells those of rows 0 and 1 and of a row for each set, with the sets that are found
/// on the way.
fn lead_sets(
    alloc: Global,
    rows: &Rows,
    sets: &mut NumberedRows,
    candidates: &mut [u64],
    next: &mut [u64],
    last: &mut LastWords,
    cells: &mut Vec<u16>,
) -> Result<(), BuildErr>
    requires sets { sets.old ≡ [] }
    requires cells { cells.old.items ≡ [] }
    requires candidates { length candidates.old ≡ rows.now.width }
    requires next { length next.old ≡ rows.now.width }
    requires kept { AreKept rows.now last.old.words.items last.old.unions.items }
    ensures reached { OnOk result (AreReachedSets rows.now sets.new) }
    ensures cells { OnOk result
        (AreCellsUpTo rows.now sets.new cells.new.items (length sets.new)) }
    ensures alone { (result ≢ Err BuildErr.TooManyRows) × (result ≢ Err BuildErr.TooManyStatuses) }
    ensures refused { result ≡ Err BuildErr.TooManySets → HasReachedSets rows.now 16385 }
{
    lead_nowhere(rows, cells)?;
    lead_on(alloc, rows, &rows.first, sets, next, cells)?;
    let mut i = 0;
    while i < sets.len() {
        lead_set(alloc, rows, sets, i, candidates, next, last, cells)?;
        i += 1;
    }
    Ok(())
}

/// The cells of rows 0 and 1 and of a row for each set, with the sets that are found on the way.
fn lead_all(alloc: Global, rows: &Rows, sets: &mut NumberedRows) -> Result<Vec<u16>, BuildErr>
    requires { sets.old ≡ [] }
    ensures reached { OnOk result (AreReachedSets rows.now sets.new) }
    ensures cells { IfOk result (λ cells.
        AreCellsUpTo rows.now sets.new cells.items (length sets.new)) }
    ensures alone { (result ≢ Err BuildErr.TooManyRows) × (result ≢ Err BuildErr.TooManyStatuses) }
    ensures refused { result ≡ Err BuildErr.TooManySets → HasReachedSets rows.now 16385 }
{
    let mut candidate_row: Vec<u64> = vec![in alloc; 0; rows.width]?;
    let candidates = candidate_row.as_mut_slice();
    let mut next_row: Vec<u64> = vec![in alloc; 0; rows.width]?;
    let next = next_row.as_mut_slice();
    let mut last = LastWords::new(alloc, rows)?;
    let mut cells: Vec<u16> = Vec::new(alloc);
    lead_sets(alloc, rows, sets, candidates, next, &mut last, &mut cells)?;
    Ok(cells)
}

/// What is marked at rows 0 and 1, and at the row of each set.
fn mark_all(
    alloc: Global,
    rows: &Rows,
    sets: &NumberedRows,
) -> Result<(Vec<Head>, Vec<Vec<u32>>), AllocError>
    requires { AreReachedSets rows.now sets.now }
    ensures { IfOk result (λ marked.
        AreMarked rows.now sets.now marked.0.items (items_of marked.1.items) (length sets.now)) }
{
    let plain = Head {
        accept: 0,
        fronts: 0,
        list: 0,
    };
    let mut heads = vec![in alloc; plain, plain]?;
    let mut lists = vec![in alloc; vec![in alloc; 0]?]?;
    for i in 0..sets.len() {
        let set = sets.get(i);
        let accept = marks::accept(rows, set);
        let fronts = if accept < 2 {
            marks::fronts(rows, set)
        } else {
            0
        };
        heads.push(Head {
            accept,
            fronts,
            list: (i + 1) as u16,
        })?;
        lists.push(marks::statuses(alloc, rows, set)?)?;
    }
    Ok((heads, lists))
}

/// The determinised automaton of the positions.
///
/// Refuses `TooManySets` where more than 16,384 sets of positions that aren't empty are reached.
pub(crate) fn determinized(alloc: Global, rows: &Rows) -> Result<Automaton, BuildErr>
    ensures exact { IfOk result (λ automaton. (sets : List (List ℕ)) × (length sets ≤ 16384)
        × IsDeterminized rows.now sets automaton) }
    ensures alone { (result ≢ Err BuildErr.TooManyRows) × (result ≢ Err BuildErr.TooManyStatuses) }
    ensures refused { result ≡ Err BuildErr.TooManySets → HasReachedSets rows.now 16385 }
{
    let mut sets = NumberedRows::new(alloc)?;
    let cells = lead_all(alloc, rows, &mut sets)?;
    let (heads, lists) = mark_all(alloc, rows, &sets)?;
    Ok(Automaton {
        categories: rows.categories,
        slashes: rows.slashes,
        heads,
        lists,
        cells,
    })
}

/// The determinised automaton of the rules of these positions, and their refusal. Clauses hold for
/// any such list of rules.
pub(crate) fn automaton_of(
    alloc: Global,
    positions: &Positions,
    categories: u16,
    slashes: u16,
) -> Result<Automaton, BuildErr>
    requires some_categories { 1 ≤ categories }
    requires few_categories { categories ≤ 1000 }
    requires readable { AreReadable positions.now categories slashes }
    ensures categories { IfOk result (λ automaton. automaton.categories ≡ categories) }
    ensures marks { IfOk result (λ automaton. (rules : List Rule) (ranges : List CategoryRange) →
        AreOf rules categories slashes ranges positions.now →
        HasSameMarks (with_ranges automaton ranges) rules) }
    ensures determined { IfOk result (λ automaton. (rules : List Rule) (ranges : List CategoryRange)
        → AreOf rules categories slashes ranges positions.now → IsDetermined automaton) }
    ensures few { OnOk result ((rules : List Rule) (ranges : List CategoryRange) →
        AreOf rules categories slashes ranges positions.now → ¬ HasLeafSets rules 16385) }
    ensures alone { (result ≢ Err BuildErr.TooManyRows) × (result ≢ Err BuildErr.TooManyStatuses) }
    ensures too_many { result ≡ Err BuildErr.TooManySets →
        (rules : List Rule) (ranges : List CategoryRange) →
        AreOf rules categories slashes ranges positions.now → HasLeafSets rules 16385 }
{
    let rows = rows_of(alloc, positions, categories, slashes)?;
    determinized(alloc, &rows)
}
