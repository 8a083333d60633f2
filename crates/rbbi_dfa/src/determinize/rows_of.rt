//! The rows and lists of positions, taken from their marks.
ghost use Rattle.std.specs.Prelude.{◌≡◌, ◌<◌, ◌≤◌, ℕ, length, IfOk};
ghost use Rattle.rbbi_positions.specs.PositionMarks.{followers_in, readers_in};
ghost use Rattle.rbbi_dfa.specs.inner.MarkedRows.{mark_in, begins_chained, HasOwner, AreMarkedIn};
ghost use Rattle.rbbi_dfa.specs.inner.MarkedRows.{AreRowsIn, IsChainedRow, AreReadable, AreRowsOf};
ghost use Rattle.rbbi_bits.specs.NumberedRows.{items_of};
ghost use Rattle.std.specs.List.{AllPairs};
ghost use Rattle.std.specs.List.Sorted.{IsPermutation};

use crate::determinize::position_rows::{Mark, Rows};
use crate::determinize::spanned::SpannedRow;
use rbbi_bits::{has, insert};
use rbbi_positions::Positions;
use std::alloc::{AllocError, Global};

/// What positions are marked with in a list.
#[derive(Clone, Copy)]
pub(crate) enum ListKind {
    /// The last ones with the numbers of their look-ahead rules.
    Completed,
    /// The last ones of fronts with the numbers of their look-ahead rules.
    Fronts,
    /// The last ones with the status numbers of their rules.
    Tags,
}

/// What the position is marked with in such a list.
fn mark_of(positions: &Positions, kind: ListKind, position: u32) -> Option<u32>
    requires position { position < positions.now.leaves }
    requires owner { HasOwner positions.now position }
    ensures { result ≡ mark_in positions.now kind position }
{
    let is_marked = match kind {
        ListKind::Completed | ListKind::Tags => has(positions.lasts(), position as usize),
        ListKind::Fronts => has(positions.front_lasts(), position as usize),
    };
    if !is_marked {
        return None;
    }
    let rule = positions.rule(position);
    match kind {
        ListKind::Completed | ListKind::Fronts => positions.slash(rule),
        ListKind::Tags => positions.tag(rule),
    }
}

/// The list of the positions that are marked so, with their marks.
fn list_of(alloc: Global, positions: &Positions, kind: ListKind) -> Result<Vec<Mark>, AllocError>
    requires { (position : ℕ) → position < positions.now.leaves → HasOwner positions.now position }
    ensures { IfOk result (λ list. AreMarkedIn positions.now kind list.items) }
{
    let mut list: Vec<Mark> = Vec::new(alloc);
    for position in 0..positions.leaves() {
        match mark_of(positions, kind, position) {
            Some(mark) => list.push(Mark { position, mark })?,
            None => {}
        }
    }
    Ok(list)
}

/// Whether some list of a rule that may be chained into begins with the position.
fn is_chained(positions: &Positions, position: u32) -> bool
    requires position { position < positions.now.leaves }
    requires owner { HasOwner positions.now position }
    ensures { result ≡ begins_chained positions.now position }
{
    has(positions.firsts(), position as usize) && positions.chained_into(positions.rule(position))
}

/// The row of the first positions of the rules that may be chained into.
fn chained_row(alloc: Global, positions: &Positions) -> Result<Vec<u64>, AllocError>
    requires { (position : ℕ) → position < positions.now.leaves → HasOwner positions.now position }
    ensures wide { IfOk result (λ row. length row.items ≡ positions.now.words) }
    ensures holds { IfOk result (λ row. IsChainedRow positions.now row.items) }
{
    let mut row: Vec<u64> = vec![in alloc; 0; positions.words()]?;
    let words = row.as_mut_slice();
    for position in 0..positions.leaves() {
        if is_chained(positions, position) {
            insert(words, position as usize);
        }
    }
    Ok(row)
}

/// For each position the row of those that follow it.
fn follow_rows(alloc: Global, positions: &Positions) -> Result<Vec<SpannedRow>, AllocError>
    ensures { IfOk result (λ rows. AreRowsIn positions.now.words positions.now.leaves
        (followers_in positions.now) rows.items) }
{
    let mut rows = Vec::new(alloc);
    for before in 0..positions.leaves() {
        let words = positions.followers(before).to_vec(alloc)?;
        rows.push(SpannedRow::new(words))?;
    }
    Ok(rows)
}

/// For each category the row of the positions that read it.
fn read_rows(alloc: Global, positions: &Positions, count: u16) -> Result<Vec<Vec<u64>>, AllocError>
    requires { positions.now.categories ≡ count }
    ensures { IfOk result (λ rows. AreRowsIn positions.now.words count
        (readers_in positions.now) (items_of rows.items)) }
{
    let mut rows: Vec<Vec<u64>> = Vec::new(alloc);
    for category in 0..count {
        let words = positions.readers(category).to_vec(alloc)?;
        rows.push(words)?;
    }
    Ok(rows)
}

/// The rows and lists of the positions, for so many categories and look-ahead rules.
pub(crate) fn rows_of(
    alloc: Global,
    positions: &Positions,
    categories: u16,
    slashes: u16,
) -> Result<Rows, AllocError>
    requires some_categories { 1 ≤ categories }
    requires few_categories { categories ≤ 1000 }
    requires readable { AreReadable positions.now categories slashes }
    ensures { IfOk result (λ rows. AreRowsOf positions.now categories slashes rows) }
{
    let first = positions.firsts().to_vec(alloc)?;
    let chained = chained_row(alloc, positions)?;
    let last = positions.lasts().to_vec(alloc)?;
    let follow = follow_rows(alloc, positions)?;
    let reads = read_rows(alloc, positions, categories)?;
    let completed = list_of(alloc, positions, ListKind::Completed)?;
    let fronts = list_of(alloc, positions, ListKind::Fronts)?;
    let tags = sorted(list_of(alloc, positions, ListKind::Tags)?);
    let width = positions.words();
    Ok(Rows {
        categories,
        slashes,
        width,
        first,
        chained,
        last,
        follow,
        reads,
        completed,
        fronts,
        tags,
    })
}

/// The marks in an order in which they don't fall.
fn sorted(mut list: Vec<Mark>) -> Vec<Mark>
    ensures same { IsPermutation list.items result.items }
    ensures order { AllPairs (λ these those. these.mark ≤ those.mark) result.items }
{
    list.sort_unstable_by_key(|mark| mark.mark);
    list
}
