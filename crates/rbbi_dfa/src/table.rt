//! The table of an automaton.
ghost use Rattle.std.specs.Prelude.{◌≡◌, ◌*◌, length, map, IfOk};
ghost use Rattle.rbbi_model.specs.ValidTables.{AreValidRanges, AreValidRows};
ghost use Rattle.rbbi_table.specs.Parts.{table_of};
ghost use Rattle.rbbi_table.specs.Pairs.{ArePairsOf};
ghost use Rattle.rbbi_dfa.specs.inner.Automata.{IsDetermined};
ghost use Rattle.rbbi_dfa.specs.inner.LeastTables.{GivesLeast, GivesTable, finished};

use crate::automaton::Automaton;
use crate::error::BuildErr;
use crate::minimize::{merge, minimize, rank_lists};
use rbbi_table::{CellList, NumberList, NumberLists, Parts, RangeList, RowList, Table, safe_pairs};
use std::alloc::{AllocError, Global};

/// The least table with the marks of the automaton, with these ranges and all safe pairs.
///
/// Refuses `TooManyRows` exactly where more than 4,095 rows are needed, rows 0 and 1 counted.
pub(crate) fn least_table(
    alloc: Global,
    automaton: &Automaton,
    ranges: RangeList,
) -> Result<Table, BuildErr>
    requires determined { IsDetermined automaton.now }
    requires ranges { AreValidRanges automaton.now.categories ranges }
    ensures { GivesTable automaton.now ranges result }
{
    let least = least(alloc, automaton)?;
    let parts = parts_of(alloc, least, ranges)?;
    Ok(Table::from_valid(alloc, parts)?)
}

/// The least automaton with the same marks along all categories, with at most 4,095 rows. Its
/// status lists are in order, and each but the first is some row's.
///
/// Refuses `TooManyRows` exactly where more rows are needed, rows 0 and 1 counted.
fn least(alloc: Global, automaton: &Automaton) -> Result<Automaton, BuildErr>
    requires { IsDetermined automaton.now }
    ensures { GivesLeast automaton.now result }
{
    let ranks = rank_lists(alloc, &automaton.lists)?;
    match minimize(alloc, automaton, &ranks.places)? {
        None => Err(BuildErr::TooManyRows),
        Some(partition) => Ok(merge(alloc, automaton, &ranks, &partition)?),
    }
}

/// The parts of a table: those of the least automaton, these ranges, and the bits of all safe
/// pairs.
fn parts_of(alloc: Global, least: Automaton, ranges: RangeList) -> Result<Parts, AllocError>
    requires cells { length least.cells ≡ length least.rows * least.categories }
    requires rows { AreValidRows least }
    ensures parts { IfOk result (λ parts. table_of parts ≡ finished least ranges parts.safe) }
    ensures safe { IfOk result (λ parts. ArePairsOf (table_of parts)) }
{
    let Automaton {
        categories,
        slashes,
        heads,
        lists,
        cells,
    } = least;
    let safe = safe_pairs(alloc, categories, &heads, &cells)?;
    let lists = number_lists_of(alloc, lists)?;
    Ok(Parts {
        categories,
        slashes,
        ranges,
        lists,
        rows: RowList::from_vec(heads),
        cells: CellList::from_vec(cells),
        safe,
    })
}

/// The same status lists, as a table's parts hold them.
fn number_lists_of(alloc: Global, lists: Vec<Vec<u32>>) -> Result<NumberLists, AllocError>
    ensures { IfOk result (λ made. made ≡ map (λ statuses. statuses.items) lists.items) }
{
    let mut made = NumberLists::new(alloc);
    for list in lists {
        made.push(NumberList::from_vec(list))?;
    }
    Ok(made)
}
