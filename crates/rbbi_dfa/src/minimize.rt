//! From an automaton to the classes of rows that can't be distinguished.
ghost use Rattle.std.specs.Prelude.{◌≡◌, ◌≢◌, ℕ, ◌+◌, ◌<◌, List, length, slice_index, IfOk, OnOk};
ghost use Rattle.std.specs.Prelude.{MatchOption};
ghost use Rattle.rbbi_model.specs.Tables.{step};
ghost use Rattle.rbbi_dfa.specs.inner.Automata.{IsDetermined};
ghost use Rattle.rbbi_dfa.specs.inner.Partitions.{IsPartition, IsMinimized, NeedsRows};
ghost use Rattle.rbbi_dfa.specs.inner.Ranks.{AreRanked};

mod grouped;
mod inverse;
mod lists;
mod merge;
mod partition;
mod ranks;
mod refine;
mod round;
mod tally;
mod work;

use crate::automaton::Automaton;
pub(crate) use merge::merge;
pub(crate) use partition::{MOST_ROWS, Partition};
pub(crate) use ranks::{Ranks, rank_lists};
use refine::{refine, side_of};
use round::disagreement;
use std::alloc::{AllocError, Global};

/// The partition whose classes are the rows of the least table, or None exactly if these are too
/// many. The places are those of the status lists in order.
pub(crate) fn minimize(
    alloc: Global,
    automaton: &Automaton,
    places: &[usize],
) -> Result<Option<Partition>, AllocError>
    requires determined { IsDetermined automaton.now }
    requires places { (sorted : List (List ℕ)) × AreRanked automaton.now.lists sorted places.now }
    ensures { IfOk result (λ found. MatchOption found (NeedsRows automaton.now 4095)
        (λ partition. IsMinimized automaton.now partition.classes.items partition.firsts.items)) }
{
    let mut partition = Partition::by_marks(alloc, automaton, places)?;
    if partition.firsts.len() <= MOST_ROWS {
        refine(alloc, automaton, &mut partition)?;
    }
    'rounds: while partition.firsts.len() <= MOST_ROWS {
        match disagreement(automaton, &partition) {
            None => return Ok(Some(partition)),
            Some((row, category)) => split_off(alloc, automaton, &mut partition, row, category)?,
        }
    }
    Ok(None)
}

/// Splits the class of a row that leads by the category elsewhere than its class's first row does.
fn split_off(
    alloc: Global,
    automaton: &Automaton,
    partition: &mut Partition,
    row: u16,
    category: u16,
) -> Result<(), AllocError>
    requires determined { IsDetermined automaton.now }
    requires partition { IsPartition automaton.now partition.old.classes.items
        partition.old.firsts.items }
    requires room { length partition.old.firsts.items < 4096 }
    requires row { row < length automaton.now.rows }
    requires category { category < automaton.now.categories }
    requires differs { slice_index partition.old.classes.items (step automaton.now row category)
        ≢ slice_index partition.old.classes.items (step automaton.now (slice_index
        partition.old.firsts.items (slice_index partition.old.classes.items row)) category) }
    ensures partition { IsPartition automaton.now partition.new.classes.items
        partition.new.firsts.items }
    ensures grows { OnOk result (length partition.new.firsts.items ≡ length
        partition.old.firsts.items + 1) }
{
    let class = partition.classes[row as usize];
    let target = partition.classes[automaton.next(row, category) as usize];
    let inside = side_of(alloc, &partition.classes, target)?;
    partition.split(alloc, automaton, class, category, &inside)?;
    Ok(())
}
