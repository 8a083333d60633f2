//! The automaton whose rows are the classes of another's.
ghost use Rattle.std.specs.Prelude.{◌≡◌, ℕ, ◌<◌, ◌≤◌, ◌*◌, length, map, slice_index, IfOk};
ghost use Rattle.rbbi_dfa.specs.inner.Automata.{IsDetermined};
ghost use Rattle.rbbi_dfa.specs.inner.Partitions.{IsMinimized, IsMerged};
ghost use Rattle.rbbi_dfa.specs.inner.Ranks.{AreRanked};
ghost use Rattle.rbbi_dfa.specs.inner.Numbers.{HaveCells, HaveHeads};

use crate::automaton::{Automaton, Head};
use crate::minimize::lists::{number_lists, places_of_classes, used_places};
use crate::minimize::{Partition, Ranks};
use std::alloc::{AllocError, Global};

/// The next classes, class after class: those into which the first rows lead.
fn merged_cells(
    alloc: Global,
    automaton: &Automaton,
    partition: &Partition,
) -> Result<Vec<u16>, AllocError>
    requires determined { IsDetermined automaton.now }
    requires minimized { IsMinimized automaton.now partition.now.classes.items
        partition.now.firsts.items }
    ensures { IfOk result (λ cells. HaveCells automaton.now partition.now.classes.items
        partition.now.firsts.items
        (length partition.now.firsts.items * automaton.now.categories) cells.items) }
{
    let width = automaton.categories as usize;
    let mut cells = Vec::with_capacity(alloc, partition.firsts.len() * width)?;
    for place in 0..partition.firsts.len() * width {
        let first = partition.firsts[place / width];
        let next = automaton.next(first, (place % width) as u16);
        cells.push(partition.classes[next as usize])?;
    }
    Ok(cells)
}

/// The heads of the first rows, with the numbers that their lists have now.
fn merged_heads(
    alloc: Global,
    automaton: &Automaton,
    partition: &Partition,
    class_places: &[usize],
    numbers: &[usize],
) -> Result<Vec<Head>, AllocError>
    requires minimized { IsMinimized automaton.now partition.now.classes.items
        partition.now.firsts.items }
    requires places { length class_places.now ≡ length partition.now.firsts.items }
    requires within { (class : ℕ) → class < length class_places.now →
        slice_index class_places.now class < length numbers.now }
    requires small { (class : ℕ) → class < length class_places.now →
        slice_index numbers.now (slice_index class_places.now class) ≤ 65535 }
    ensures { IfOk result (λ heads. HaveHeads automaton.now partition.now.firsts.items
        class_places.now numbers.now (length partition.now.firsts.items) heads.items) }
{
    let mut heads = Vec::with_capacity(alloc, partition.firsts.len())?;
    for class in 0..partition.firsts.len() {
        let head = automaton.head(partition.firsts[class]);
        heads.push(Head {
            accept: head.accept,
            fronts: head.fronts,
            list: numbers[class_places[class]] as u16,
        })?;
    }
    Ok(heads)
}

/// Merges the rows of each class into one, which has the marks of its first row and leads to the
/// classes of that row's next rows. The status lists are in order, and each is some row's.
pub(crate) fn merge(
    alloc: Global,
    automaton: &Automaton,
    ranks: &Ranks<'_>,
    partition: &Partition,
) -> Result<Automaton, AllocError>
    requires determined { IsDetermined automaton.now }
    requires ranks { AreRanked automaton.now.lists
        (map (λ statuses. statuses.now) ranks.now.sorted.items) ranks.now.places.items }
    requires minimized { IsMinimized automaton.now partition.now.classes.items
        partition.now.firsts.items }
    ensures { IfOk result (λ merged.
        IsMerged automaton.now partition.now.classes.items partition.now.firsts.items merged) }
{
    let class_places = places_of_classes(alloc, automaton, &ranks.places, &partition.firsts)?;
    let used = used_places(alloc, ranks.sorted.len(), &class_places)?;
    let (numbers, lists) = number_lists(alloc, &ranks.sorted, &used)?;
    let heads = merged_heads(alloc, automaton, partition, &class_places, &numbers)?;
    let cells = merged_cells(alloc, automaton, partition)?;
    Ok(Automaton {
        categories: automaton.categories,
        slashes: automaton.slashes,
        heads,
        lists,
        cells,
    })
}
