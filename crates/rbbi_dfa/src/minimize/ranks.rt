//! The status lists of an automaton in order, each once.
ghost use Rattle.std.specs.Prelude.{◌≡◌, ◌<◌, [], length, map, slice_index_or, IfOk};
ghost use Rattle.std.specs.List.{Contains};
ghost use Rattle.rbbi_dfa.specs.inner.Ranks.{AreOrderedLists, AreSorted, AreRanks, AreRanked};

use std::alloc::{AllocError, Global};

/// The lists in order, compared number by number, a prefix before what it begins, and each once.
fn sorted_lists(alloc: Global, lists: &[Vec<u32>]) -> Result<Vec<&[u32]>, AllocError>
    ensures { IfOk result (λ sorted. AreSorted (map (λ statuses. statuses.items) lists.now)
        (map (λ statuses. statuses.now) sorted.items)) }
{
    let mut sorted = Vec::with_capacity(alloc, lists.len())?;
    for list in lists {
        sorted.push(list.as_slice())?;
    }
    sorted.sort_unstable();
    sorted.dedup();
    Ok(sorted)
}

/// The place of each list among the sorted ones.
fn places(alloc: Global, lists: &[Vec<u32>], sorted: &[&[u32]]) -> Result<Vec<usize>, AllocError>
    requires { AreSorted
        (map (λ statuses. statuses.items) lists.now) (map (λ statuses. statuses.now) sorted.now) }
    ensures { IfOk result (λ ranks. AreRanks (map (λ statuses. statuses.items) lists.now)
        (map (λ statuses. statuses.now) sorted.now) ranks.items) }
{
    let mut ranks = Vec::with_capacity(alloc, lists.len())?;
    for list in lists {
        ranks.push(place_of(sorted, list.as_slice()))?;
    }
    Ok(ranks)
}

/// The place of a list among sorted ones that hold it.
fn place_of(sorted: &[&[u32]], statuses: &[u32]) -> usize
    requires sorted { AreOrderedLists (map (λ statuses. statuses.now) sorted.now) }
    requires held { Contains (map (λ statuses. statuses.now) sorted.now) statuses.now }
    ensures place { result < length sorted.now }
    ensures list { slice_index_or (map (λ statuses. statuses.now) sorted.now) result [] ≡
        statuses.now }
{
    match sorted.binary_search(&statuses) {
        Ok(place) => place,
        Err(_) => 0,
    }
}

/// The status lists of an automaton in order, and the place of each among them.
#[derive(Drop)]
pub(crate) struct Ranks<'a> {
    /// The lists in order, each once.
    pub sorted: Vec<&'a [u32]>,
    /// For each list of the automaton, its place among the sorted ones.
    pub places: Vec<usize>,
}

/// Sorts the status lists of an automaton.
pub(crate) fn rank_lists(alloc: Global, lists: &[Vec<u32>]) -> Result<Ranks<'_>, AllocError>
    ensures { IfOk result (λ ranks. AreRanked (map (λ statuses. statuses.items) lists.now)
        (map (λ statuses. statuses.now) ranks.sorted.items) ranks.places.items) }
{
    let sorted = sorted_lists(alloc, lists)?;
    let places = places(alloc, lists, &sorted)?;
    Ok(Ranks { sorted, places })
}
