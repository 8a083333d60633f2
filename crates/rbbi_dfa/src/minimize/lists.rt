//! The status lists of the classes, in order and numbered.
ghost use Rattle.std.specs.Prelude.{◌≡◌, ℕ, ◌<◌, length, map, slice_index, IfOk};
ghost use Rattle.rbbi_dfa.specs.inner.Automata.{IsDetermined};
ghost use Rattle.rbbi_dfa.specs.inner.Ranks.{AreOrderedLists};
ghost use Rattle.rbbi_dfa.specs.inner.Numbers.{ArePlacesOf, AreUsed, AreNumbered};

use crate::automaton::Automaton;
use std::alloc::{AllocError, Global};

/// For each class, the place of its status list among the sorted ones.
pub(crate) fn places_of_classes(
    alloc: Global,
    automaton: &Automaton,
    places: &[usize],
    firsts: &[u16],
) -> Result<Vec<usize>, AllocError>
    requires determined { IsDetermined automaton.now }
    requires places { length places.now ≡ length automaton.now.lists }
    requires firsts { (class : ℕ) → class < length firsts.now →
        slice_index firsts.now class < length automaton.now.rows }
    ensures { IfOk result (λ found. ArePlacesOf automaton.now places.now firsts.now found.items) }
{
    let mut found = Vec::with_capacity(alloc, firsts.len())?;
    for first in firsts {
        let head = automaton.head(*first);
        found.push(places[head.list as usize])?;
    }
    Ok(found)
}

/// For each of so many places, whether it is some class's.
pub(crate) fn used_places(
    alloc: Global,
    count: usize,
    class_places: &[usize],
) -> Result<Vec<bool>, AllocError>
    requires { (class : ℕ) → class < length class_places.now →
        slice_index class_places.now class < count }
    ensures used { IfOk result (λ used. AreUsed class_places.now used.items) }
    ensures many { IfOk result (λ used. length used.items ≡ count) }
{
    let mut used = vec![in alloc; false; count]?;
    for place in class_places {
        used[*place] = true;
    }
    Ok(used)
}

/// Copies the used lists in order, and numbers them.
pub(crate) fn number_lists(
    alloc: Global,
    sorted: &[&[u32]],
    used: &[bool],
) -> Result<(Vec<usize>, Vec<Vec<u32>>), AllocError>
    requires rising { AreOrderedLists (map (λ statuses. statuses.now) sorted.now) }
    requires used { length used.now ≡ length sorted.now }
    ensures { IfOk result (λ made. AreNumbered used.now (map (λ statuses. statuses.now) sorted.now)
        (length sorted.now) made.0.items (map (λ statuses. statuses.items) made.1.items)) }
{
    let mut numbers = Vec::with_capacity(alloc, sorted.len())?;
    let mut lists = Vec::new(alloc);
    for place in 0..sorted.len() {
        numbers.push(lists.len())?;
        if !used[place] {
            continue;
        }
        lists.push(Vec::from_slice(alloc, sorted[place])?)?;
    }
    Ok((numbers, lists))
}
