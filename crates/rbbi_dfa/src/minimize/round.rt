//! The last round: whether rows of one class lead on alike.
ghost use Rattle.std.specs.Prelude.{◌≡◌, ◌≢◌, ℕ, ◌<◌, length, slice_index, MatchOption};
ghost use Rattle.rbbi_model.specs.Tables.{step};
ghost use Rattle.rbbi_dfa.specs.inner.Automata.{IsDetermined};
ghost use Rattle.rbbi_dfa.specs.inner.Partitions.{IsPartition, IsStable};

use crate::automaton::Automaton;
use crate::minimize::Partition;

/// A category by which two rows lead into different classes.
fn difference(automaton: &Automaton, partition: &Partition, this: u16, that: u16) -> Option<u16>
    requires determined { IsDetermined automaton.now }
    requires partition { IsPartition automaton.now partition.now.classes.items
        partition.now.firsts.items }
    requires this { this < length automaton.now.rows }
    requires that { that < length automaton.now.rows }
    ensures { MatchOption result
        ((category : ℕ) → category < automaton.now.categories
        → slice_index partition.now.classes.items (step automaton.now this category)
        ≡ slice_index partition.now.classes.items (step automaton.now that category))
        (λ category. (category < automaton.now.categories)
        × (slice_index partition.now.classes.items (step automaton.now this category)
        ≢ slice_index partition.now.classes.items (step automaton.now that category))) }
{
    for category in 0..automaton.categories {
        let class = partition.classes[automaton.next(this, category) as usize];
        if class != partition.classes[automaton.next(that, category) as usize] {
            return Some(category);
        }
    }
    None
}

/// A row and a category by which it leads into another class than its class's first row does.
pub(crate) fn disagreement(automaton: &Automaton, partition: &Partition) -> Option<(u16, u16)>
    requires determined { IsDetermined automaton.now }
    requires partition { IsPartition automaton.now partition.now.classes.items
        partition.now.firsts.items }
    ensures { MatchOption result
        (IsStable automaton.now partition.now.classes.items partition.now.firsts.items)
        (λ found. (found.0 < length automaton.now.rows)
        × (found.1 < automaton.now.categories)
        × (slice_index partition.now.classes.items (step automaton.now found.0 found.1)
        ≢ slice_index partition.now.classes.items (step automaton.now
        (slice_index partition.now.firsts.items (slice_index partition.now.classes.items found.0))
        found.1))) }
{
    for row in 0..automaton.rows() {
        let first = partition.firsts[partition.classes[row as usize] as usize];
        if let Some(category) = difference(automaton, partition, row, first) {
            return Some((row, category));
        }
    }
    None
}
