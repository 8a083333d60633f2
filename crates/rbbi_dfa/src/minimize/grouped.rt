//! The first partition: rows with the same marks are of one class.
ghost use Rattle.std.specs.Prelude.{◌≡◌, ◌≢◌, ℕ, ◌<◌, ◌≤◌, ◌↔◌, List, IsTrue, IfOk, MatchOption};
ghost use Rattle.std.specs.Prelude.{length, slice_index};
ghost use Rattle.rbbi_model.specs.Marks.{marks_of};
ghost use Rattle.rbbi_dfa.specs.inner.Automata.{IsDetermined};
ghost use Rattle.rbbi_dfa.specs.inner.Partitions.{IsPartition};
ghost use Rattle.rbbi_dfa.specs.inner.Ranks.{AreRanked};

use crate::automaton::Automaton;
use crate::minimize::Partition;
use std::alloc::{AllocError, Global};

/// Whether two rows have the same marks. The places are those of the status lists in order.
fn have_same_marks(automaton: &Automaton, places: &[usize], this: u16, that: u16) -> bool
    requires determined { IsDetermined automaton.now }
    requires places { (sorted : List (List ℕ)) × AreRanked automaton.now.lists sorted places.now }
    requires this { this < length automaton.now.rows }
    requires that { that < length automaton.now.rows }
    ensures { IsTrue result ↔ (marks_of automaton.now this ≡ marks_of automaton.now that) }
{
    let these = automaton.head(this);
    let those = automaton.head(that);
    these.accept == those.accept
        && these.fronts == those.fronts
        && places[these.list as usize] == places[those.list as usize]
}

/// The class with the marks of the row, but for class 0, or None exactly if there is none.
fn class_with_marks(
    automaton: &Automaton,
    places: &[usize],
    firsts: &[u16],
    row: u16,
) -> Option<u16>
    requires determined { IsDetermined automaton.now }
    requires places { (sorted : List (List ℕ)) × AreRanked automaton.now.lists sorted places.now }
    requires firsts { (class : ℕ) → class < length firsts.now →
        slice_index firsts.now class < length automaton.now.rows }
    requires few { length firsts.now ≤ 65535 }
    requires row { row < length automaton.now.rows }
    ensures { MatchOption result
        ((class : ℕ) → 1 ≤ class → class < length firsts.now →
        marks_of automaton.now (slice_index firsts.now class) ≢ marks_of automaton.now row)
        (λ class. (1 ≤ class) × (class < length firsts.now)
        × (marks_of automaton.now (slice_index firsts.now class) ≡ marks_of automaton.now row)) }
{
    for class in 1..firsts.len() {
        if have_same_marks(automaton, places, firsts[class], row) {
            return Some(class as u16);
        }
    }
    None
}

impl Partition {
    /// Rows with the same marks are of one class, but for row 0, which is a class by itself.
    pub fn by_marks(
        alloc: Global,
        automaton: &Automaton,
        places: &[usize],
    ) -> Result<Partition, AllocError>
        requires determined { IsDetermined automaton.now }
        requires places { (sorted : List (List ℕ)) ×
            AreRanked automaton.now.lists sorted places.now }
        ensures { IfOk result (λ partition. IsPartition automaton.now partition.classes.items
            partition.firsts.items) }
    {
        let mut classes = vec![in alloc; 0u16]?;
        let mut firsts = vec![in alloc; 0u16]?;
        for row in 1..automaton.rows() {
            if let Some(class) = class_with_marks(automaton, places, &firsts, row) {
                classes.push(class)?;
                continue;
            }
            classes.push(firsts.len() as u16)?;
            firsts.push(row)?;
        }
        Ok(Partition { classes, firsts })
    }
}
