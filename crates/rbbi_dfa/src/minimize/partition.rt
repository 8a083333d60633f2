//! A partition of an automaton's rows, and how a class of it is split.
ghost use Rattle.std.specs.Prelude.{◌≡◌, ◌≢◌, ℕ, ◌+◌, ◌<◌, ◌≤◌, Bool, length, slice_index, OnOk};
ghost use Rattle.std.specs.Prelude.{IsTrue, ◌↔◌};
ghost use Rattle.rbbi_dfa.specs.inner.Automata.{IsDetermined};
ghost use Rattle.rbbi_dfa.specs.inner.Partitions.{IsPartition, AreSides, LeavesClass, leads_inside};

use crate::automaton::Automaton;
use std::alloc::{AllocError, Global};

/// The most rows that a table may have.
pub(crate) const MOST_ROWS: usize = 4095;

/// A partition of an automaton's rows into classes: rows of different classes have different marks
/// along some categories. Rows of one class need not be alike yet.
#[derive(Drop)]
pub(crate) struct Partition {
    /// The class of each row.
    pub classes: Vec<u16>,
    /// A row of each class, which stays in it when the class is split.
    pub firsts: Vec<u16>,
}

impl Partition {
    /// Splits a class by whether its rows lead by the category to rows inside. Those that do as the
    /// first row does stay, and the others make a new class, the last. Gives how many left, which
    /// may be none.
    pub fn split(
        &mut self,
        alloc: Global,
        automaton: &Automaton,
        class: u16,
        category: u16,
        inside: &[bool],
    ) -> Result<u16, AllocError>
        requires determined { IsDetermined automaton.now }
        requires partition { IsPartition automaton.now self.old.classes.items
            self.old.firsts.items }
        requires class { class < length self.old.firsts.items }
        requires category { category < automaton.now.categories }
        requires sides { AreSides self.old.classes.items inside.now }
        requires inside { length inside.now ≡ length automaton.now.rows }
        requires room { length self.old.firsts.items ≤ MOST_ROWS }
        ensures partition { IsPartition automaton.now self.new.classes.items self.new.firsts.items }
        ensures sides { AreSides self.new.classes.items inside.now }
        ensures most { length self.new.firsts.items ≤ length self.old.firsts.items + 1 }
        ensures splits { (row : ℕ) → row < length automaton.now.rows →
            slice_index self.old.classes.items row ≡ class →
            leads_inside automaton.now inside.now category row
            ≢ leads_inside automaton.now inside.now category
            (slice_index self.old.firsts.items class) →
            OnOk result (length self.new.firsts.items ≡ length self.old.firsts.items + 1) }
    {
        let first = self.firsts[class as usize];
        let stays = inside[automaton.next(first, category) as usize];
        let cut = Cut {
            class,
            category,
            stays,
        };
        let new = self.firsts.len() as u16;
        let mut classes = Vec::with_capacity(alloc, self.classes.len())?;
        let mut left = 0;
        let mut leaver = first;
        for row in 0..automaton.rows() {
            if cut.takes(automaton, &self.classes, inside, row) {
                classes.push(new)?;
                leaver = row;
                left += 1;
                continue;
            }
            classes.push(self.classes[row as usize])?;
        }
        if left > 0 {
            self.firsts.push(leaver)?;
            self.classes = classes;
        }
        Ok(left)
    }
}

/// How a class is split: the rows that lead by the category inside stay, or those that don't.
#[derive(Clone, Copy)]
struct Cut {
    class: u16,
    category: u16,
    stays: bool,
}

impl Cut {
    /// Whether the row leaves its class.
    fn takes(self, automaton: &Automaton, classes: &[u16], inside: &[bool], row: u16) -> bool
        requires determined { IsDetermined automaton.now }
        requires classes { length classes.now ≡ length automaton.now.rows }
        requires inside { length inside.now ≡ length automaton.now.rows }
        requires category { self.category < automaton.now.categories }
        requires row { row < length automaton.now.rows }
        ensures { IsTrue result ↔ LeavesClass automaton.now classes.now inside.now self.class
            self.category self.stays row }
    {
        classes[row as usize] == self.class
            && inside[automaton.next(row, self.category) as usize] != self.stays
    }
}
