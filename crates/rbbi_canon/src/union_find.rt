//! Disjoint sets of small numbers (union-find).
ghost use Rattle.std.specs.Prelude.{◌≡◌, ◌<◌, ◌≤◌, ◌↔◌, ℕ, IsTrue, IfOk, length, slice_index};
ghost use Rattle.rbbi_canon.specs.inner.Joins.{JoinsLabels};

use std::alloc::{AllocError, Global};
use std::marker::Model;

/// Disjoint sets of the numbers from 0 up to a count. Each number has the label of its set, so a
/// look-up reads one label. A join goes over all labels; as there are fewer joins than numbers,
/// and labels lie side by side, that costs less than to follow links at each look-up. Contracts
/// see the list of the labels.
#[derive(Drop)]
pub(crate) struct UnionFind {
    labels: Vec<u16>,
}

impl Model for UnionFind {
    ghost use Rattle.std.specs.Prelude.{List, ℕ};

    ghost Value = { List ℕ };

    ghost view = { λ sets. sets.labels.items };
}

impl UnionFind {
    /// Each of so many numbers is a set by itself.
    pub fn new(alloc: Global, count: usize) -> Result<UnionFind, AllocError>
        requires { count ≤ 65536 }
        ensures all { IfOk result (λ sets. length sets ≡ count) }
        ensures apart { IfOk result (λ sets. (k : ℕ) → k < count → slice_index sets k ≡ k) }
    {
        let mut labels = Vec::with_capacity(alloc, count)?;
        for number in 0..count {
            labels.push(number as u16)?;
        }
        Ok(UnionFind { labels })
    }

    /// Whether two numbers are in one set.
    pub fn are_joined(&self, this: usize, that: usize) -> bool
        requires this { this < length self.now }
        requires that { that < length self.now }
        ensures { IsTrue result ↔ (slice_index self.now this ≡ slice_index self.now that) }
    {
        self.labels[this] == self.labels[that]
    }

    /// Joins the sets of two numbers: that of the second takes the label of the first.
    pub fn join(&mut self, this: usize, that: usize)
        requires this { this < length self.old }
        requires that { that < length self.old }
        ensures { JoinsLabels self.old this that self.new }
    {
        let to = self.labels[this];
        let from = self.labels[that];
        for number in 0..self.labels.len() {
            if self.labels[number] == from {
                self.labels[number] = to;
            }
        }
    }
}
