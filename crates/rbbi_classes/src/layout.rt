//! The first code points of classes.
ghost use Rattle.std.specs.Prelude.{◌≡◌, ◌<◌, ◌≤◌, ◌↔◌, ℕ, IfSome, IsNone, length};
ghost use Rattle.rbbi_classes.specs.Classes.{class_of, AreBounds, IsFirstOfClass};
ghost use Rattle.rbbi_classes.specs.Divisions.{first_of};

use std::marker::Model;

/// The first code points of the classes of a `Division`, but for class 0, which begins at 0. They
/// rise. Contracts see it as their list (`AreBounds`).
#[derive(Drop)]
pub struct Layout {
    bounds: Vec<u32>,
}

impl Model for Layout {
    ghost use Rattle.std.specs.Prelude.{List, ℕ};
    ghost use Rattle.rbbi_classes.specs.Classes.{AreBounds};

    ghost Value = { List ℕ };

    ghost view = { λ layout. layout.bounds.items };

    ghost invariant = { λ layout. AreBounds layout.bounds.items };
}

/// The classes from one to another, both counted.
#[derive(Clone, Copy)]
pub(crate) struct ClassSpan {
    pub first: usize,
    pub last: usize,
}

impl Layout {
    /// The classes that begin at 0 and at these code points.
    pub(crate) fn of_bounds(bounds: Vec<u32>) -> Layout
        requires { AreBounds bounds.items }
        ensures { result ≡ bounds.items }
    {
        Layout { bounds }
    }

    /// The number of the last class.
    pub fn last_class(&self) -> usize
        ensures { result ≡ length self.now }
    {
        self.bounds.len()
    }

    /// The classes whose first code points are those from `low` to `high`, by two binary searches.
    /// None exactly where there are none.
    pub(crate) fn span(&self, low: u32, high: u32) -> Option<ClassSpan>
        ensures form { AreBounds self.now }
        ensures ordered { IfSome result (λ span. span.first ≤ span.last) }
        ensures classes { IfSome result (λ span. (c : ℕ) → IsFirstOfClass self.now c →
            ((span.first ≤ class_of self.now c) × (class_of self.now c ≤ span.last))
            ↔ ((low ≤ c) × (c ≤ high))) }
        ensures none { IsNone result → (c : ℕ) → IsFirstOfClass self.now c → low ≤ c → high < c }
    {
        let first = self.classes_before(low);
        let end = self.bounds.partition_point(|bound| *bound <= high) + 1;
        if first < end {
            Some(ClassSpan {
                first,
                last: end - 1,
            })
        } else {
            None
        }
    }

    /// How many classes begin before a code point.
    fn classes_before(&self, c: u32) -> usize
        ensures { (d : ℕ) → IsFirstOfClass self.now d → (result ≤ class_of self.now d) ↔ (c ≤ d) }
    {
        if c == 0 {
            return 0;
        }
        self.bounds.partition_point(|bound| *bound < c) + 1
    }

    /// The first code point of a class.
    pub(crate) fn first_of(&self, class: usize) -> u32
        requires { class ≤ length self.now }
        ensures value { result ≡ first_of self.now class }
        ensures form { AreBounds self.now }
    {
        if class == 0 {
            0
        } else {
            self.bounds[class - 1]
        }
    }
}
