//! The partition of the code points by sets.
ghost use Rattle.std.specs.Prelude.{◌≡◌, ◌≤◌, ◌∷◌, ℕ, List, IfOk, length};
ghost use Rattle.std.specs.List.{Contains};
ghost use Rattle.rbbi_model.specs.Ranges.{Range};
ghost use Rattle.rbbi_classes.specs.Classes.{AreBounds};
ghost use Rattle.rbbi_classes.specs.Steps.{number_at, AreSteps};
ghost use Rattle.rbbi_classes.specs.inner.Steps.{HasRestrictedGrowth};
ghost use Rattle.rbbi_classes.specs.Divisions.{IsRespected, IsDivision, first_of, stand_in};
ghost use Rattle.rbbi_sets.specs.Partitions.{IsPartitionBy, surrogates};

use crate::Layout;
use crate::steps::{Step, merged, steps_of};
use rbbi_sets::CodeSet;
use std::alloc::{AllocError, Global};
use std::marker::Model;

/// The steps of the set of surrogates.
const SURROGATES: [Step; 2] = [
    Step {
        start: 0xD800,
        number: 1,
    },
    Step {
        start: 0xE000,
        number: 0,
    },
];

/// A partition of the code points by sets. Two code points are in one class exactly if none of the
/// sets distinguishes them, wherever they stand. So each set that is made of these by unions,
/// intersections, differences and complements has all of a class or nothing of it.
///
/// Classes are numbered by their least code points. Contracts see the partition as the first code
/// points of its classes (but for 0) and the steps of the function from a code point to the number
/// of its class.
#[derive(Drop)]
pub struct Division {
    layout: Layout,
    steps: Vec<Step>,
}

impl Model for Division {
    ghost use Rattle.rbbi_classes.specs.Divisions.{ClassDivision, IsDivision};

    ghost Value = { ClassDivision };

    ghost view = { λ division. record {
      bounds = division.layout;
      steps = division.steps.items;
    } };

    ghost invariant = { λ division. IsDivision (record {
      bounds = division.layout;
      steps = division.steps.items;
    }) };
}

impl Division {
    /// The partition by some sets and by the set of surrogates: the classes of code points that
    /// none of these sets distinguishes, numbered by their least code points.
    pub fn new(alloc: Global, sets: &[CodeSet]) -> Result<Division, AllocError>
        ensures respected { IfOk result (λ division. (set : List Range) → Contains sets.now set
            → IsRespected division set) }
        ensures exact { IfOk result (λ division.
            IsPartitionBy (surrogates ∷ sets.now) (stand_in division)) }
        ensures form { IfOk result (λ division. IsDivision division) }
    {
        let own = steps_of(alloc, sets)?;
        let steps = merged(alloc, &own, &SURROGATES)?;
        let bounds = first_code_points(alloc, &steps)?;
        Ok(Division {
            layout: Layout::of_bounds(bounds),
            steps,
        })
    }

    /// The first code points of the classes.
    pub fn layout(&self) -> &Layout
        ensures value { result.now ≡ self.now.bounds }
        ensures form { IsDivision self.now }
    {
        &self.layout
    }

    /// The steps at which the class changes.
    pub fn steps(&self) -> &[Step]
        ensures { result.now ≡ self.now.steps }
    {
        self.steps.as_slice()
    }

    /// The number of the class of a code point, by a binary search.
    pub fn class_at(&self, c: u32) -> usize
        ensures { result ≡ number_at self.now.steps c }
    {
        let next = self.steps.partition_point(|step| step.start <= c);
        if next == 0 {
            return 0;
        }
        self.steps[next - 1].number as usize
    }
}

/// The code point at which each number comes for the first time, but for that of 0.
fn first_code_points(alloc: Global, steps: &[Step]) -> Result<Vec<u32>, AllocError>
    requires form { AreSteps steps.now }
    requires order { HasRestrictedGrowth steps.now }
    ensures form { IfOk result (λ bounds. AreBounds bounds.items) }
    ensures within { IfOk result (λ bounds. (c : ℕ) →
        number_at steps.now c ≤ length bounds.items) }
    ensures first { IfOk result (λ bounds. (k : ℕ) → k ≤ length bounds.items →
        number_at steps.now (first_of bounds.items k) ≡ k) }
    ensures least { IfOk result (λ bounds. (c : ℕ) →
        first_of bounds.items (number_at steps.now c) ≤ c) }
{
    let mut bounds = Vec::new(alloc);
    for step in steps {
        if step.number as usize > bounds.len() {
            bounds.push(step.start)?;
        }
    }
    Ok(bounds)
}
