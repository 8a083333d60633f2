//! Step functions on the code points, which distinguish what sets distinguish.
ghost use Rattle.std.specs.Prelude.{◌≡◌, ◌≤◌, ◌<◌, ◌+◌, ◌⊎◌, ℕ, [], ◌∷◌, List, IfOk, length};
ghost use Rattle.std.specs.Prelude.{slice_index_or};
ghost use Rattle.rbbi_model.specs.Ranges.{Range};
ghost use Rattle.rbbi_classes.specs.Steps.{number_at, AreSteps};
ghost use Rattle.rbbi_classes.specs.inner.Steps.{HasRestrictedGrowth, IsStepAt};
ghost use Rattle.rbbi_classes.specs.inner.Steps.{Separate, DontSeparateMore};

use crate::pairs::{Pair, Pairs};
use rbbi_sets::CodeSet;
use std::alloc::{AllocError, Global};

/// From the code point `start` on, up to the next step, code points have this number.
#[derive(Clone, Copy)]
pub struct Step {
    /// The first code point with the number.
    pub start: u32,
    /// The number.
    pub number: u32,
}

/// How far a walk along steps has come: how many it has passed, and the number after these.
#[derive(Clone, Copy)]
struct Walk {
    passed: usize,
    number: u32,
}

/// The last code point.
const LAST: u32 = 0x10_FFFF;

/// A step function that has the same number at two code points exactly if they are in the same of
/// the sets.
///
/// The sets are halved, and the steps of the halves merged. So each end of a range is passed once
/// for each time that the sets can be halved, however many sets hold a code point.
pub(crate) fn steps_of(alloc: Global, sets: &[CodeSet]) -> Result<Vec<Step>, AllocError>
    ensures form { IfOk result (λ steps. AreSteps steps.items) }
    ensures order { IfOk result (λ steps. HasRestrictedGrowth steps.items) }
    ensures separate { IfOk result (λ steps. Separate steps.items sets.now) }
    ensures joint { IfOk result (λ steps. DontSeparateMore steps.items sets.now) }
{
    if sets.is_empty() {
        return Ok(Vec::new(alloc));
    }
    if sets.len() == 1 {
        let steps = steps_of_set(alloc, &sets[0])?;
        return Ok(steps);
    }
    let (left, right) = sets.split_at(sets.len() / 2);
    let left = steps_of(alloc, left)?;
    let right = steps_of(alloc, right)?;
    let steps = merged(alloc, &left, &right)?;
    Ok(steps)
}

/// The step function of one set. It changes between 0 and 1 where a range begins and after its
/// end. Its members have the number 0 if the code point 0 is one of them, and else the number 1.
fn steps_of_set(alloc: Global, set: &CodeSet) -> Result<Vec<Step>, AllocError>
    ensures form { IfOk result (λ steps. AreSteps steps.items) }
    ensures order { IfOk result (λ steps. HasRestrictedGrowth steps.items) }
    ensures separate { IfOk result (λ steps. Separate steps.items (set.now ∷ [])) }
    ensures joint { IfOk result (λ steps. DontSeparateMore steps.items (set.now ∷ [])) }
{
    let inside = if set.has(0) { 0 } else { 1 };
    let mut steps = Vec::new(alloc);
    for range in set.ranges() {
        if range.low > 0 {
            steps.push(Step {
                start: range.low,
                number: inside,
            })?;
        }
        if range.high < LAST {
            steps.push(Step {
                start: range.high + 1,
                number: 1 - inside,
            })?;
        }
    }
    Ok(steps)
}

/// The common refinement of two step functions.
pub(crate) fn merged(alloc: Global, left: &[Step], right: &[Step]) -> Result<Vec<Step>, AllocError>
    requires left { AreSteps left.now }
    requires right { AreSteps right.now }
    ensures form { IfOk result (λ steps. AreSteps steps.items) }
    ensures order { IfOk result (λ steps. HasRestrictedGrowth steps.items) }
    ensures left { IfOk result (λ steps. (c d : ℕ) → c ≤ 0x10FFFF → d ≤ 0x10FFFF
        → number_at steps.items c ≡ number_at steps.items d
        → number_at left.now c ≡ number_at left.now d) }
    ensures right { IfOk result (λ steps. (c d : ℕ) → c ≤ 0x10FFFF → d ≤ 0x10FFFF
        → number_at steps.items c ≡ number_at steps.items d
        → number_at right.now c ≡ number_at right.now d) }
    ensures joint { IfOk result (λ steps. (c d : ℕ)
        → number_at left.now c ≡ number_at left.now d
        → number_at right.now c ≡ number_at right.now d
        → number_at steps.items c ≡ number_at steps.items d) }
{
    let mut pairs = Pairs::new(alloc)?;
    let mut steps = Vec::new(alloc);
    let mut number = 0;
    let mut of_left = Walk {
        passed: 0,
        number: 0,
    };
    let mut of_right = of_left;
    'merge: while of_left.passed < left.len() || of_right.passed < right.len() {
        let start = next_start(left, of_left.passed, right, of_right.passed);
        of_left = walked(left, of_left, start);
        of_right = walked(right, of_right, start);
        let next = pairs.number_of(Pair {
            left: of_left.number,
            right: of_right.number,
        })?;
        if next != number {
            steps.push(Step {
                start,
                number: next,
            })?;
            number = next;
        }
    }
    Ok(steps)
}

/// Where the next step of the one or the other begins.
fn next_start(left: &[Step], i: usize, right: &[Step], j: usize) -> u32
    requires { (i < length left.now) ⊎ (j < length right.now) }
    ensures left { (d : Step) → i < length left.now → result ≤ (slice_index_or left.now i d).start }
    ensures right { (d : Step) → j < length right.now →
        result ≤ (slice_index_or right.now j d).start }
    ensures one { IsStepAt left.now i result ⊎ IsStepAt right.now j result }
{
    if i >= left.len() {
        return right[j].start;
    }
    if j >= right.len() {
        return left[i].start;
    }
    left[i].start.min(right[j].start)
}

/// The walk past the step that begins at `start`, if the next one does.
fn walked(steps: &[Step], walk: Walk, start: u32) -> Walk
    ensures met { IsStepAt steps.now walk.passed start → (result.passed ≡ walk.passed + 1)
        × ((d : Step) → result.number ≡ (slice_index_or steps.now walk.passed d).number) }
    ensures not_met { ¬ IsStepAt steps.now walk.passed start → result ≡ walk }
{
    if walk.passed < steps.len() {
        let step = steps[walk.passed];
        if step.start == start {
            return Walk {
                passed: walk.passed + 1,
                number: step.number,
            };
        }
    }
    walk
}
