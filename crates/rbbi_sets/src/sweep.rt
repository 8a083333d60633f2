//! Union, intersection and difference by one pass over the ends of the ranges of two sets.
ghost use Rattle.std.specs.Prelude.{◌≡◌, ◌≤◌, ◌<◌, ◌+◌, ◌↔◌, ℕ, IfOk, IsTrue, length};
ghost use Rattle.std.specs.Prelude.{slice_index_or};
ghost use Rattle.std.specs.List.{AllWithin};
ghost use Rattle.rbbi_model.specs.Ranges.{Range, Has};
ghost use Rattle.rbbi_sets.specs.Rising.{AreRising};
ghost use Rattle.rbbi_sets.specs.Covers.{covers};
ghost use Rattle.rbbi_sets.specs.inner.Rising.{IsNextRange};
ghost use Rattle.rbbi_sets.specs.inner.Sweeps.{Combined};

use crate::{CodeRange, CodeSet};
use std::alloc::{AllocError, Global};

/// One past the last code point.
const END: u32 = 0x11_0000;

/// How to make one set of two.
#[derive(Clone, Copy)]
pub(crate) enum Operation {
    Union,
    Intersect,
    Minus,
}

/// The code points from one on up to, but not including, `end`, of which a set has all or none.
#[derive(Clone, Copy)]
struct Stretch {
    is_inside: bool,
    end: u32,
}

/// The set that the operation makes of two.
pub(crate) fn sweep(
    alloc: Global,
    left: &CodeSet,
    right: &CodeSet,
    operation: Operation,
) -> Result<CodeSet, AllocError>
    ensures members { IfOk result (λ set. (c : ℕ) →
        Has set c ↔ Combined operation (Has left.now c) (Has right.now c)) }
    ensures form { IfOk result (λ set. AreRising set) }
{
    let lefts = left.ranges();
    let rights = right.ranges();
    let mut set = CodeSet::empty(alloc);
    let mut next_left = 0;
    let mut next_right = 0;
    let mut at = 0;
    'stretches: while at < END {
        let of_left = stretch_from(lefts, next_left, at);
        let of_right = stretch_from(rights, next_right, at);
        let end = of_left.end.min(of_right.end);
        if is_kept(operation, of_left.is_inside, of_right.is_inside) {
            set.push(at, end - 1)?;
        }
        next_left = next_after(lefts, next_left, end);
        next_right = next_after(rights, next_right, end);
        at = end;
    }
    Ok(set)
}

/// Whether the operation keeps a code point, by whether it is in the one and in the other set.
fn is_kept(operation: Operation, in_left: bool, in_right: bool) -> bool
    ensures { IsTrue result ↔ Combined operation (IsTrue in_left) (IsTrue in_right) }
{
    match operation {
        Operation::Union => in_left || in_right,
        Operation::Intersect => in_left && in_right,
        Operation::Minus => in_left && !in_right,
    }
}

/// The stretch from `at` on, if `next` is the place of the first range that doesn't end before it.
fn stretch_from(ranges: &[CodeRange], next: usize, at: u32) -> Stretch
    requires rising { AreRising ranges.now }
    requires within { next ≤ length ranges.now }
    requires place { IsNextRange ranges.now at next }
    requires code_point { at ≤ 0x10FFFF }
    ensures some { at < result.end }
    ensures end { result.end ≤ 0x110000 }
    ensures one_range { (d : Range) → next < length ranges.now →
        result.end ≤ (slice_index_or ranges.now next d).high + 1 }
    ensures same { (c : ℕ) → at ≤ c → c < result.end →
        covers ranges.now c ≡ result.is_inside }
{
    if next == ranges.len() {
        return Stretch {
            is_inside: false,
            end: END,
        };
    }
    let range = ranges[next];
    if at < range.low {
        return Stretch {
            is_inside: false,
            end: range.low,
        };
    }
    Stretch {
        is_inside: true,
        end: range.high + 1,
    }
}

/// The place of the first range that doesn't end before `at`: `next`, or the one after it, if those
/// before `next` do.
fn next_after(ranges: &[CodeRange], next: usize, at: u32) -> usize
    requires rising { AreRising ranges.now }
    requires within { next ≤ length ranges.now }
    requires ended { AllWithin (λ range. range.high < at) ranges.now 0 next }
    requires one_range { (d : Range) → next < length ranges.now →
        at ≤ (slice_index_or ranges.now next d).high + 1 }
    ensures within { result ≤ length ranges.now }
    ensures place { IsNextRange ranges.now at result }
{
    if next < ranges.len() {
        let range = ranges[next];
        if range.high < at {
            return next + 1;
        }
    }
    next
}
