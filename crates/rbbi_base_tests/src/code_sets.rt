//! Each public call once.
ghost use Rattle.std.specs.Prelude.{IfOk};
ghost use Rattle.std.specs.List.{All};
ghost use Rattle.rbbi_sets.specs.Rising.{IsRange};

use crate::ranges::{LAST, Pairs, set_of};
use rbbi_sets::{CodeRange, CodeSet, members_determine};
use std::alloc::{AllocError, Global};

/// Whether there is a set, with these ranges.
fn is_list(set: &Result<CodeSet, AllocError>, want: Pairs) -> bool {
    let Ok(set) = set else {
        return false;
    };
    let ranges = set.ranges();
    if ranges.len() != want.len() {
        return false;
    }
    for (range, pair) in ranges.iter().zip(want) {
        if range.low != pair.0 || range.high != pair.1 {
            return false;
        }
    }
    true
}

const LEFT: Pairs = &[(0, 10), (30, 31)];

const RIGHT: Pairs = &[(2, 2), (4, 4), (11, 11), (13, 13), (15, 29)];

const UNION: Pairs = &[(0, 11), (13, 13), (15, 31)];

const BOTH: Pairs = &[(2, 2), (4, 4)];

const OUTSIDE: Pairs = &[(11, 29), (32, LAST)];

const LEFT_ALONE: Pairs = &[(0, 1), (3, 3), (5, 10), (30, 31)];

/// Whether the operations on two sets give what they must.
fn are_right(alloc: Global, left: &CodeSet, right: &CodeSet) -> bool {
    is_list(&left.union(alloc, right), UNION)
        && is_list(&left.intersect(alloc, right), BOTH)
        && is_list(&left.minus(alloc, right), LEFT_ALONE)
        && is_list(&left.complement(alloc), OUTSIDE)
        && is_list(&left.clone(), LEFT)
}

#[test]
fn operations(rt: HostRuntime) {
    let left = set_of(rt.alloc(), LEFT).expect(&rt, "a set");
    let right = set_of(rt.alloc(), RIGHT).expect(&rt, "a set");
    assert!(rt; are_right(rt.alloc(), &left, &right) && left.has(10) && !left.has(11));
}

/// Whether a set has this first code point, and a character as it must.
fn begins(set: &CodeSet, first: Option<u32>, has_character: bool) -> bool {
    set.first() == first && set.holds_character() == has_character
}

#[test]
fn firsts(rt: HostRuntime) {
    let set = set_of(rt.alloc(), &[(0xD7FF, 0xDFFF)]).expect(&rt, "a set");
    assert!(rt; begins(&set, Some(0xD7FF), true));
    let set = set_of(rt.alloc(), &[(0xD800, 0xDFFF)]).expect(&rt, "a set");
    assert!(rt; begins(&set, Some(0xD800), false));
    assert!(rt; begins(&CodeSet::empty(rt.alloc()), None, false));
    assert!(rt; is_list(&CodeSet::range(rt.alloc(), 0, LAST), &[(0, LAST)]));
    members_determine();
}

/// Each even number below 2,000, as a range of its own.
fn even_numbers(alloc: Global) -> Result<Vec<CodeRange>, AllocError>
    ensures { IfOk result (λ ranges. All IsRange ranges.items) }
{
    let mut ranges = Vec::new(alloc);
    for half in 0..1000 {
        let low = half * 2;
        ranges.push(CodeRange { low, high: low })?;
    }
    Ok(ranges)
}

/// What the even numbers leave of 0 to 3 and of all from 1990 on.
const ODD: Pairs = &[
    (1, 1),
    (3, 3),
    (1991, 1991),
    (1993, 1993),
    (1995, 1995),
    (1997, 1997),
    (1999, LAST),
];

/// Ranges that lie far from one another in a set of many.
#[test]
fn far_ranges(rt: HostRuntime) {
    let ranges = even_numbers(rt.alloc()).expect(&rt, "ranges");
    let evens = CodeSet::from_ranges(rt.alloc(), ranges).expect(&rt, "a set");
    let set = set_of(rt.alloc(), &[(0, 3), (1990, LAST)]).expect(&rt, "a set");
    assert!(rt; is_list(&set.minus(rt.alloc(), &evens), ODD));
}
