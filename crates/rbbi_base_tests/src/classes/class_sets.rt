//! Sets of classes, from ranges and back.
use super::{are, division_by, fine_division};
use crate::ranges::{LAST, Pairs, set_of};
use rbbi_classes::{ClassSet, ClassShelf, Division, Layout};
use std::alloc::{AllocError, Global};

/// The classes whose first code points are in some ranges.
fn classes_of(
    alloc: Global,
    layout: &Layout,
    pairs: &[(u32, u32)],
) -> Result<ClassSet, AllocError> {
    ClassSet::of_set(alloc, layout, &set_of(alloc, pairs)?)
}

/// The same, in chunks that are shared.
fn kept_classes_of(
    alloc: Global,
    division: &Division,
    pairs: &[(u32, u32)],
) -> Result<ClassSet, AllocError> {
    let classes = classes_of(alloc, division.layout(), pairs)?;
    ClassShelf::new(alloc).keep(alloc, &classes)
}

/// Digits, letters, and hexadecimal digits. So these are the classes, by their first code points: 0
/// what is none of them, 0x30 the digits, 0x41 the hexadecimal digits that are letters, 0x47 the
/// other letters, and 0xD800 the surrogates.
const SETS: &[Pairs] = &[
    &[(0x30, 0x39)],
    &[(0x41, 0x5A), (0x61, 0x7A)],
    &[(0x30, 0x39), (0x41, 0x46), (0x61, 0x66)],
];

/// What is in none of the sets.
const OTHERS: Pairs = &[
    (0, 0x2F),
    (0x3A, 0x40),
    (0x5B, 0x60),
    (0x7B, 0xD7FF),
    (0xE000, LAST),
];

/// All but the others.
const IN_SETS: Pairs = &[(0x30, 0x39), (0x41, 0x5A), (0x61, 0x7A), (0xD800, 0xDFFF)];

/// The sets of a division, two ends of a range, and the code points of the classes that begin in
/// it.
type Span = (&'static [Pairs], u32, u32, Pairs);

const SPANS: [Span; 19] = [
    (SETS, 0, 0, OTHERS),
    (SETS, 0, 0x2F, OTHERS),
    (SETS, 0x30, 0x30, &[(0x30, 0x39)]),
    (SETS, 0x41, 0x46, &[(0x41, 0x46), (0x61, 0x66)]),
    (SETS, 0x46, 0x48, &[(0x47, 0x5A), (0x67, 0x7A)]),
    (SETS, 0x31, 0xD7FF, &[(0x41, 0x5A), (0x61, 0x7A)]),
    (SETS, 1, LAST, IN_SETS),
    (SETS, 0xD800, 0xD800, &[(0xD800, 0xDFFF)]),
    (SETS, 0, LAST, &[(0, LAST)]),
    // No class begins there.
    (SETS, 1, 0x2F, &[]),
    (SETS, 0x31, 0x40, &[]),
    (SETS, 0x61, 0x66, &[]),
    (SETS, 0xD801, LAST, &[]),
    // No code point is there.
    (SETS, 0x47, 0x41, &[]),
    (SETS, LAST + 1, u32::MAX, &[]),
    // With no sets there are the surrogates and the others.
    (&[], 0, 0xD7FF, &[(0, 0xD7FF), (0xE000, LAST)]),
    (&[], 1, LAST, &[(0xD800, 0xDFFF)]),
    (&[], 0, LAST, &[(0, LAST)]),
    (&[], 0xE000, LAST, &[]),
];

/// Whether these classes begin from one code point to another, as a range and as a set.
fn is_span(alloc: Global, row: &Span) -> bool {
    let (lists, low, high, want) = *row;
    let Ok(division) = division_by(alloc, lists) else {
        return false;
    };
    let layout = division.layout();
    are(&division, &ClassSet::range(alloc, layout, low, high), want)
        && are(&division, &classes_of(alloc, layout, &[(low, high)]), want)
}

#[test]
fn spans(rt: HostRuntime) {
    for row in &SPANS {
        assert!(rt; is_span(rt.alloc(), row), "from {}", row.1);
    }
}

const LETTERS: Pairs = &[(0x47, 0x5A), (0x67, 0x7A)];

#[test]
fn shared_classes(rt: HostRuntime) {
    let division = division_by(rt.alloc(), SETS).expect(&rt, "a division");
    assert!(rt;
        are(
            &division,
            &kept_classes_of(rt.alloc(), &division, LETTERS),
            LETTERS
        )
    );
}

/// Two sets and what each operation gives of them.
#[derive(Drop)]
struct Case {
    left: Pairs,
    right: Pairs,
    union: Pairs,
    intersect: Pairs,
    minus: Pairs,
    /// What is in the second set and not in the first.
    other_minus: Pairs,
}

fn union(alloc: Global, left: &ClassSet, right: &ClassSet) -> Result<ClassSet, AllocError> {
    left.clone()?.union(alloc, right.clone()?)
}

fn meet(alloc: Global, left: &ClassSet, right: &ClassSet) -> Result<ClassSet, AllocError> {
    left.clone()?.meet(alloc, right)
}

fn remove(alloc: Global, left: &ClassSet, right: &ClassSet) -> Result<ClassSet, AllocError> {
    left.clone()?.remove(alloc, right)
}

/// Whether the operations on two sets, with either one first, give what the case says.
fn is_case(
    alloc: Global,
    division: &Division,
    left: &ClassSet,
    right: &ClassSet,
    case: &Case,
) -> bool {
    are(division, &union(alloc, left, right), case.union)
        && are(division, &union(alloc, right, left), case.union)
        && are(division, &meet(alloc, left, right), case.intersect)
        && are(division, &meet(alloc, right, left), case.intersect)
        && are(division, &remove(alloc, left, right), case.minus)
        && are(division, &remove(alloc, right, left), case.other_minus)
}

/// The same with each set in words of its own, and with one of them or both in chunks.
fn is_case_in_all_forms(
    alloc: Global,
    division: &Division,
    case: &Case,
) -> Result<bool, AllocError> {
    let left = classes_of(alloc, division.layout(), case.left)?;
    let right = classes_of(alloc, division.layout(), case.right)?;
    let kept_right = kept_classes_of(alloc, division, case.right)?;
    Ok(
        is_case(alloc, division, &left, &right, case)
            && is_case(alloc, division, &left, &kept_right, case)
            && is_case_in_chunks(alloc, division, &kept_right, case)?,
    )
}

/// The same with both in chunks.
fn is_case_in_chunks(
    alloc: Global,
    division: &Division,
    kept_right: &ClassSet,
    case: &Case,
) -> Result<bool, AllocError> {
    let kept_left = kept_classes_of(alloc, division, case.left)?;
    Ok(is_case(alloc, division, &kept_left, kept_right, case))
}

const OPERATIONS: [Case; 9] = [
    Case {
        left: &[],
        right: &[(1999, LAST)],
        union: &[(1999, LAST)],
        intersect: &[],
        minus: &[],
        other_minus: &[(1999, LAST)],
    },
    Case {
        left: &[(1999, 1999)],
        right: &[(2000, LAST)],
        union: &[(1999, LAST)],
        intersect: &[],
        minus: &[(1999, 1999)],
        other_minus: &[(2000, LAST)],
    },
    // Words of 64 classes that both have, with words between that are 0.
    Case {
        left: &[(70, 70), (1000, 1010)],
        right: &[(64, 130), (1005, 1100)],
        union: &[(64, 130), (1000, 1100)],
        intersect: &[(70, 70), (1005, 1010)],
        minus: &[(1000, 1004)],
        other_minus: &[(64, 69), (71, 130), (1011, 1100)],
    },
    // The words of the one lie between those of the other.
    Case {
        left: &[(640, 703)],
        right: &[(0, 63), (1280, 1343)],
        union: &[(0, 63), (640, 703), (1280, 1343)],
        intersect: &[],
        minus: &[(640, 703)],
        other_minus: &[(0, 63), (1280, 1343)],
    },
    Case {
        left: &[(0, 1999)],
        right: &[(500, 600)],
        union: &[(0, 1999)],
        intersect: &[(500, 600)],
        minus: &[(0, 499), (601, 1999)],
        other_minus: &[],
    },
    // All words of the one come before those of the other.
    Case {
        left: &[(1500, 1501)],
        right: &[(3, 4)],
        union: &[(3, 4), (1500, 1501)],
        intersect: &[],
        minus: &[(1500, 1501)],
        other_minus: &[(3, 4)],
    },
    // Classes at the ends of words.
    Case {
        left: &[(0, 0), (64, 64), (128, 128)],
        right: &[(63, 64), (127, 128)],
        union: &[(0, 0), (63, 64), (127, 128)],
        intersect: &[(64, 64), (128, 128)],
        minus: &[(0, 0)],
        other_minus: &[(63, 63), (127, 127)],
    },
    Case {
        left: &[(100, 299), (900, 999)],
        right: &[(200, 949)],
        union: &[(100, 999)],
        intersect: &[(200, 299), (900, 949)],
        minus: &[(100, 199), (950, 999)],
        other_minus: &[(300, 899)],
    },
    // The words 1 to 148, in chunks that end before the words 64 and 128, and others before
    // them, across the ends of chunks, and past the last one.
    Case {
        left: &[
            (0, 63),
            (4000, 4200),
            (8191, 8191),
            (9000, 9001),
            (9999, LAST),
        ],
        right: &[(100, 110), (4090, 4100), (8190, 8195), (9001, 9500)],
        union: &[
            (0, 63),
            (100, 110),
            (4000, 4200),
            (8190, 8195),
            (9000, 9500),
            (9999, LAST),
        ],
        intersect: &[(4090, 4100), (8191, 8191), (9001, 9001)],
        minus: &[
            (0, 63),
            (4000, 4089),
            (4101, 4200),
            (9000, 9000),
            (9999, LAST),
        ],
        other_minus: &[(100, 110), (8190, 8190), (8192, 8195), (9002, 9500)],
    },
];

#[test]
fn operations(rt: HostRuntime) {
    let division = fine_division(rt.alloc(), &[], 10_000).expect(&rt, "a division");
    for case in &OPERATIONS {
        assert!(rt; matches!(is_case_in_all_forms(rt.alloc(), &division, case), Ok(true)));
    }
}

const COMPLEMENTS: [(Pairs, Pairs); 6] = [
    (&[], &[(0, LAST)]),
    (&[(700, 701)], &[(0, 699), (702, LAST)]),
    (&[(0, LAST)], &[]),
    (&[(0, 9)], &[(10, LAST)]),
    (&[(1999, LAST)], &[(0, 1998)]),
    (&[(1, 1), (640, 1343)], &[(0, 0), (2, 639), (1344, LAST)]),
];

/// Whether the complement of a set is this, and that of the complement the set again.
fn is_complement(alloc: Global, division: &Division, of: Pairs, want: Pairs) -> bool {
    let layout = division.layout();
    let Ok(classes) = classes_of(alloc, layout, of) else {
        return false;
    };
    let others = classes.negate(alloc, layout);
    if !are(division, &others, want) {
        return false;
    }
    match others {
        Ok(others) => are(division, &others.negate(alloc, layout), of),
        Err(_) => false,
    }
}

#[test]
fn complements(rt: HostRuntime) {
    let division = fine_division(rt.alloc(), &[], 2000).expect(&rt, "a division");
    for row in &COMPLEMENTS {
        assert!(rt; is_complement(rt.alloc(), &division, row.0, row.1));
    }
}

/// The surrogates in a class, but for the first two and the last one.
const SURROGATES: &[Pairs] = &[&[(0, 0xD7FF)], &[(0xD800, 0xD801)], &[(0xDFFF, 0xDFFF)]];

/// A class that has the last surrogate and the characters after it.
const BESIDE: &[Pairs] = &[&[(0xDFFF, LAST)]];

/// The sets of a division, a set of classes, and whether it and its complement have a character.
type Holding = (&'static [Pairs], Pairs, bool, bool);

const CHARACTERS: [Holding; 9] = [
    (SURROGATES, &[], false, true),
    (SURROGATES, &[(0, 0xD7FF)], true, true),
    (SURROGATES, &[(0xE000, LAST)], true, true),
    (SURROGATES, &[(0xD800, 0xDFFF)], false, true),
    (
        SURROGATES,
        &[(0xD800, 0xD801), (0xDFFF, 0xDFFF)],
        false,
        true,
    ),
    (SURROGATES, &[(0, 0xD7FF), (0xE000, LAST)], true, false),
    (SURROGATES, &[(0, LAST)], true, false),
    (BESIDE, &[(0, 0xDFFE)], true, true),
    (BESIDE, &[(0xDFFF, LAST)], true, true),
];

/// Whether a set of classes has a character, and its complement, as a row says.
fn is_holding(alloc: Global, row: &Holding) -> Result<bool, AllocError> {
    let (lists, of, some, others) = *row;
    let division = division_by(alloc, lists)?;
    let layout = division.layout();
    let classes = classes_of(alloc, layout, of)?;
    let complement = classes.negate(alloc, layout)?;
    Ok(classes.holds_character(layout) == some && complement.holds_character(layout) == others)
}

#[test]
fn characters(rt: HostRuntime) {
    for row in &CHARACTERS {
        assert!(rt; matches!(is_holding(rt.alloc(), row), Ok(true)));
    }
}
