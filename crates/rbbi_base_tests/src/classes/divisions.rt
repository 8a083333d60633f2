//! Divisions by sets, with classes worked out by hand.
use super::{division_by, fine_division};
use crate::ranges::{LAST, Pairs};

/// Some sets, and code points with the numbers of their classes. Classes have their numbers in the
/// order of their first code points.
type Classes = (&'static [Pairs], &'static [(u32, usize)]);

const CLASSES_OF_SETS: [Classes; 10] = [
    // With no set there are surrogates and characters.
    (
        &[],
        &[
            (0, 0),
            (0xD7FF, 0),
            (0xD800, 1),
            (0xDFFF, 1),
            (0xE000, 0),
            (LAST, 0),
        ],
    ),
    // Nor do sets that have all or nothing distinguish code points.
    (
        &[&[(0, LAST)], &[], &[(0xD800, 0xDFFF)]],
        &[(0, 0), (0xD7FF, 0), (0xD800, 1), (0xDFFF, 1), (LAST, 0)],
    ),
    // Letters of one set are in one class, far apart as they may stand.
    (
        &[&[(0x61, 0x61), (0x3B1, 0x3B1)]],
        &[
            (0, 0),
            (0x60, 0),
            (0x61, 1),
            (0x62, 0),
            (0x3B0, 0),
            (0x3B1, 1),
            (0x3B2, 0),
            (0xD800, 2),
            (0xE000, 0),
            (LAST, 0),
        ],
    ),
    // A letter of one set alone is apart from the others of the other set.
    (
        &[&[(0x61, 0x7A)], &[(0x65, 0x65)]],
        &[
            (0, 0),
            (0x61, 1),
            (0x64, 1),
            (0x65, 2),
            (0x66, 1),
            (0x7A, 1),
            (0x7B, 0),
            (0xDC00, 3),
            (LAST, 0),
        ],
    ),
    // Sets that overlap, of which the one has 0.
    (
        &[&[(0, 9)], &[(5, 14)]],
        &[
            (0, 0),
            (4, 0),
            (5, 1),
            (9, 1),
            (10, 2),
            (14, 2),
            (15, 3),
            (0xD800, 4),
            (0xE000, 3),
            (LAST, 3),
        ],
    ),
    // The first code point and the last one.
    (
        &[&[(0, 0), (LAST, LAST)]],
        &[
            (0, 0),
            (1, 1),
            (0xD7FF, 1),
            (0xD800, 2),
            (0xE000, 1),
            (LAST - 1, 1),
            (LAST, 0),
        ],
    ),
    // A set with some surrogates.
    (
        &[&[(0xD700, 0xD8FF)]],
        &[
            (0xD6FF, 0),
            (0xD700, 1),
            (0xD7FF, 1),
            (0xD800, 2),
            (0xD8FF, 2),
            (0xD900, 3),
            (0xDFFF, 3),
            (0xE000, 0),
        ],
    ),
    // A set, the same again, and its complement.
    (
        &[&[(0x61, 0x61)], &[(0x61, 0x61)], &[(0, 0x60), (0x62, LAST)]],
        &[(0, 0), (0x61, 1), (0x62, 0), (0xD800, 2), (LAST, 0)],
    ),
    // The number of sets is odd when they are halved.
    (
        &[&[(1, 1)], &[(2, 2)], &[(3, 3)], &[(1, 3)], &[(2, 3)]],
        &[(0, 0), (1, 1), (2, 2), (3, 3), (4, 0), (0xD800, 4)],
    ),
    // Ends of both sets at one code point.
    (
        &[&[(10, 19), (30, 39)], &[(20, 29), (30, 39)]],
        &[
            (9, 0),
            (10, 1),
            (19, 1),
            (20, 2),
            (29, 2),
            (30, 3),
            (39, 3),
            (40, 0),
            (0xD800, 4),
        ],
    ),
];

#[test]
fn classes_of_sets(rt: HostRuntime) {
    for row in &CLASSES_OF_SETS {
        let division = division_by(rt.alloc(), row.0).expect(&rt, "a division");
        for class in row.1 {
            assert!(rt; division.class_at(class.0) == class.1, "at {}", class.0);
        }
    }
}

/// Each code point below 40 is a class, and what lies past them another.
#[test]
fn many_sets(rt: HostRuntime) {
    let division = fine_division(rt.alloc(), &[], 40).expect(&rt, "a division");
    for c in 0u32..41 {
        assert!(rt; division.class_at(c) == c as usize);
    }
    assert!(rt; division.class_at(0xD800) == 41);
}
