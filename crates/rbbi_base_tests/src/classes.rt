//! Partitions and sets of classes, by tables of cases by hand.
use crate::ranges::{LAST, set_of};
use rbbi_bits::is_set;
use rbbi_classes::{ClassSet, Division};
use std::alloc::{AllocError, Global};

mod class_sets;
mod divisions;

/// The division by some sets.
fn division_by(alloc: Global, lists: &[&[(u32, u32)]]) -> Result<Division, AllocError> {
    let mut sets = Vec::new(alloc);
    for pairs in lists {
        sets.push(set_of(alloc, pairs)?)?;
    }
    Division::new(alloc, &sets)
}

/// The division by a set and by each code point before `end`.
fn fine_division(alloc: Global, pairs: &[(u32, u32)], end: u32) -> Result<Division, AllocError> {
    let mut sets = Vec::new(alloc);
    sets.push(set_of(alloc, pairs)?)?;
    for c in 0..end {
        sets.push(set_of(alloc, &[(c, c)])?)?;
    }
    Division::new(alloc, &sets)
}

fn is_in(pairs: &[(u32, u32)], c: u32) -> bool {
    for pair in pairs {
        if pair.0 <= c && c <= pair.1 {
            return true;
        }
    }
    false
}

/// The first code points that are asked for, and those after the last, where the tests have ends of
/// ranges.
const ASKED: [(u32, u32); 4] = [
    (0, 10_010),
    (0xD700, 0xE100),
    (LAST - 1, LAST + 2),
    (u32::MAX - 1, u32::MAX),
];

/// Whether there is a set, whose classes have these code points.
fn are(division: &Division, set: &Result<ClassSet, AllocError>, want: &[(u32, u32)]) -> bool {
    let Ok(set) = set else {
        return false;
    };
    for span in &ASKED {
        for c in span.0..span.1 {
            let class = division.class_at(c);
            let has = c <= LAST && is_set(set.word(class / 64), class % 64);
            if has != is_in(want, c) {
                return false;
            }
        }
    }
    true
}
