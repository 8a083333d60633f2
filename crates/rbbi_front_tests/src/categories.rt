//! Rule files whose categories were worked out by hand.
use crate::resolved::rules_in;
use rbbi_cats::{CatRange, partition};

/// The start of each range and its category.
type Starts = &'static [(u32, u16)];

/// Characters and their categories.
type Members = &'static [(char, u16)];

/// Whether the ranges have these starts and categories.
fn are_ranges(ranges: &[CatRange], want: Starts) -> bool {
    if ranges.len() != want.len() {
        return false;
    }
    for (range, pair) in ranges.iter().zip(want) {
        if range.start != pair.0 || range.cat != pair.1 {
            return false;
        }
    }
    true
}

/// Rule files, how many categories they have, the ranges of these, and some of their members.
const CATEGORIES: &[(&str, u16, Starts, Members)] = &[
    ("a|b|a;", 3, &[(0, 0), (0x61, 1), (0x62, 2), (0x63, 0)], &[]),
    (
        "[a-c]; [b-d];",
        4,
        &[(0, 0), (0x61, 1), (0x62, 2), (0x64, 3), (0x65, 0)],
        &[('`', 0), ('a', 1), ('b', 2), ('c', 2), ('d', 3), ('e', 0)],
    ),
    (
        "[a-d] [c-f] [b-e];",
        6,
        &[
            (0, 0),
            (0x61, 1),
            (0x62, 2),
            (0x63, 3),
            (0x65, 4),
            (0x66, 5),
            (0x67, 0),
        ],
        &[],
    ),
    // Everything, and the last code point.
    (
        "\\U0010FFFF;",
        2,
        &[(0, 0), (0x10_FFFF, 1)],
        &[('\u{10FFFF}', 1), ('\u{10FFFE}', 0), ('\0', 0)],
    ),
    (
        ".;",
        2,
        &[(0, 1), (0xD800, 0), (0xE000, 1)],
        &[('\u{D7FF}', 1), ('\u{E000}', 1)],
    ),
    (
        "[\\u0000-\\U0010FFFF] | [^];",
        2,
        &[(0, 1), (0xD800, 0), (0xE000, 1)],
        &[],
    ),
    (
        ". a;",
        3,
        &[(0, 1), (0x61, 2), (0x62, 1), (0xD800, 0), (0xE000, 1)],
        &[],
    ),
    // Beside the surrogates.
    (
        "[\\uD7FF-\\uE000];",
        2,
        &[(0, 0), (0xD7FF, 1), (0xD800, 0), (0xE000, 1), (0xE001, 0)],
        &[],
    ),
    (
        "[\\uD7FF\\uE000]; \\uD7FF;",
        3,
        &[(0, 0), (0xD7FF, 1), (0xD800, 0), (0xE000, 2), (0xE001, 0)],
        &[],
    ),
    (
        "[\\p{Cs} \\uE000];",
        2,
        &[(0, 0), (0xE000, 1), (0xE001, 0)],
        &[],
    ),
    (
        "[^\\uD7FF \\uE000];",
        2,
        &[(0, 1), (0xD7FF, 0), (0xE001, 1)],
        &[],
    ),
];

#[test]
fn categories(rt: HostRuntime) {
    for row in CATEGORIES {
        let (text, count, starts, members) = *row;
        assert!(rt; text.len() < 10_000);
        let rules = rules_in(&rt, rt.alloc(), text);
        let cats = partition(rt.alloc(), &rules).expect(&rt, text);
        assert!(rt;
            cats.count() == count && are_ranges(cats.ranges(), starts),
            "in {text:?}"
        );
        for member in members {
            assert!(rt;
                cats.of(member.0) == member.1,
                "of {:?} in {text:?}",
                member.0
            );
        }
    }
}
