//! What tables worked by hand say, and what a search in them finds.
ghost use Rattle.std.specs.Prelude.{◌≡◌, ◌<◌};

use crate::samples::{both, last_character, letter_a, many};
use rbbi_table::{FrontPlaces, Table};
use rbbi_text::{Chars, PlainText, Steps};
use std::marker::Brand;
use std::sync::ledger::{Blank, Ledger};

/// What a search finds: the boundary, the number of its list and the look end.
type Finding = (u32, u16, u32);

/// Whether the searches from 0 on find these, and then the end of the text.
fn are_found<L: Ledger>(
    host: &HostRuntime,
    table: &Table,
    text: &PlainText,
    wanted: &[Finding],
    blank: Blank,
) -> bool
    requires name { blank.name ≡ L.name }
    requires parts { blank.parts ≡ L.parts }
    requires some { 0 < blank.parts }
{
    let mut steps = Steps::<L>::new(host, blank);
    let Ok(mut marks) = FrontPlaces::new(host.alloc(), table) else {
        return false;
    };
    let mut at = 0;
    for finding in wanted {
        if at >= text.len() {
            return false;
        }
        let next = table.next(text, at, &mut marks, &mut steps);
        if next.at != finding.0 || next.status != finding.1 || next.look != finding.2 {
            return false;
        }
        at = next.at;
    }
    at == text.len()
}

/// Whether the searches in this text find these.
fn finds(host: &HostRuntime, table: &Table, text: &str, wanted: &[Finding]) -> bool {
    match PlainText::new(host.alloc(), text) {
        Ok(text) => are_found::<Brand>(host, table, &text, wanted, Blank::new(1)),
        Err(_) => false,
    }
}

#[test]
fn a_search_reads_one_character_more(rt: HostRuntime) {
    let table = letter_a(&rt, rt.alloc());
    assert!(rt; finds(&rt, &table, "ab", &[(1, 0, 2), (2, 0, 2)]));
}

#[test]
fn the_first_of_two_look_ahead_rules_cuts(rt: HostRuntime) {
    let table = both(&rt, rt.alloc());
    let wanted = [(1, 1, 2), (2, 0, 2), (3, 0, 4), (4, 0, 4)];
    assert!(rt; finds(&rt, &table, "abac", &wanted));
}

#[test]
fn the_last_end_of_the_front_is_the_cut(rt: HostRuntime) {
    let table = many(&rt, rt.alloc());
    assert!(rt; finds(&rt, &table, "aaab", &[(3, 0, 4), (4, 0, 4)]));
}

#[test]
fn no_look_ahead_rule_ends_with_the_text(rt: HostRuntime) {
    let table = many(&rt, rt.alloc());
    assert!(rt; finds(&rt, &table, "aa", &[(1, 0, 3), (2, 0, 3)]));
}

#[test]
fn the_parts_of_a_table(rt: HostRuntime) {
    let table = both(&rt, rt.alloc());
    assert!(rt; table.ranges() == 5 && table.lists() == 2 && table.rows() == 5);
    assert!(rt; table.range(1).start == 0x61 && table.status_list(1) == [7].as_slice());
    assert!(rt; table.categories() == 4 && table.row(2).fronts == 3 && table.step(2, 3) == 4);
}

#[test]
fn the_safe_pairs_of_a_table(rt: HostRuntime) {
    let table = both(&rt, rt.alloc());
    assert!(rt; table.categories() == 4 && table.slashes() == 2 && table.safe_count() == 14);
    assert!(rt; table.is_safe(1, 1) && !table.is_safe(1, 2));
}

/// Whether these characters have these categories.
fn are_in(table: &Table, wanted: &[(char, u16)]) -> bool {
    for member in wanted {
        if table.category(member.0) != member.1 {
            return false;
        }
    }
    true
}

#[test]
fn categories_beside_one_letter(rt: HostRuntime) {
    let table = letter_a(&rt, rt.alloc());
    let wanted = [
        ('`', 0),
        ('a', 1),
        ('b', 0),
        ('\u{161}', 0),
        ('\u{4E61}', 0),
    ];
    assert!(rt; are_in(&table, &wanted));
}

#[test]
fn categories_beside_the_last_character(rt: HostRuntime) {
    let table = last_character(&rt, rt.alloc());
    assert!(rt; are_in(&table, &[('\u{10FFFF}', 1), ('\u{10FFFE}', 0), ('\0', 0)]));
}
