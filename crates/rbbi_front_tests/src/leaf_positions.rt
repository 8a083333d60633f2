//! Rule files whose positions were worked out by hand.
ghost use Rattle.std.specs.Prelude.{◌≡◌, ◌<◌, length};

use crate::forms::{after, after_number};
use crate::resolved::rules_in;
use rbbi_cats::partition;
use rbbi_positions::{Positions, positions};
use std::alloc::Global;
use std::process::Abort;

/// The positions of the rules of a short file, and the number of their categories.
fn positions_in(rt: &impl Abort, alloc: Global, text: &str) -> (Positions, u16)
    requires { length text.now < 1000 }
    ensures { result.0.categories ≡ result.1 }
{
    let rules = rules_in(rt, alloc, text);
    let cats = partition(alloc, &rules).expect(rt, text);
    let found = positions(alloc, &rules, &cats).expect(rt, text);
    (found, cats.count())
}

/// What follows the marks of a leaf: `^` if it is first, `$` if it is last, `/` if it is last of
/// the front, then `:`.
fn after_marks<'a>(form: &'a [u8], found: &Positions, leaf: u32) -> Option<&'a [u8]>
    requires { leaf < found.now.leaves }
{
    let mut rest = after_number(form, leaf)?;
    if found.is_first(leaf) {
        rest = after(rest, b'^')?;
    }
    if found.is_last(leaf) {
        rest = after(rest, b'$')?;
    }
    if found.is_front_last(leaf) {
        rest = after(rest, b'/')?;
    }
    after(rest, b':')
}

/// What follows the categories that a leaf reads, and `>`.
fn after_categories<'a>(
    form: &'a [u8],
    found: &Positions,
    leaf: u32,
    categories: u16,
) -> Option<&'a [u8]>
    requires leaf { leaf < found.now.leaves }
    requires categories { found.now.categories ≡ categories }
{
    let mut rest = form;
    for category in 0..categories {
        if found.reads(leaf, category) {
            rest = after_number(rest, u32::from(category))?;
        }
    }
    after(rest, b'>')
}

/// What follows the positions that follow a leaf, and a space.
fn after_followers<'a>(form: &'a [u8], found: &Positions, leaf: u32) -> Option<&'a [u8]>
    requires { leaf < found.now.leaves }
{
    let mut rest = form;
    for next in 0..found.leaves() {
        if found.follows(leaf, next) {
            rest = after_number(rest, next)?;
        }
    }
    after(rest, b' ')
}

/// Whether the positions have this short form, with a space after each.
fn are_shown(found: &Positions, categories: u16, form: &[u8]) -> bool
    requires { found.now.categories ≡ categories }
{
    let mut rest = form;
    for leaf in 0..found.leaves() {
        let Some(marked) = after_marks(rest, found, leaf) else {
            return false;
        };
        let Some(read) = after_categories(marked, found, leaf, categories) else {
            return false;
        };
        let Some(followed) = after_followers(read, found, leaf) else {
            return false;
        };
        rest = followed;
    }
    rest.is_empty()
}

const MARKS: [(&str, &str); 16] = [
    ("a;", "0^$/:1> "),
    ("ab;", "0^:1>1 1$/:2> "),
    ("a|b;", "0^$/:1> 1^$/:2> "),
    ("a?;", "0^$/:1> "),
    ("a*;", "0^$/:1>0 "),
    ("a+;", "0^$/:1>0 "),
    (".a;", "0^:12>1 1$/:2> "),
    ("(ab)?c;", "0^:1>1 1:2>2 2^$/:3> "),
    ("a(b|c)*d;", "0^:1>123 1:2>123 2:3>123 3$/:4> "),
    ("ab / c;", "0^:1>1 1/:2>2 2$:3> "),
    ("ab?/c?d;", "0^/:1>123 1/:2>23 2:3>3 3$:4> "),
    ("(a?b?)+;", "0^$/:1>01 1^$/:2>01 "),
    ("(a|b)*abb;", "0^:1>012 1^:2>012 2^:1>3 3:2>4 4$/:2> "),
    ("((a*b)+c?)*;", "0^:1>01 1^$/:2>012 2$/:3>01 "),
    ("[a-c] [b-d];", "0^:12>1 1$/:23> "),
    ("a; bc;", "0^$/:1> 1^:2>2 2$/:3> "),
];

#[test]
fn marks(rt: HostRuntime) {
    for row in &MARKS {
        let (text, form) = *row;
        assert!(rt; text.len() < 1000);
        let (found, categories) = positions_in(&rt, rt.alloc(), text);
        assert!(rt;
            are_shown(&found, categories, form.as_bytes()),
            "in {text:?}"
        );
    }
}

/// The leaves of `!!chain; a; ^b {7}; c/d {3};` and their rules.
const LEAVES: [(u32, u32); 4] = [(0, 0), (1, 1), (2, 2), (3, 2)];

/// The rules: whether each is chained into, its tag and its look-ahead rule.
const RULES: [(u32, bool, Option<u32>, Option<u32>); 3] = [
    (0, true, None, None),
    (1, false, Some(7), None),
    (2, true, Some(3), Some(0)),
];

#[test]
fn rules(rt: HostRuntime) {
    let (found, _categories) = positions_in(&rt, rt.alloc(), "!!chain; a; ^b {7}; c/d {3};");
    assert!(rt; found.leaves() == 4 && found.rules() == 3);
    for row in &LEAVES {
        assert!(rt; row.0 < found.leaves());
        assert!(rt; found.rule(row.0) == row.1, "of leaf {}", row.0);
    }
    for row in &RULES {
        let rule = row.0;
        assert!(rt; rule < found.rules());
        assert!(rt; found.chained_into(rule) == row.1, "of {rule}");
        assert!(rt;
            found.tag(rule) == row.2 && found.slash(rule) == row.3,
            "of {rule}"
        );
    }
}
