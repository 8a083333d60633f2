//! The rules of a file: their sets, and the tree of one.
use crate::forms::{after, after_number};
use crate::resolved::rules_in;
use rbbi_resolve::Tree;

/// What follows the short form of a tree: the numbers of the sets of its leaves, its parts between
/// brackets with a dot after each, and `*` before what is repeated.
#[cycle(shape)]
fn after_tree<'a>(form: &'a [u8], tree: &Tree) -> Option<&'a [u8]> {
    match tree {
        Tree::Leaf(number) => after_number(form, *number),
        Tree::Seq(parts) => after(after_parts(after(form, b'(')?, &parts.items)?, b')'),
        Tree::Alt(parts) => after(after_parts(after(form, b'[')?, &parts.items)?, b']'),
        Tree::Rep(_, part) => after_tree(after(form, b'*')?, part),
    }
}

#[cycle(shape)]
fn after_parts<'a>(form: &'a [u8], parts: &Vec<Tree>) -> Option<&'a [u8]> {
    let mut rest = form;
    for part in parts {
        rest = after(after_tree(rest, part)?, b'.')?;
    }
    Some(rest)
}

const TEXT: &str = "$s = [ab]; $v = $s (x | 'yz')?; $v $v;";

#[test]
fn trees(rt: HostRuntime) {
    assert!(rt; TEXT.len() < 1000);
    let rules = rules_in(&rt, rt.alloc(), TEXT);
    assert!(rt; rules.len() == 1);
    let form = b"((0.*[1.(2.3.).].).(0.*[1.(2.3.).].).)";
    assert!(rt; after_tree(form, &rules.get(0).front) == Some(&[]));
}

const SETS: &str = "$v = [ab] x; $v $v | $v+; b / c;";

#[test]
fn sets(rt: HostRuntime) {
    assert!(rt; SETS.len() < 1000);
    let rules = rules_in(&rt, rt.alloc(), SETS);
    assert!(rt; rules.len() == 2 && rules.slashes() == 1);
    assert!(rt; rules.leaves() == 8 && rules.sets().len() == 4);
}
