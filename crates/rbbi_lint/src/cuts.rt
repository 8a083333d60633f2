//! Look-ahead rules that may cut later than meant.
//!
//! A look-ahead rule cuts at the last end of its front before it is complete. Where the front has
//! several lengths and may end with a character by which the rest may begin, that end can lie within
//! what the rest was to match.

use crate::empty::spells_empty;
use rbbi_resolve::{Rule, Rules, SetList, Tree};
use std::alloc::{AllocError, Global};

/// An end of what a tree matches.
#[derive(Clone, Copy, PartialEq, Eq)]
enum Edge {
    First,
    Last,
}

/// The length of all that a tree matches, in characters, if it is one. One call a level, at most
/// 257.
fn length_of(tree: &Tree) -> Option<u32> {
    match tree {
        Tree::Leaf(_) => Some(1),
        Tree::Seq(parts) => {
            let mut sum = 0u32;
            for part in &parts.items {
                sum = sum.saturating_add(length_of(part)?);
            }
            Some(sum)
        }
        Tree::Alt(parts) => {
            let mut common = None;
            for part in &parts.items {
                let length = length_of(part)?;
                if common.unwrap_or(length) != length {
                    return None;
                }
                common = Some(length);
            }
            common
        }
        Tree::Rep(_, _) => None,
    }
}

/// Adds the sets of the leaves by which a match of a tree may begin, or may end. One call a level,
/// at most 257.
fn push_edges(tree: &Tree, edge: Edge, sets: &mut Vec<u32>) -> Result<(), AllocError> {
    match tree {
        Tree::Leaf(set) => sets.push(*set)?,
        Tree::Seq(parts) => {
            let before = sets.len();
            for part in &parts.items {
                let is_needed = !spells_empty(part);
                if is_needed && edge == Edge::Last {
                    sets.truncate(before);
                }
                push_edges(part, edge, sets)?;
                if is_needed && edge == Edge::First {
                    break;
                }
            }
        }
        Tree::Alt(parts) => {
            for part in &parts.items {
                push_edges(part, edge, sets)?;
            }
        }
        Tree::Rep(_, part) => push_edges(part, edge, sets)?,
    }
    Ok(())
}

/// Whether two sets of this list have a character in common.
fn meet(sets: &SetList, one: u32, other: u32) -> bool {
    let (division, rows) = sets.by_classes();
    let (Some(one), Some(other)) = (rows.get(one as usize), rows.get(other as usize)) else {
        return false;
    };
    let words = division.layout().last_class() / 64;
    for i in 0..words.saturating_add(1) {
        if one.word(i) & other.word(i) != 0 {
            return true;
        }
    }
    false
}

/// Whether one of some sets has a character in common with one of others.
fn some_meet(sets: &SetList, ones: &[u32], others: &[u32]) -> bool {
    for one in ones {
        for other in others {
            if meet(sets, *one, *other) {
                return true;
            }
        }
    }
    false
}

/// Whether a rule is a look-ahead rule that may cut later than meant.
fn may_cut_late(alloc: Global, rule: &Rule, sets: &SetList) -> Result<bool, AllocError> {
    let Some(rest) = &rule.rest else {
        return Ok(false);
    };
    if length_of(&rule.front).is_some() {
        return Ok(false);
    }
    let mut lasts = Vec::new(alloc);
    let mut firsts = Vec::new(alloc);
    push_edges(&rule.front, Edge::Last, &mut lasts)?;
    push_edges(rest, Edge::First, &mut firsts)?;
    Ok(some_meet(sets, lasts.as_slice(), firsts.as_slice()))
}

/// The places of the look-ahead rules whose front has several lengths and may end with a character
/// by which the rest may begin.
pub(crate) fn late_cuts(alloc: Global, rules: &Rules) -> Result<Vec<u32>, AllocError> {
    let mut places = Vec::new(alloc);
    for i in 0..rules.len() {
        let rule = rules.get(i);
        if may_cut_late(alloc, rule, rules.sets())? {
            places.push(rule.place)?;
        }
    }
    Ok(places)
}
