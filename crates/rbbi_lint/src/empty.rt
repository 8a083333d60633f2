//! Rules that can match the empty text.

use rbbi_resolve::{Rules, Tree};
use rbbi_tree::Quant;
use std::alloc::{AllocError, Global};

/// Whether a tree spells the empty word. One call a level, at most 257.
pub(crate) fn spells_empty(tree: &Tree) -> bool {
    match tree {
        Tree::Leaf(_) => false,
        Tree::Seq(parts) => {
            for part in &parts.items {
                if !spells_empty(part) {
                    return false;
                }
            }
            true
        }
        Tree::Alt(parts) => {
            for part in &parts.items {
                if spells_empty(part) {
                    return true;
                }
            }
            false
        }
        Tree::Rep(Quant::Star | Quant::Quest, _) => true,
        Tree::Rep(Quant::Once | Quant::Plus, part) => spells_empty(part),
    }
}

/// The places of the rules that can match the empty text. A look-ahead rule never can, since
/// neither its front nor its rest may.
pub(crate) fn empty_rules(alloc: Global, rules: &Rules) -> Result<Vec<u32>, AllocError> {
    let mut places = Vec::new(alloc);
    for i in 0..rules.len() {
        let rule = rules.get(i);
        if rule.rest.is_none() && spells_empty(&rule.front) {
            places.push(rule.place)?;
        }
    }
    Ok(places)
}
