//! The positions that lists which a tree spells end with.
ghost use Rattle.std.specs.Prelude.{◌≡◌, ◌+◌, ◌*◌, ◌≤◌, ◌||◌, ℕ, List, length};
ghost use Rattle.rbbi_model.specs.Ranges.{Range};
ghost use Rattle.rbbi_model.specs.Rules.{leaf_count};
ghost use Rattle.rbbi_resolve.specs.RuleTrees.{tree_of};
ghost use Rattle.rbbi_bits.specs.BitRows.{row_bit};
ghost use Rattle.rbbi_positions.specs.inner.Trees.{ends};

use crate::count::count;
use crate::empty::is_empty;
use rbbi_bits::insert;
use rbbi_resolve::Tree;

/// Adds the last positions of a tree to a row. One call a level, at most 257.
pub(crate) fn add_lasts(tree: &Tree, first: usize, row: &mut [u64])
    requires short { length row.old ≤ 128 }
    requires within { (sets : List (List Range)) →
        first + leaf_count (tree_of sets tree.now) ≤ 64 * length row.old }
    ensures { (sets : List (List Range)) (position : ℕ) → row_bit row.new position
        ≡ (row_bit row.old position || ends (tree_of sets tree.now) first position) }
{
    match tree {
        Tree::Leaf(_) => insert(row, first),
        Tree::Seq(parts) => {
            let mut start = first + count(tree);
            for i in (0..parts.items.len()).rev() {
                let part = &parts.items[i];
                start -= count(part);
                add_lasts(part, start, row);
                if !is_empty(part) {
                    return;
                }
            }
        }
        Tree::Alt(parts) => {
            let mut start = first;
            for part in &parts.items {
                add_lasts(part, start, row);
                start += count(part);
            }
        }
        Tree::Rep(_, part) => add_lasts(part, first, row),
    }
}
