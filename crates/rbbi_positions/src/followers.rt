//! The positions that follow one another in lists which a tree spells. What may follow after a
//! tree is handed down, so that each row is written once.
ghost use Rattle.std.specs.Prelude.{◌≡◌, ◌+◌, ◌*◌, ◌<◌, ◌≤◌, ◌||◌, ℕ, List, length, OnOk, IfOk};
ghost use Rattle.rbbi_model.specs.Ranges.{Range};
ghost use Rattle.rbbi_model.specs.Rules.{leaf_count};
ghost use Rattle.rbbi_resolve.specs.RuleTrees.{tree_of};
ghost use Rattle.rbbi_bits.specs.BitRows.{row_bit};
ghost use Rattle.rbbi_positions.specs.inner.Rows.{in_row};
ghost use Rattle.rbbi_positions.specs.inner.Trees.{goes};
ghost use Rattle.rbbi_positions.specs.inner.Rounds.{behind_of};

use crate::count::count;
use crate::firsts::{add_firsts, lead};
use crate::row_union::unite_row;
use rbbi_resolve::Tree;
use rbbi_tree::Quant;
use std::alloc::{AllocError, Global};

/// Adds to the row of each position of a tree those that follow it, if `next` may follow the tree.
/// One call a level, at most 257.
pub(crate) fn add_followers(
    alloc: Global,
    tree: &Tree,
    first: usize,
    next: &[u64],
    followers: &mut [u64],
) -> Result<(), AllocError>
    requires short { length next.now ≤ 128 }
    requires within { (sets : List (List Range)) →
        first + leaf_count (tree_of sets tree.now) ≤ 64 * length next.now }
    requires rows { (sets : List (List Range)) →
        (first + leaf_count (tree_of sets tree.now)) * length next.now ≤ length followers.old }
    ensures { OnOk result ((sets : List (List Range)) (position other : ℕ)
        → other < 64 * length next.now → in_row (length next.now) followers.new position other
        ≡ (in_row (length next.now) followers.old position
        other || goes (tree_of sets tree.now) first position other (row_bit next.now other))) }
{
    match tree {
        Tree::Leaf(_) => unite_row(followers, first, next),
        Tree::Seq(parts) => {
            let mut row = next.to_vec(alloc)?;
            let mut start = first + count(tree);
            for i in (0..parts.items.len()).rev() {
                let part = &parts.items[i];
                start -= count(part);
                add_followers(alloc, part, start, &row, followers)?;
                lead(part, start, &mut row);
            }
        }
        Tree::Alt(parts) => {
            let mut start = first;
            for part in &parts.items {
                add_followers(alloc, part, start, next, followers)?;
                start += count(part);
            }
        }
        Tree::Rep(quant, part) => {
            let row = behind(alloc, *quant, part, first, next)?;
            add_followers(alloc, part, first, &row, followers)?;
        }
    }
    Ok(())
}

/// The row of what may follow a part that is repeated, if `next` may follow its last round.
fn behind(
    alloc: Global,
    quant: Quant,
    part: &Tree,
    first: usize,
    next: &[u64],
) -> Result<Vec<u64>, AllocError>
    requires short { length next.now ≤ 128 }
    requires within { (sets : List (List Range)) →
        first + leaf_count (tree_of sets part.now) ≤ 64 * length next.now }
    ensures many { IfOk result (λ row. length row.items ≡ length next.now) }
    ensures bits { IfOk result (λ row. (sets : List (List Range)) (position : ℕ) →
        row_bit row.items position
        ≡ behind_of quant (tree_of sets part.now) first position (row_bit next.now position)) }
{
    let mut row = next.to_vec(alloc)?;
    match quant {
        Quant::Once => {}
        Quant::Quest => {}
        Quant::Star => add_firsts(part, first, &mut row),
        Quant::Plus => add_firsts(part, first, &mut row),
    }
    Ok(row)
}
