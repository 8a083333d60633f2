//! Nullable trees: those that spell the empty list.
ghost use Rattle.std.specs.Prelude.{◌≡◌, List};
ghost use Rattle.rbbi_model.specs.Ranges.{Range};
ghost use Rattle.rbbi_resolve.specs.RuleTrees.{tree_of};
ghost use Rattle.rbbi_positions.specs.inner.Trees.{is_nullable};

use rbbi_resolve::Tree;
use rbbi_tree::Quant;

/// Whether the tree is nullable. One call a level, at most 257.
pub(crate) fn is_empty(tree: &Tree) -> bool
    ensures { (sets : List (List Range)) → result ≡ is_nullable (tree_of sets tree.now) }
{
    match tree {
        Tree::Leaf(_) => false,
        Tree::Seq(parts) => {
            for part in &parts.items {
                if !is_empty(part) {
                    return false;
                }
            }
            true
        }
        Tree::Alt(parts) => {
            for part in &parts.items {
                if is_empty(part) {
                    return true;
                }
            }
            false
        }
        Tree::Rep(quant, part) => match quant {
            Quant::Once => is_empty(part),
            Quant::Star => true,
            Quant::Plus => is_empty(part),
            Quant::Quest => true,
        },
    }
}
