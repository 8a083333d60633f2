//! The number of leaves of a tree.
ghost use Rattle.std.specs.Prelude.{◌≡◌, ◌≤◌, List};
ghost use Rattle.rbbi_model.specs.Ranges.{Range};
ghost use Rattle.rbbi_model.specs.Rules.{leaf_count};
ghost use Rattle.rbbi_resolve.specs.RuleTrees.{tree_of};

use rbbi_resolve::Tree;

/// The number of leaves. One call a level, at most 257.
pub(crate) fn count(tree: &Tree) -> usize
    requires { (sets : List (List Range)) → leaf_count (tree_of sets tree.now) ≤ 8192 }
    ensures { (sets : List (List Range)) → result ≡ leaf_count (tree_of sets tree.now) }
{
    match tree {
        Tree::Leaf(_) => 1,
        Tree::Seq(parts) => {
            let mut leaves = 0;
            for part in &parts.items {
                leaves += count(part);
            }
            leaves
        }
        Tree::Alt(parts) => {
            let mut leaves = 0;
            for part in &parts.items {
                leaves += count(part);
            }
            leaves
        }
        Tree::Rep(_, part) => count(part),
    }
}
