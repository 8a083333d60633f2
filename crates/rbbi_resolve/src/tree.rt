//! Trees of parts.
ghost use Rattle.std.specs.Prelude.{◌≡◌, ◌<◌, ◌≤◌, List, [], ◌∷◌, ◌++◌, map, OnOk, vec_len};
ghost use Rattle.std.specs.List.{flat_map};
ghost use Rattle.rbbi_model.specs.Ranges.{Range};
ghost use Rattle.rbbi_model.specs.Spelling as spelling;
ghost use Rattle.rbbi_resolve.specs.RuleTrees.{tree_of, numbers_of, set_at, repeated};
ghost use Rattle.rbbi_resolve.specs.inner.Builders.{IsJoined, JoinsFrom};

use crate::rules::{Tree, Trees};
use rbbi_tree::Quant;
use std::alloc::{AllocError, Global};

/// The leaf of the set with this number.
pub(crate) fn leaf_of_set(number: u32) -> Tree
    ensures tree { (sets : List (List Range)) →
        tree_of sets result ≡ spelling.Leaf (set_at sets number) }
    ensures numbers { numbers_of result ≡ number ∷ [] }
{
    Tree::Leaf(number)
}

/// Makes the trees after the first ones one tree: they follow one another. One stays as it is.
#[inline(never)]
pub(crate) fn in_sequence(trees: &mut Vec<Tree>, first: usize) -> Result<(), AllocError>
    requires { first ≤ vec_len trees.old }
    ensures { OnOk result (JoinsFrom spelling.sequence_of first trees.old.items trees.new.items) }
{
    if trees.len() - first == 1 {
        return Ok(());
    }
    let items = trees.split_off(first)?;
    trees.push(Tree::Seq(Trees { items }))?;
    Ok(())
}

/// Makes the trees after the first ones one tree: one of them, and no tree if there are none. One
/// stays as it is.
#[inline(never)]
pub(crate) fn in_choice(trees: &mut Vec<Tree>, first: usize) -> Result<(), AllocError>
    requires { first ≤ vec_len trees.old }
    ensures { OnOk result (JoinsFrom spelling.choice_of first trees.old.items trees.new.items) }
{
    if trees.len() - first == 1 {
        return Ok(());
    }
    let items = trees.split_off(first)?;
    trees.push(Tree::Alt(Trees { items }))?;
    Ok(())
}

/// Puts the repetition by the quantifier in the place of the last tree.
#[inline(never)]
pub(crate) fn repeat_last(
    alloc: Global,
    quant: Quant,
    trees: &mut Vec<Tree>,
) -> Result<(), AllocError>
    requires { 0 < vec_len trees.old }
    ensures { OnOk result
        ((before : List Tree) (part : Tree) → trees.old.items ≡ before ++ part ∷ [] → IsJoined
        (λ parts. repeated quant (spelling.sequence_of parts)) before (part ∷ []) trees.new.items) }
{
    match quant {
        Quant::Once => Ok(()),
        Quant::Star | Quant::Plus | Quant::Quest => {
            let Some(part) = trees.pop() else {
                unreachable!()
            };
            let part = Box::new(alloc, part)?;
            trees.push(Tree::Rep(quant, part))?;
            Ok(())
        }
    }
}
