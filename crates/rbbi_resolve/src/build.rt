//! The trees of expressions, with the sets of their leaves.
ghost use Rattle.std.specs.Prelude.{◌≡◌, ◌+◌, ◌<◌, ◌≤◌, ℕ, [], ◌∷◌, Option, Some, IfOk, IfSome};
ghost use Rattle.std.specs.Prelude.{IfNone, OnOk, length, map, slice_get};
ghost use Rattle.rbbi_model.specs.SetTrees as model;
ghost use Rattle.rbbi_classes.specs.Classes.{ClassBits};
ghost use Rattle.rbbi_tree.specs.Trees.{ExprTree};
ghost use Rattle.rbbi_tree.specs.Values.{statement_trees, expr_tree, seq_tree, item_tree};
ghost use Rattle.rbbi_tree.specs.Values.{atom_tree};
ghost use Rattle.rbbi_resolve.specs.Expressions.{word_of, leaf_of, meaning_of_expr, meaning_of_seq};
ghost use Rattle.rbbi_resolve.specs.Expressions.{meaning_of_item, meaning_of_atom};
ghost use Rattle.rbbi_resolve.specs.Expressions.{height_of_expr, height_of_seq, height_of_item};
ghost use Rattle.rbbi_resolve.specs.Expressions.{height_of_atom};
ghost use Rattle.rbbi_resolve.specs.inner.Contexts.{context_of, division_of, files_of};
ghost use Rattle.rbbi_resolve.specs.inner.Contexts.{IsAssigned, IsWritten};
ghost use Rattle.rbbi_resolve.specs.inner.OwnLeaves.{leaves_of_expr, leaves_of_seq, leaves_of_item};
ghost use Rattle.rbbi_resolve.specs.inner.OwnLeaves.{leaves_of_atom, IsLawfulRow};
ghost use Rattle.rbbi_resolve.specs.inner.Builders.{StandFrom, Builds, IsBuilder};
ghost use Rattle.rbbi_resolve.specs.inner.Builders.{AddsTree, Extends, IsReady};

use crate::context::Context;
use crate::rules::Tree;
use crate::summary::count_of;
use crate::tree::{in_choice, in_sequence, leaf_of_set, repeat_last};
use crate::variables::Kind;
use rbbi_classes::ClassSet;
use rbbi_text::Word;
use rbbi_tree::{Atom, Expr, Item, Seq, Statement, Statements};
use std::alloc::{AllocError, Global};

/// The most sets that have a number.
const MOST_SETS: usize = 4_294_967_295;

/// The leaves of a file.
#[derive(Clone, Copy)]
pub(crate) struct FileLeaves<'a> {
    /// Of each leaf its value by classes, where it has one.
    pub(crate) rows: &'a Vec<Option<ClassSet>>,
    /// For each statement the number of its first leaf.
    pub(crate) firsts: &'a Vec<usize>,
}

/// The sets of the leaves so far.
///
/// A leaf's set is added when a tree with it is built first, and each use of the variable that it
/// stands in has its number.
#[derive(Drop)]
pub(crate) struct Builder {
    /// For each leaf of the file the number of its set, where it has one.
    pub(crate) numbers: Vec<Option<u32>>,
    /// Of each set its classes.
    pub(crate) rows: Vec<ClassSet>,
}

impl Builder {
    /// A builder before the first rule.
    pub(crate) fn new(alloc: Global, leaves: &FileLeaves) -> Result<Builder, AllocError>
        ensures builder { IfOk result (λ builder. (context : Context) →
            IsBuilder context leaves.now builder) }
        ensures empty { IfOk result (λ builder. builder.rows.items ≡ []) }
    {
        Ok(Builder {
            numbers: vec![in alloc; None; leaves.rows.len()]?,
            rows: Vec::new(alloc),
        })
    }

    /// The number of the set of a leaf, which is added on the first call.
    fn number_of(
        &mut self,
        context: &Context,
        leaves: &FileLeaves,
        place: usize,
    ) -> Result<u32, AllocError>
        requires builder { IsBuilder context.now leaves.now self.old }
        requires row { IsLawfulRow (division_of context.now)
            (slice_get leaves.now.rows.now.items place) }
        ensures on { OnOk result (Extends context.now leaves.now self.old self.new) }
        ensures number { IfOk result (λ number. (row : ClassBits) → slice_get leaves.now.rows.now.items
            place ≡ Some (Some row) → slice_get self.new.rows.items number ≡ Some row) }
        ensures fresh { IfOk result (λ number. (k : ℕ) → length self.old.rows.items ≤ k
            → k < length self.new.rows.items → k ≡ number) }
    {
        if let Some(number) = self.numbers[place] {
            return Ok(number);
        }
        let Some(row) = &leaves.rows[place] else {
            unreachable!()
        };
        if self.rows.len() >= MOST_SETS {
            return Err(AllocError);
        }
        let number = self.rows.len() as u32;
        self.rows.push(row.clone()?)?;
        self.numbers[place] = Some(number);
        Ok(number)
    }

    /// Adds the tree of the leaf with the number `next` to `trees`.
    #[inline(never)]
    fn add_leaf(
        &mut self,
        context: &Context,
        leaves: &FileLeaves,
        next: &mut usize,
        trees: &mut Vec<Tree>,
    ) -> Result<(), AllocError>
        requires builder { IsBuilder context.now leaves.now self.old }
        requires stand { (value : Option model.SetTree)
            × StandFrom context.now leaves.now next.old (value ∷ []) }
        ensures on { OnOk result (Extends context.now leaves.now self.old self.new) }
        ensures moved { OnOk result (next.new ≡ next.old + 1) }
        ensures added { OnOk result ((value : Option model.SetTree)
            → StandFrom context.now leaves.now next.old (value ∷ []) → AddsTree
            context.now self.old self.new (leaf_of value) trees.old.items trees.new.items) }
    {
        let number = self.number_of(context, leaves, *next)?;
        *next += 1;
        trees.push(leaf_of_set(number))?;
        Ok(())
    }

    /// Adds the tree of a quoted sequence.
    #[inline(never)]
    fn add_word(
        &mut self,
        context: &Context,
        leaves: &FileLeaves,
        next: &mut usize,
        trees: &mut Vec<Tree>,
        word: &Word,
    ) -> Result<(), AllocError>
        requires builder { IsBuilder context.now leaves.now self.old }
        requires stand { StandFrom context.now leaves.now next.old
            (map (λ c. Some (model.Character c)) word.now) }
        ensures on { OnOk result (Extends context.now leaves.now self.old self.new) }
        ensures moved { OnOk result (next.new ≡ next.old + length word.now) }
        ensures added { OnOk result (AddsTree context.now self.old self.new (word_of word.now)
            trees.old.items trees.new.items) }
    {
        let first = trees.len();
        for _ in 0..count_of(word) {
            self.add_leaf(context, leaves, next, trees)?;
        }
        in_sequence(trees, first)?;
        Ok(())
    }

    /// Adds the tree of a variable that is a set: the leaf of the statement that writes the set,
    /// however long the chain of names is that leads there.
    #[inline(never)]
    fn add_set(
        &mut self,
        context: &Context,
        leaves: &FileLeaves,
        writer: usize,
        trees: &mut Vec<Tree>,
    ) -> Result<(), AllocError>
        requires ready { IsReady context.now leaves.now }
        requires builder { IsBuilder context.now leaves.now self.old }
        requires written { (value : Option model.SetTree) × IsWritten (files_of context.now)
            (statement_trees context.now.statements.now) writer value }
        ensures on { OnOk result (Extends context.now leaves.now self.old self.new) }
        ensures added { OnOk result ((value : Option model.SetTree) → IsWritten
            (files_of context.now) (statement_trees context.now.statements.now) writer value →
            AddsTree context.now self.old self.new (leaf_of value) trees.old.items
            trees.new.items) }
    {
        let mut next = leaves.firsts[writer];
        self.add_leaf(context, leaves, &mut next, trees)?;
        Ok(())
    }

    /// Adds the tree of the expression that the statement with the number `limit` assigns, which is
    /// no set.
    #[cycle(build)]
    fn add_definition(
        &mut self,
        alloc: Global,
        context: &Context,
        leaves: &FileLeaves,
        trees: &mut Vec<Tree>,
    ) -> Result<(), AllocError>
        requires ready { IsReady context.now leaves.now }
        requires builder { IsBuilder context.now leaves.now self.old }
        requires inside { context.now.limit < length context.now.statements.now }
        requires low { (expr : ExprTree) → IsAssigned (statement_trees context.now.statements.now)
            context.now.limit expr → height_of_expr (context_of context.now) expr ≤ 256 }
        ensures on { OnOk result (Extends context.now leaves.now self.old self.new) }
        ensures added { OnOk result ((expr : ExprTree)
            → IsAssigned (statement_trees context.now.statements.now) context.now.limit expr
            → AddsTree context.now self.old self.new
            (meaning_of_expr (context_of context.now) expr) trees.old.items trees.new.items) }
    {
        match assigned(context.statements, context.limit) {
            Some(expr) => {
                let mut next = leaves.firsts[context.limit];
                self.add_expr(alloc, context, leaves, &mut next, trees, expr)?;
                Ok(())
            }
            None => Ok(()),
        }
    }

    /// Adds the tree of an expression whose leaves have the numbers from `next` on.
    ///
    /// Each group and each variable that is no set adds 1 to the height, of which a rule has 256 at
    /// most. So at most 257 expressions are open at once, each in five calls or fewer. Trees are
    /// handed on in a list, and what takes them from there isn't inlined, so that the frames stay
    /// small.
    #[cycle(build)]
    fn add_expr(
        &mut self,
        alloc: Global,
        context: &Context,
        leaves: &FileLeaves,
        next: &mut usize,
        trees: &mut Vec<Tree>,
        expr: &Expr,
    ) -> Result<(), AllocError>
        requires ready { IsReady context.now leaves.now }
        requires builder { IsBuilder context.now leaves.now self.old }
        requires stand { StandFrom context.now leaves.now next.old
            (leaves_of_expr (context_of context.now) (expr_tree expr.now)) }
        requires low { height_of_expr (context_of context.now) (expr_tree expr.now) ≤ 256 }
        ensures on { OnOk result (Extends context.now leaves.now self.old self.new) }
        ensures moved { OnOk result (next.new ≡ next.old
            + length (leaves_of_expr (context_of context.now) (expr_tree expr.now))) }
        ensures added { OnOk result (AddsTree context.now self.old self.new
            (meaning_of_expr (context_of context.now) (expr_tree expr.now)) trees.old.items
            trees.new.items) }
    {
        let first = trees.len();
        for seq in &expr.items {
            self.add_seq(alloc, context, leaves, next, trees, seq)?;
        }
        in_choice(trees, first)?;
        Ok(())
    }

    /// Adds the tree of a sequence.
    #[cycle(build)]
    fn add_seq(
        &mut self,
        alloc: Global,
        context: &Context,
        leaves: &FileLeaves,
        next: &mut usize,
        trees: &mut Vec<Tree>,
        seq: &Seq,
    ) -> Result<(), AllocError>
        requires ready { IsReady context.now leaves.now }
        requires builder { IsBuilder context.now leaves.now self.old }
        requires stand { StandFrom context.now leaves.now next.old
            (leaves_of_seq (context_of context.now) (seq_tree seq.now)) }
        requires low { height_of_seq (context_of context.now) (seq_tree seq.now) ≤ 256 }
        ensures on { OnOk result (Extends context.now leaves.now self.old self.new) }
        ensures moved { OnOk result (next.new ≡ next.old
            + length (leaves_of_seq (context_of context.now) (seq_tree seq.now))) }
        ensures added { OnOk result (AddsTree context.now self.old self.new
            (meaning_of_seq (context_of context.now) (seq_tree seq.now)) trees.old.items
            trees.new.items) }
    {
        let first = trees.len();
        for item in &seq.items {
            self.add_item(alloc, context, leaves, next, trees, item)?;
        }
        in_sequence(trees, first)?;
        Ok(())
    }

    /// Adds the tree of an item.
    #[cycle(build)]
    fn add_item(
        &mut self,
        alloc: Global,
        context: &Context,
        leaves: &FileLeaves,
        next: &mut usize,
        trees: &mut Vec<Tree>,
        item: &Item,
    ) -> Result<(), AllocError>
        requires ready { IsReady context.now leaves.now }
        requires builder { IsBuilder context.now leaves.now self.old }
        requires stand { StandFrom context.now leaves.now next.old
            (leaves_of_item (context_of context.now) (item_tree item.now)) }
        requires low { height_of_item (context_of context.now) (item_tree item.now) ≤ 256 }
        ensures on { OnOk result (Extends context.now leaves.now self.old self.new) }
        ensures moved { OnOk result (next.new ≡ next.old
            + length (leaves_of_item (context_of context.now) (item_tree item.now))) }
        ensures added { OnOk result (AddsTree context.now self.old self.new
            (meaning_of_item (context_of context.now) (item_tree item.now)) trees.old.items
            trees.new.items) }
    {
        self.add_atom(alloc, context, leaves, next, trees, &item.atom)?;
        repeat_last(alloc, item.quant, trees)?;
        Ok(())
    }

    /// Adds the tree of an atom.
    #[cycle(build)]
    fn add_atom(
        &mut self,
        alloc: Global,
        context: &Context,
        leaves: &FileLeaves,
        next: &mut usize,
        trees: &mut Vec<Tree>,
        atom: &Atom,
    ) -> Result<(), AllocError>
        requires ready { IsReady context.now leaves.now }
        requires builder { IsBuilder context.now leaves.now self.old }
        requires stand { StandFrom context.now leaves.now next.old
            (leaves_of_atom (context_of context.now) (atom_tree atom.now)) }
        requires low { height_of_atom (context_of context.now) (atom_tree atom.now) ≤ 256 }
        ensures on { OnOk result (Extends context.now leaves.now self.old self.new) }
        ensures moved { OnOk result (next.new ≡ next.old
            + length (leaves_of_atom (context_of context.now) (atom_tree atom.now))) }
        ensures added { OnOk result (AddsTree context.now self.old self.new
            (meaning_of_atom (context_of context.now) (atom_tree atom.now)) trees.old.items
            trees.new.items) }
    {
        match atom {
            Atom::Char { .. } | Atom::Any | Atom::Prop { .. } | Atom::Set(_) => Ok(self.add_leaf(
                context, leaves, next, trees,
            )?),
            Atom::Quoted(word) => Ok(self.add_word(context, leaves, next, trees, word)?),
            Atom::Name(name) => match context.variable(name) {
                Some(variable) => match &variable.kind {
                    Kind::Set(_, writer) => Ok(self.add_set(context, leaves, *writer, trees)?),
                    Kind::Expression(_) => {
                        let inner = Context {
                            limit: variable.statement,
                            ..*context
                        };
                        self.add_definition(alloc, &inner, leaves, trees)?;
                        Ok(())
                    }
                },
                None => {
                    // A choice of nothing.
                    let first = trees.len();
                    Ok(in_choice(trees, first)?)
                }
            },
            Atom::Group(inner) => Ok(self.add_expr(alloc, context, leaves, next, trees, inner)?),
        }
    }

    /// The tree of an expression whose leaves have the numbers from `next` on.
    pub(crate) fn tree_of_expr(
        &mut self,
        alloc: Global,
        context: &Context,
        leaves: &FileLeaves,
        next: &mut usize,
        expr: &Expr,
    ) -> Result<Tree, AllocError>
        requires ready { IsReady context.now leaves.now }
        requires builder { IsBuilder context.now leaves.now self.old }
        requires stand { StandFrom context.now leaves.now next.old
            (leaves_of_expr (context_of context.now) (expr_tree expr.now)) }
        requires low { height_of_expr (context_of context.now) (expr_tree expr.now) ≤ 256 }
        ensures on { OnOk result (Extends context.now leaves.now self.old self.new) }
        ensures moved { OnOk result (next.new ≡ next.old
            + length (leaves_of_expr (context_of context.now) (expr_tree expr.now))) }
        ensures built { IfOk result (Builds context.now self.old self.new
            (meaning_of_expr (context_of context.now) (expr_tree expr.now))) }
    {
        let mut trees = Vec::new(alloc);
        self.add_expr(alloc, context, leaves, next, &mut trees, expr)?;
        match trees.pop() {
            Some(tree) => Ok(tree),
            None => unreachable!(),
        }
    }
}

/// The expression that a statement assigns, if it is an assignment.
fn assigned(statements: &Statements, number: usize) -> Option<&Expr>
    requires { number < length statements.now }
    ensures some { IfSome result (λ expr. IsAssigned (statement_trees statements.now) number
        (expr_tree expr.now)) }
    ensures none { IfNone result ((expr : ExprTree) →
        IsAssigned (statement_trees statements.now) number expr → ⊥) }
{
    match statements.get(number) {
        Statement::Assign { expr, .. } => Some(expr),
        _ => None,
    }
}
