//! The variables of a rule file.
ghost use Rattle.std.specs.Prelude.{◌≡◌, ◌≤◌};

use indexmap::IndexMap;
use rbbi_classes::ClassSet;

/// The cap of leaf counts: one more than rules may have.
pub(crate) const MANY_LEAVES: u32 = 8193;

/// The cap of heights: one more than a rule may have.
pub(crate) const TALL: u32 = 257;

/// What is kept of an expression: its number of leaves, at most `MANY_LEAVES`; its height, at most
/// `TALL`; and whether it spells the empty word.
#[derive(Clone, Copy)]
pub(crate) struct Summary {
    pub(crate) leaves: u32,
    pub(crate) height: u32,
    pub(crate) spells_empty: bool,
    ghost few_leaves: { leaves ≤ 8193 },
    ghost not_higher: { height ≤ 257 },
}

/// What a variable stands for.
#[derive(Drop)]
pub(crate) enum Kind {
    /// A set: its value, None where a variable or a part in it is faulty; and the number of the
    /// statement that writes it, where the others of a chain of names say the next name alone.
    Set(Option<ClassSet>, usize),
    /// An expression that is no set.
    Expression(Summary),
}

/// A variable, with the number of the statement that assigns it first.
#[derive(Drop)]
pub(crate) struct Variable {
    pub(crate) statement: usize,
    pub(crate) kind: Kind,
}

/// The variables so far, in the order of their assignments.
pub(crate) type Variables = IndexMap<String, Variable>;
