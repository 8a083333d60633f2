//! The syntax trees of a rule file. At most 64 brackets are open at once, so at most 65 expressions
//! or sets stand in one another.
ghost use Rattle.std.specs.Prelude.{◌≡◌, ◌<◌, length, slice_get};

use rbbi_text::Word;
use std::marker::Model;

/// Alternatives: one sequence, or several with `|` between them.
#[derive(Drop)]
#[cycle(syntax)]
pub struct Expr {
    pub items: Vec<Seq>,
}

/// Items that follow one another, at least one.
#[derive(Drop)]
#[cycle(syntax)]
pub struct Seq {
    pub items: Vec<Item>,
}

/// An atom, how often it stands, and its place: that of its first token, in characters from 0.
#[derive(Drop)]
#[cycle(syntax)]
pub struct Item {
    pub place: u32,
    pub atom: Atom,
    pub quant: Quant,
}

/// What stands at one place of a sequence.
#[derive(Drop)]
#[cycle(syntax)]
pub enum Atom {
    /// A character that stands for itself. It is bare where it is written without a quote or an
    /// escape.
    Char {
        c: char,
        bare: bool,
    },
    /// A quoted sequence: the characters between its quotes, at least one.
    Quoted(Word),
    /// `.`, any character.
    Any,
    /// A variable, its name without `$`.
    Name(Word),
    /// The characters that have a property, or those that don't where it is negated.
    Prop {
        negated: bool,
        name: Word,
        value: Option<Word>,
    },
    /// A set of characters.
    Set(SetExpr),
    /// Alternatives in round brackets.
    Group(Expr),
}

/// How often an atom stands.
#[derive(Clone, Copy, PartialEq, Eq)]
pub enum Quant {
    /// Once, where nothing follows the atom.
    Once,
    /// `*`, any number of times.
    Star,
    /// `+`, once or more.
    Plus,
    /// `?`, once or not at all.
    Quest,
}

/// A set in square brackets, and the place of its bracket, in characters from 0.
///
/// Its value is found from the left, starting empty, each part joined in turn; a negated set is the
/// complement of that.
#[derive(Drop)]
#[cycle(sets)]
pub struct SetExpr {
    pub place: u32,
    pub negated: bool,
    pub parts: Parts,
}

/// The parts of a set, from left to right.
#[derive(Drop)]
#[cycle(sets)]
pub struct Parts {
    pub items: Vec<SetPart>,
}

/// A part of a set: how it is joined with what stands before it, and its place, that of its item's
/// first token in characters from 0.
#[derive(Drop)]
#[cycle(sets)]
pub struct SetPart {
    pub place: u32,
    pub join: Join,
    pub item: SetItem,
}

/// How a part of a set is joined with what stands before it.
#[derive(Clone, Copy, PartialEq, Eq)]
pub enum Join {
    /// Its members are added.
    Add,
    /// `&`: only what it has too is kept.
    Both,
    /// `-`: its members are taken away.
    Minus,
}

/// What is joined to a set.
#[derive(Drop)]
#[cycle(sets)]
pub enum SetItem {
    /// A character.
    Char(char),
    /// The characters from one to another.
    Range(char, char),
    /// A variable, its name without `$`.
    Name(Word),
    /// The characters that have a property, or those that don't where it is negated.
    Prop {
        negated: bool,
        name: Word,
        value: Option<Word>,
    },
    /// A set within the set.
    Set(SetExpr),
}

/// A statement of a rule file. Places are in characters from 0.
#[derive(Drop)]
pub enum Statement {
    /// A `;` with nothing before it.
    Nothing,
    /// A control, its name without `!!`, and its place.
    Control {
        name: Word,
        place: u32,
    },
    /// A variable, its name without `$`, its place, and what it stands for.
    Assign {
        name: Word,
        place: u32,
        expr: Expr,
    },
    /// A rule: the place of its first token; whether a `^` stands first; what it matches, up to the
    /// `/` where there is one; the place of the `/` and what stands after it, which come together;
    /// and its status.
    Rule {
        place: u32,
        no_chain_in: bool,
        front: Expr,
        slash: Option<u32>,
        rest: Option<Expr>,
        tag: Option<u32>,
    },
}

/// The statements of a rule file, from first to last. Contracts see it as their list.
#[derive(Drop)]
pub struct Statements {
    items: Vec<Statement>,
}

impl Model for Statements {
    ghost use Rattle.std.specs.Prelude.{List};
    ghost use Rattle.std.specs.Coded.{codes};
    ghost use Rattle.rbbi_tree.specs.declared.syntax.Statement.{Statement};
    ghost use Rattle.rbbi_tree.specs.contracts.syntax.Statement as statement;

    ghost Value = { List Statement };

    ghost coded = { Prim.hlevel (codes, statement.the_row.coded) };

    ghost view = { λ statements. statements.items.items };
}

impl Statements {
    /// These statements.
    pub(crate) fn from_vec(items: Vec<Statement>) -> Statements
        ensures { result ≡ items.items }
    {
        Statements { items }
    }

    /// The number of statements.
    pub fn len(&self) -> usize
        ensures { result ≡ length self.now }
    {
        self.items.len()
    }

    /// The statement with this number, from 0.
    pub fn get(&self, i: usize) -> &Statement
        requires { i < length self.now }
        ensures { slice_get self.now i ≡ Some result.now }
    {
        &self.items[i]
    }
}
