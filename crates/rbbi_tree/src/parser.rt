//! The parser: what each token of a rule file makes of what was read before it.
mod ends;
mod sets;

ghost use Rattle.std.specs.Prelude.{◌≡◌, [], None, OnOk, IsTrue};
ghost use Rattle.rbbi_tree.specs.Values.{atom_tree, statement_trees};
ghost use Rattle.rbbi_tree.specs.inner.Statements.{after, between, begun, atom_read, advance};
ghost use Rattle.rbbi_tree.specs.inner.Statements.{at_atom};
ghost use Rattle.rbbi_tree.specs.inner.SetStates.{FollowsMachine};
ghost use Rattle.rbbi_tree.specs.inner.States.{progress, ReadsOutside};

use crate::copies::{copy_of, copy_of_option};
use crate::error::TreeErr;
use crate::level::Level;
use crate::set_level::{OuterSet, SetLevel};
use crate::syntax::{Atom, Expr, Item, Quant, Statement, Statements};
use rbbi_lex::{Token, TokenKind};
use rbbi_text::Word;
use std::alloc::{AllocError, Global};
use std::mem;

/// What was read of a statement before the expression that is being read. Places are in characters
/// from 0.
#[derive(Drop)]
enum Head {
    /// Nothing of a statement.
    Between,
    /// A name and an equals sign.
    Assign {
        name: Word,
        place: u32,
    },
    /// Perhaps a `^`, and the place of the rule's first token.
    Rule {
        place: u32,
        no_chain_in: bool,
    },
    /// Perhaps a `^`, the place of the rule's first token, its front, and the place of the `/`
    /// after it.
    Rest {
        place: u32,
        no_chain_in: bool,
        front: Expr,
        slash: u32,
    },
    /// The whole statement but its `;`.
    Whole(Statement),
}

/// A group that no bracket has closed yet.
#[derive(Drop)]
struct OpenGroup {
    /// The place of its bracket.
    place: u32,
    /// The expression that it stands in.
    outer: Level,
}

/// The sets that are open.
#[derive(Drop)]
struct OpenSets {
    innermost: SetLevel,
    /// The others, from the outermost on.
    outers: Vec<OuterSet>,
}

/// A rule file so far: a pushdown machine that builds trees.
///
/// The groups and sets stand in lists of their own and not on the call stack.
#[derive(Drop)]
pub struct Parser {
    /// The statements that ended.
    statements: Vec<Statement>,
    /// What came before the expression of a further statement.
    head: Head,
    /// The groups of that statement that are not closed, the outermost first.
    groups: Vec<OpenGroup>,
    /// The innermost expression.
    level: Level,
    /// The sets that are open there.
    sets: Option<OpenSets>,
}

impl Parser {
    /// A parser before the first token.
    pub fn new(alloc: Global) -> Parser
        ensures { progress result ≡ after [] }
    {
        Parser {
            statements: Vec::new(alloc),
            head: Head::Between,
            groups: Vec::new(alloc),
            level: Level::new(alloc),
            sets: None,
        }
    }

    /// Begins a rule at this place, where no statement has begun. No atom may follow a whole
    /// statement.
    fn begin(&mut self, place: u32) -> Result<(), TreeErr>
        ensures { let p = progress self.old in
            FollowsMachine place (begun place p.head p) (λ _. progress self.new) result }
    {
        let no_chain_in = false;
        match &self.head {
            Head::Between => self.head = Head::Rule { place, no_chain_in },
            Head::Assign { .. } | Head::Rule { .. } | Head::Rest { .. } => {}
            Head::Whole(_) => return Err(TreeErr::Syntax(place)),
        }
        Ok(())
    }

    /// Adds an atom that begins at this place.
    fn push_atom(&mut self, place: u32, atom: Atom) -> Result<(), AllocError>
        ensures { OnOk result
            (progress self.new ≡ atom_read place (atom_tree atom) (progress self.old)) }
    {
        let quant = Quant::Once;
        self.level.push(Item { place, atom, quant })
    }

    /// Reads an atom of one token.
    fn read_atom(&mut self, place: u32, atom: Atom) -> Result<(), TreeErr>
        ensures { FollowsMachine place (at_atom place (atom_tree atom) (progress self.old))
            (λ _. progress self.new) result }
    {
        self.begin(place)?;
        self.push_atom(place, atom)?;
        Ok(())
    }

    /// Reads an opening round bracket.
    fn begin_group(&mut self, alloc: Global, place: u32) -> Result<(), TreeErr>
        ensures { ReadsOutside TokenKind.ParenOpen place self.old result self.new }
    {
        self.begin(place)?;
        let outer = mem::replace(&mut self.level, Level::new(alloc));
        self.groups.push(OpenGroup { place, outer })?;
        Ok(())
    }

    /// Reads an opening square bracket, outside of sets.
    fn begin_set(&mut self, alloc: Global, place: u32) -> Result<(), TreeErr>
        ensures { ReadsOutside TokenKind.SetOpen place self.old result self.new }
    {
        self.begin(place)?;
        let innermost = SetLevel::new(alloc, place);
        let outers = Vec::new(alloc);
        self.sets = Some(OpenSets { innermost, outers });
        Ok(())
    }

    /// Reads a closing round bracket. It needs an item before it, and an open group.
    fn end_group(&mut self, place: u32) -> Result<(), TreeErr>
        ensures { ReadsOutside TokenKind.ParenClose place self.old result self.new }
    {
        if self.level.items.is_empty() {
            return Err(TreeErr::Syntax(place));
        }
        let Some(group) = self.groups.pop() else {
            return Err(TreeErr::Syntax(place));
        };
        let inner = mem::replace(&mut self.level, group.outer);
        let atom = Atom::Group(inner.into_expr()?);
        self.push_atom(group.place, atom)?;
        Ok(())
    }

    /// Reads a bar. It needs an item before it, and stands beside no slash.
    fn read_bar(&mut self, alloc: Global, place: u32) -> Result<(), TreeErr>
        ensures { ReadsOutside TokenKind.Bar place self.old result self.new }
    {
        let in_rest = self.groups.is_empty() && matches!(&self.head, Head::Rest { .. });
        if self.level.items.is_empty() || in_rest {
            return Err(TreeErr::Syntax(place));
        }
        self.level.end_sequence(alloc)?;
        Ok(())
    }

    /// Reads a slash. It needs a front of one sequence before it, and no open group.
    fn read_slash(&mut self, alloc: Global, slash: u32) -> Result<(), TreeErr>
        ensures { ReadsOutside TokenKind.Slash slash self.old result self.new }
    {
        let is_front = !self.level.items.is_empty() && self.level.sequences.is_empty();
        if !is_front || !self.groups.is_empty() {
            return Err(TreeErr::Syntax(slash));
        }
        let Head::Rule { place, no_chain_in } = self.head else {
            return Err(TreeErr::Syntax(slash));
        };
        let level = mem::replace(&mut self.level, Level::new(alloc));
        let front = level.into_expr()?;
        self.head = Head::Rest {
            place,
            no_chain_in,
            front,
            slash,
        };
        Ok(())
    }

    /// Reads a `^` outside of sets. It begins a rule.
    fn read_caret(&mut self, place: u32) -> Result<(), TreeErr>
        ensures { ReadsOutside TokenKind.Caret place self.old result self.new }
    {
        let Head::Between = &self.head else {
            return Err(TreeErr::Syntax(place));
        };
        let no_chain_in = true;
        self.head = Head::Rule { place, no_chain_in };
        Ok(())
    }

    /// Reads a control. It begins a statement.
    fn read_control(&mut self, alloc: Global, place: u32, name: &Word) -> Result<(), TreeErr>
        ensures { ReadsOutside (TokenKind.Control name.now) place self.old result self.new }
    {
        let Head::Between = &self.head else {
            return Err(TreeErr::Syntax(place));
        };
        let name = copy_of(alloc, name)?;
        self.head = Head::Whole(Statement::Control { name, place });
        Ok(())
    }

    /// Reads an equals sign. A name must be all that was read of the statement.
    fn read_equals(&mut self, alloc: Global, place: u32) -> Result<(), TreeErr>
        ensures { ReadsOutside TokenKind.Equals place self.old result self.new }
    {
        let Head::Rule {
            place: at,
            no_chain_in: false,
        } = self.head
        else {
            return Err(TreeErr::Syntax(place));
        };
        if !self.groups.is_empty() {
            return Err(TreeErr::Syntax(place));
        }
        let level = mem::replace(&mut self.level, Level::new(alloc));
        let name = level.into_name(place)?;
        self.head = Head::Assign { name, place: at };
        Ok(())
    }

    /// Reads a token outside of sets.
    fn read_outside(&mut self, alloc: Global, token: &Token) -> Result<(), TreeErr>
        ensures { ReadsOutside token.now.kind token.now.place self.old result self.new }
    {
        let place = token.place;
        match &token.kind {
            TokenKind::Semi => self.end_statement(alloc, place),
            TokenKind::Equals => self.read_equals(alloc, place),
            TokenKind::Bar => self.read_bar(alloc, place),
            TokenKind::Slash => self.read_slash(alloc, place),
            TokenKind::Caret => self.read_caret(place),
            TokenKind::Star => self.level.quantify(place, Quant::Star),
            TokenKind::Plus => self.level.quantify(place, Quant::Plus),
            TokenKind::Quest => self.level.quantify(place, Quant::Quest),
            TokenKind::Dot => self.read_atom(place, Atom::Any),
            TokenKind::ParenOpen => self.begin_group(alloc, place),
            TokenKind::ParenClose => self.end_group(place),
            TokenKind::SetOpen => self.begin_set(alloc, place),
            TokenKind::Char { c, bare } => {
                let atom = Atom::Char { c: *c, bare: *bare };
                self.read_atom(place, atom)
            }
            TokenKind::Quoted(word) => self.read_atom(place, Atom::Quoted(copy_of(alloc, word)?)),
            TokenKind::Name(name) => self.read_atom(place, Atom::Name(copy_of(alloc, name)?)),
            TokenKind::Control(name) => self.read_control(alloc, place, name),
            TokenKind::Tag(status) => self.read_tag(alloc, place, *status),
            TokenKind::Prop {
                negated,
                name,
                value,
            } => {
                let atom = Atom::Prop {
                    negated: *negated,
                    name: copy_of(alloc, name)?,
                    value: copy_of_option(alloc, value)?,
                };
                self.read_atom(place, atom)
            }
            _ => Err(TreeErr::Syntax(place)),
        }
    }

    /// Reads a token. Refuses `Syntax` at its place where no file can go on like this.
    pub fn read(&mut self, alloc: Global, token: &Token) -> Result<(), TreeErr>
        ensures { FollowsMachine token.now.place (advance token.now (progress self.old))
            (λ _. progress self.new) result }
    {
        match mem::replace(&mut self.sets, None) {
            None => self.read_outside(alloc, token),
            Some(sets) => self.read_inside(alloc, sets, token),
        }
    }

    /// Whether no statement has begun that did not end.
    pub fn is_between(&self) -> bool
        ensures is { IsTrue result → (progress self.now).head ≡ between }
        ensures not { (progress self.now).head ≡ between → IsTrue result }
    {
        matches!(&self.head, Head::Between)
    }

    /// The statements that ended.
    pub fn into_statements(self) -> Statements
        ensures { statement_trees result ≡ (progress self).statements }
    {
        Statements::from_vec(self.statements)
    }
}
