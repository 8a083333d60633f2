//! What ends a statement: a tag, and a semicolon.
ghost use Rattle.std.specs.Prelude.{◌≡◌, OnOk};
ghost use Rattle.rbbi_lex.specs.declared.token.TokenKind.TheVariants as TokenKind;
ghost use Rattle.rbbi_tree.specs.Values.{statement_tree};
ghost use Rattle.rbbi_tree.specs.inner.Statements.{between, with_head_alone, with_statement};
ghost use Rattle.rbbi_tree.specs.inner.Statements.{at_semi, statement_at};
ghost use Rattle.rbbi_tree.specs.inner.SetStates.{FollowsMachine};
ghost use Rattle.rbbi_tree.specs.inner.States.{progress, ReadsOutside};

use super::{Head, Parser};
use crate::error::TreeErr;
use crate::level::Level;
use crate::syntax::Statement;
use std::alloc::Global;
use std::mem;

impl Parser {
    /// Takes the statement that the expression and the tag end. It needs an item at the end, and no
    /// open group; an assignment takes no tag.
    fn take_statement(
        &mut self,
        alloc: Global,
        end: u32,
        tag: Option<u32>,
    ) -> Result<Statement, TreeErr>
        ensures read { let p = progress self.old in
            FollowsMachine end (statement_at p.level.items p.groups tag p) statement_tree result }
        ensures head_alone { OnOk result
            (progress self.new ≡ with_head_alone between (progress self.old)) }
    {
        if self.level.items.is_empty() || !self.groups.is_empty() {
            return Err(TreeErr::Syntax(end));
        }
        let level = mem::replace(&mut self.level, Level::new(alloc));
        let expr = level.into_expr()?;
        match mem::replace(&mut self.head, Head::Between) {
            Head::Between | Head::Whole(_) => Err(TreeErr::Syntax(end)),
            Head::Assign { name, place } => match tag {
                None => Ok(Statement::Assign { name, place, expr }),
                Some(_) => Err(TreeErr::Syntax(end)),
            },
            Head::Rule { place, no_chain_in } => Ok(Statement::Rule {
                place,
                no_chain_in,
                front: expr,
                slash: None,
                rest: None,
                tag,
            }),
            Head::Rest {
                place,
                no_chain_in,
                front,
                slash,
            } => Ok(Statement::Rule {
                place,
                no_chain_in,
                front,
                slash: Some(slash),
                rest: Some(expr),
                tag,
            }),
        }
    }

    /// Reads a tag. It needs a rule before it.
    pub(super) fn read_tag(&mut self, alloc: Global, place: u32, status: u32) -> Result<(), TreeErr>
        ensures { ReadsOutside (TokenKind.Tag status) place self.old result self.new }
    {
        let statement = self.take_statement(alloc, place, Some(status))?;
        self.head = Head::Whole(statement);
        Ok(())
    }

    /// Takes the statement that a semicolon ends.
    fn take_finished_statement(&mut self, alloc: Global, place: u32) -> Result<Statement, TreeErr>
        ensures read { let p = progress self.old in FollowsMachine place (at_semi p.head p)
            (λ s. with_statement (statement_tree s) (progress self.new)) result }
        ensures between { OnOk result ((progress self.new).head ≡ between) }
    {
        match mem::replace(&mut self.head, Head::Between) {
            Head::Between => Ok(Statement::Nothing),
            Head::Whole(statement) => Ok(statement),
            head => {
                self.head = head;
                self.take_statement(alloc, place, None)
            }
        }
    }

    /// Reads a semicolon.
    pub(super) fn end_statement(&mut self, alloc: Global, place: u32) -> Result<(), TreeErr>
        ensures { ReadsOutside TokenKind.Semi place self.old result self.new }
    {
        let statement = self.take_finished_statement(alloc, place)?;
        self.statements.push(statement)?;
        Ok(())
    }
}
