//! The faults of a rule file, and the counts of its active rules.
ghost use Rattle.std.specs.Prelude.{◌≡◌, ◌+◌, ◌<◌, ◌&&◌, not, Some, OnOk, length, slice_get};
ghost use Rattle.std.specs.Prelude.{ℕ, Bool, Option, encode_utf8_all, bytes_eq, codes};
ghost use Rattle.rbbi_tree.specs.Trees as trees;
ghost use Rattle.rbbi_tree.specs.Values.{statement_trees, expr_tree, rest_tree};
ghost use Rattle.rbbi_resolve.specs.inner.Readings.{IsReading, HasLeaves, HasBegun, ReadsOn};

use crate::classes::Classes;
use crate::context::Context;
use crate::counts::Counts;
use crate::definition::check_definition;
use crate::fault::{Fault, FaultKind, note_where};
use crate::leaves::Leaves;
use crate::rule::check_rule;
use crate::switches::{Switches, is_unknown, is_unsupported};
use crate::variables::{Variable, Variables};
use rbbi_props::PropTable;
use rbbi_text::Word;
use rbbi_tree::{Expr, Statement, Statements};
use std::alloc::{AllocError, Global};

/// What was read of a rule file.
#[derive(Drop)]
pub(crate) struct Reading<'a> {
    pub(crate) statements: &'a Statements,
    /// The property files.
    pub(crate) table: &'a PropTable,
    pub(crate) classes: Classes,
    /// The leaves of the statements so far.
    pub(crate) leaves: Leaves,
    /// For each of these statements the number of its first leaf.
    pub(crate) firsts: Vec<usize>,
    /// Whether an assignment to `$dictionary` is read as any other.
    pub(crate) dictionary_ignored: bool,
    pub(crate) variables: Variables,
    /// The earliest fault so far.
    pub(crate) least: Option<Fault>,
    pub(crate) switches: Switches,
    pub(crate) counts: Counts,
}

impl<'a> Reading<'a> {
    /// Reads the statement with this number; all before it were read.
    pub(crate) fn read(&mut self, alloc: Global, number: usize) -> Result<(), AllocError>
        requires inside { number < length self.old.statements.now }
        requires reading { IsReading self.old number }
        requires leaves { HasLeaves self.old number }
        ensures { OnOk result (ReadsOn self.old self.new (number + 1)) }
    {
        let statements = self.statements;
        self.firsts.push(self.leaves.rows.len())?;
        match statements.get(number) {
            Statement::Nothing => Ok(()),
            Statement::Control { name, place } => {
                self.read_control(number, name, *place);
                Ok(())
            }
            Statement::Assign { name, place, expr } => {
                self.read_assignment(alloc, number, name, *place, expr)
            }
            Statement::Rule {
                place,
                front,
                slash,
                rest,
                ..
            } => self.read_rule(alloc, number, *place, front, *slash, rest),
        }
    }

    /// Reads a control.
    fn read_control(&mut self, number: usize, name: &Word, place: u32)
        requires at { slice_get (statement_trees self.old.statements.now) number ≡ Some
            (trees.control name.now place) }
        requires reading { IsReading self.old number }
        requires leaves { HasBegun self.old number }
        ensures { ReadsOn self.old self.new (number + 1) }
    {
        let _number = number;
        let name = name.as_str();
        note_where(
            &mut self.least,
            is_unknown(name),
            place,
            FaultKind::UnknownControl,
        );
        note_where(
            &mut self.least,
            is_unsupported(name),
            place,
            FaultKind::UnsupportedControl,
        );
        self.switches = self.switches.after(name);
    }

    /// Reads an assignment. The first one of a name counts.
    fn read_assignment(
        &mut self,
        alloc: Global,
        number: usize,
        name: &Word,
        place: u32,
        expr: &Expr,
    ) -> Result<(), AllocError>
        requires at { slice_get (statement_trees self.old.statements.now) number
            ≡ Some (trees.assign name.now place (expr_tree expr.now)) }
        requires reading { IsReading self.old number }
        requires leaves { HasBegun self.old number }
        ensures { OnOk result (ReadsOn self.old self.new (number + 1)) }
    {
        let context = Context {
            table: self.table,
            statements: self.statements,
            variables: &self.variables,
            classes: &self.classes,
            limit: number,
            quoted_only: self.switches.quoted_only,
        };
        let is_dictionary = is_refused_dictionary(name, self.dictionary_ignored);
        let is_assigned = context.variable(name).is_some();
        note_where(&mut self.least, is_dictionary, place, FaultKind::Dictionary);
        note_where(&mut self.least, is_assigned, place, FaultKind::Redefined);
        let kind = check_definition(alloc, &context, &mut self.least, &mut self.leaves, expr)?;
        if is_assigned {
            return Ok(());
        }
        let key = String::from_str(alloc, name.as_str())?;
        let statement = number;
        self.variables.insert(key, Variable { statement, kind })?;
        Ok(())
    }

    /// Reads a rule.
    fn read_rule(
        &mut self,
        alloc: Global,
        number: usize,
        place: u32,
        front: &Expr,
        slash: Option<u32>,
        rest: &Option<Expr>,
    ) -> Result<(), AllocError>
        requires at { (no_chain_in : Bool) × (tag : Option ℕ) × (slice_get
            (statement_trees self.old.statements.now) number ≡ Some (trees.rule place no_chain_in
            (expr_tree front.now) slash (rest_tree rest.now) tag)) }
        requires reading { IsReading self.old number }
        requires leaves { HasBegun self.old number }
        ensures { OnOk result (ReadsOn self.old self.new (number + 1)) }
    {
        let context = Context {
            table: self.table,
            statements: self.statements,
            variables: &self.variables,
            classes: &self.classes,
            limit: number,
            quoted_only: self.switches.quoted_only,
        };
        let whole = check_rule(
            alloc,
            &context,
            &mut self.least,
            &mut self.leaves,
            front,
            slash,
            rest,
        )?;
        if self.switches.active {
            self.counts.add(place, whole, rest.is_some());
        }
        Ok(())
    }
}

/// Whether an assignment to the name is refused as a dictionary.
fn is_refused_dictionary(name: &Word, ignored: bool) -> bool
    ensures { result ≡ (bytes_eq (encode_utf8_all name.now) (codes "dictionary") && not ignored) }
{
    name.as_str() == "dictionary" && !ignored
}
