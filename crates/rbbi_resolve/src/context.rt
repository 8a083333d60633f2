//! What stands before a statement.
ghost use Rattle.std.specs.Prelude.{◌≡◌, encode_utf8_all};
ghost use Rattle.std.specs.Option.{option_copied};
ghost use Rattle.std.specs.HashMap.{get_by_text};
ghost use Rattle.rbbi_resolve.specs.inner.Contexts.{bounds_of, visible};

use crate::classes::Classes;
use crate::variables::{Variable, Variables};
use rbbi_classes::Layout;
use rbbi_props::PropTable;
use rbbi_text::Word;
use rbbi_tree::Statements;

/// What stands before the statement with the number `limit`: the variables that an expression may
/// use, and the controls.
#[derive(Clone, Copy)]
pub(crate) struct Context<'a> {
    /// The property files.
    pub(crate) table: &'a PropTable,
    pub(crate) statements: &'a Statements,
    pub(crate) variables: &'a Variables,
    pub(crate) classes: &'a Classes,
    pub(crate) limit: usize,
    /// Whether only quoted characters may stand outside of sets.
    pub(crate) quoted_only: bool,
}

impl<'a> Context<'a> {
    /// The first code point of each class.
    pub(crate) fn layout(&self) -> &'a Layout
        ensures { result.now ≡ bounds_of self.now }
    {
        self.classes.division.as_ref().layout()
    }

    /// The variable of this name, if a statement before the limit assigns it.
    pub(crate) fn variable(&self, name: &Word) -> Option<&'a Variable>
        ensures { option_copied result ≡ visible self.now.limit
            (get_by_text self.now.variables.now (encode_utf8_all name.now)) }
    {
        match self.variables.get(name.as_str()) {
            Some(variable) if variable.statement < self.limit => Some(variable),
            _ => None,
        }
    }
}
