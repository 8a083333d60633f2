//! The marks of a rule.
use std::marker::Model;

/// What the automaton needs to know of a rule. Contracts see it as a `RuleMark`.
#[derive(Clone, Copy)]
pub(crate) struct Mark {
    pub(crate) chained_into: bool,
    pub(crate) tag: Option<u32>,
    pub(crate) slash: Option<u32>,
}

impl Model for Mark {
    ghost use Rattle.rbbi_positions.specs.PositionMarks.{RuleMark};

    ghost Value = { RuleMark };

    ghost view = { λ mark. record {
      chained_into = mark.chained_into;
      tag = mark.tag;
      slash =
          mark.slash;
    } };

    ghost inverse = { λ mark. record {
      chained_into = mark.chained_into;
      tag = mark.tag;
      slash =
          mark.slash;
    } };
}
