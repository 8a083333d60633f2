//! What is kept of the positions of rules, as rows of bits (Glushkov 1961).
use crate::determinize::spanned::SpannedRow;
use std::marker::Model;

/// What is marked where the position reads the last code point: the number of a look-ahead rule
/// among such rules, or a status number. Contracts see the record of `specs`.
#[derive(Clone, Copy, PartialEq, Eq)]
pub(crate) struct Mark {
    pub position: u32,
    pub mark: u32,
}

impl Model for Mark {
    ghost use Rattle.rbbi_dfa.specs.inner.PositionRows.{PositionMark};

    ghost Value = { PositionMark };

    ghost view = { λ mark. record {
      position = mark.position;
      mark = mark.mark;
    } };

    ghost inverse = { λ mark. record {
      position = mark.position;
      mark = mark.mark;
    } };
}

/// The positions of rules, as rows of bits. A row of the follow positions of each position takes
/// most of the memory: 8 MiB at 8,192 positions.
#[derive(Drop)]
pub(crate) struct Rows {
    /// How many categories there are, category 0 counted.
    pub categories: u16,
    /// How many look-ahead rules there are.
    pub slashes: u16,
    /// How many words a row has.
    pub width: usize,
    /// The first positions.
    pub first: Vec<u64>,
    /// The first positions of the rules that may be chained into.
    pub chained: Vec<u64>,
    /// The last positions.
    pub last: Vec<u64>,
    /// For each position those that may follow it.
    pub follow: Vec<SpannedRow>,
    /// For each category the positions that read it.
    pub reads: Vec<Vec<u64>>,
    /// The last positions of look-ahead rules, with the rules' numbers among these.
    pub completed: Vec<Mark>,
    /// The last positions of the fronts of look-ahead rules, with the rules' numbers among these.
    pub fronts: Vec<Mark>,
    /// The last positions of tagged rules with the status numbers, which don't fall.
    pub tags: Vec<Mark>,
}

impl Model for Rows {
    ghost use Rattle.rbbi_dfa.specs.inner.PositionRows.{PositionRows, AreRows};

    ghost Value = { PositionRows };

    ghost use Rattle.rbbi_dfa.specs.inner.KeptRows.{kept_rows};

    ghost view = { kept_rows };

    ghost invariant = { λ rows. AreRows (kept_rows rows) };
}
