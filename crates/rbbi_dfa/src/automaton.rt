//! A determinised automaton: what lies between the positions of the rules and the least table.
ghost use Rattle.std.specs.Prelude.{◌≡◌, ◌<◌, length};
ghost use Rattle.rbbi_model.specs.Tables.{head_of, step};
ghost use Rattle.rbbi_dfa.specs.inner.Automata.{IsDetermined};

pub(crate) use rbbi_table::RowHead as Head;
use std::marker::Model;

/// A determinised automaton. Rows are numbered as in a table: row 0 is the stop row, row 1 the
/// start. Contracts see it as a table that has no ranges and no safe pairs. Rows that are
/// alike are not merged yet, so there may be more of them than a table has.
#[derive(Drop)]
pub(crate) struct Automaton {
    /// How many categories there are, category 0 counted.
    pub categories: u16,
    /// How many look-ahead rules there are.
    pub slashes: u16,
    /// One head for each row.
    pub heads: Vec<Head>,
    /// The status lists that heads name by their numbers. One may stand here twice.
    pub lists: Vec<Vec<u32>>,
    /// The next rows, row after row, one for each category.
    pub cells: Vec<u16>,
}

impl Model for Automaton {
    ghost use Rattle.std.specs.Prelude.{[], map};
    ghost use Rattle.rbbi_model.specs.Tables.{Table};

    ghost Value = { Table };

    ghost view = { λ automaton. record {
      categories = automaton.categories;
      slashes = automaton.slashes;
      ranges = [];
      lists = map (λ statuses. statuses.items) automaton.lists.items;
      rows = automaton.heads.items;
      cells = automaton.cells.items;
      safe = [];
    } };
}

impl Automaton {
    /// How many rows there are.
    pub fn rows(&self) -> u16
        requires { IsDetermined self.now }
        ensures { result ≡ length self.now.rows }
    {
        self.heads.len() as u16
    }

    /// What is marked at a row.
    pub fn head(&self, row: u16) -> Head
        requires { row < length self.now.rows }
        ensures { result ≡ head_of self.now row }
    {
        self.heads[row as usize]
    }

    /// The next row from a row, for a category.
    pub fn next(&self, row: u16, category: u16) -> u16
        requires determined { IsDetermined self.now }
        requires row { row < length self.now.rows }
        requires category { category < self.now.categories }
        ensures exact { result ≡ step self.now row category }
        ensures row { result < length self.now.rows }
    {
        self.cells[row as usize * self.categories as usize + category as usize]
    }
}
