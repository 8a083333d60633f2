//! Single searches, of which nothing is kept.
ghost use Rattle.std.specs.Prelude.{◌≡◌, ◌<◌, length};
ghost use Rattle.rbbi_model.specs.Searches.{found};
ghost use Rattle.rbbi_model.specs.Costs.{characters_read};
ghost use Rattle.rbbi_text.specs.Steps.{RisesUpTo};

use crate::Cache;
use rbbi_table::{Found, Table};
use rbbi_text::{Chars, Steps};
use std::sync::ledger::Ledger;

impl Cache {
    /// What one search from `s` finds. Its runs stay as they are, and it takes no memory.
    pub fn search<T: Chars, L: Ledger>(
        &mut self,
        table: &Table,
        text: &T,
        s: u32,
        steps: &mut Steps<L>,
    ) -> Found
        requires fit { self.old.slashes ≡ table.now.slashes }
        requires within { s < length (T.characters text.now) }
        ensures at { result.at ≡ (found table.now (T.characters text.now) s).at }
        ensures status { result.status ≡ (found table.now (T.characters text.now) s).list }
        ensures read { RisesUpTo (characters_read table.now (T.characters text.now) s)
            steps.old steps.new }
        ensures same { self.new ≡ self.old }
    {
        table.next(text, s, &mut self.marks, steps)
    }
}
