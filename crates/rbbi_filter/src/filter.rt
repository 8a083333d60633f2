//! What stands between a text and its boundaries as they are reported.
ghost use Rattle.std.specs.Prelude.{◌≡◌, ◌≤◌, ℕ, List, length};
ghost use Rattle.rbbi_model.specs.Words.{IsText};
ghost use Rattle.rbbi_text.specs.Steps.{RisesUpTo};
ghost use Rattle.rbbi_filter.specs.Filters.{searched, reports};
ghost use Rattle.rbbi_filter.specs.FilterCosts.{reporting_cost};

use crate::window::is_suppressed;
use crate::{Abbreviations, Tailoring};
use rbbi_text::{Chars, Steps};
use std::sync::ledger::Ledger;

/// What stands between a text and its boundaries as they are reported.
#[derive(Drop)]
pub enum Filter {
    /// Abbreviations, after which no boundary is reported.
    Suppressing(Abbreviations),
    /// Pairs, by which the characters are turned before boundaries are looked for.
    Turning(Tailoring),
}

impl Filter {
    /// Whether a boundary of the searched text is reported. Its place is in characters, from 0. At
    /// most 64 characters before it are read.
    pub fn reports<T: Chars, L: Ledger>(&self, text: &T, at: u32, steps: &mut Steps<L>) -> bool
        requires { at ≤ length (T.characters text.now) }
        ensures exact { result ≡ reports self.now (T.characters text.now) at }
        ensures cost { RisesUpTo (reporting_cost self.now) steps.old steps.new }
    {
        match self {
            Filter::Suppressing(list) => { !is_suppressed(text, at, list, steps) }
            Filter::Turning(_) => true,
        }
    }

    /// That what is searched in place of a text is a text. It is there for proofs, and does nothing
    /// when it runs.
    pub fn searches_texts(&self)
        ensures { (x : List ℕ) → IsText x → IsText (searched self.now x) }
    {
        match self {
            Filter::Suppressing(_) => {}
            Filter::Turning(pairs) => pairs.turns_to_characters(),
        }
    }
}
