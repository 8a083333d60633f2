//! The last boundary before a place: whether a kept run shows it, and else the search for it.
ghost use Rattle.std.specs.Prelude.{◌≡◌, ℕ, ◌+◌, ◌<◌, ◌≤◌, length, map, drop, MatchOption, ⊤};
ghost use Rattle.std.specs.Prelude.{List};
ghost use Rattle.std.specs.List.{AllByRecursion};
ghost use Rattle.rbbi_model.specs.Lists.{IsRising};
ghost use Rattle.rbbi_model.specs.Words.{most_characters};
ghost use Rattle.rbbi_model.specs.Costs.{back_cost};
ghost use Rattle.rbbi_model.specs.Runs.{ShowsBefore};
ghost use Rattle.rbbi_cache.specs.Kept.{AreTrueRuns, IsLastBefore, KeepsBack, NoneIsExtended};
ghost use Rattle.rbbi_cache.specs.Shown.{IsShownBefore};
ghost use Rattle.rbbi_cache.specs.inner.Lists.{IsOrdered, HasAt};
ghost use Rattle.rbbi_cache.specs.inner.Quiet.{IsApart};
ghost use Rattle.rbbi_cache.specs.inner.Ready.{IsFloorFor};

use crate::cache::START;
use crate::runs::{Shown, apart_around, find_before};
use crate::search_back::search_back;
use crate::{Cache, Entry, Run};
use rbbi_table::Table;
use rbbi_text::{Chars, Near, Steps};
use std::sync::ledger::Ledger;

impl Cache {
    /// The last boundary before `i`, if the entry of the first run that was shown last lies there.
    #[inline(always)]
    pub(crate) fn step_before(&self, hint: &mut usize, i: u32) -> Option<Entry>
        requires { AllByRecursion (λ run. IsRising (map (λ entry. entry.at) run.entries))
            self.now.runs }
        ensures { MatchOption result ⊤ (λ entry. (x : List ℕ) →
            HasAt self.now.runs 0 (λ run. IsShownBefore x run i entry)) }
    {
        let run = self.runs.as_slice().first()?;
        run.step_before(hint, i)
    }

    /// As `find_before` for the kept runs. If no other one can show it, only the first is asked.
    pub(crate) fn find_shown_before(&self, hint: &mut usize, len: u32, i: u32) -> Option<Shown>
        requires ordered { AllByRecursion (IsOrdered len) self.now.runs }
        requires some { 0 < i }
        ensures { (x : List ℕ) → len ≡ length x → MatchOption result
            (AllByRecursion (λ run. (a : ℕ) → ¬ ShowsBefore x run i a) self.now.runs)
            (λ shown. HasAt self.now.runs shown.run (λ run. IsShownBefore x run i shown.entry)) }
    {
        let runs = self.runs.as_slice();
        if i > len || i <= self.apart_from || self.apart_to < i || runs.is_empty() {
            return find_before(runs, hint, len, i);
        }
        find_before(&runs[..1], hint, len, i)
    }

    /// As `apart_around` for the kept runs. If `i` lies between two such places of all runs but the
    /// first, it looks only at that one.
    fn apart_around(&self, i: u32) -> (u32, u32)
        requires { AllByRecursion (λ run. IsRising (map (λ entry. entry.at) run.entries))
            self.now.runs }
        ensures { AllByRecursion (IsApart result.0 result.1) self.now.runs }
    {
        let runs = self.runs.as_slice();
        if i <= self.apart_from || self.apart_to < i || runs.is_empty() {
            return apart_around(runs, i);
        }
        runs[0].apart_around(i, self.apart_from, self.apart_to)
    }

    /// A place from which on no anchor finds a boundary before `i`, by what the first run shows.
    fn floor_before(&self, i: u32) -> u32
        ensures { IsFloorFor self.now.runs i result }
    {
        match self.runs.as_slice().first() {
            Some(run) => run.floor_before(i),
            None => i,
        }
    }

    /// How many runs from the first one on a new run may extend. If it lies between two places
    /// where the others have no entry, that is only the first.
    fn count_extendable(&self, run: &Run) -> usize
        requires rising { IsRising (map (λ entry. entry.at) run.now.entries) }
        requires some { AllByRecursion (λ former. 0 < length former.entries) self.now.runs }
        ensures most { result ≤ length self.now.runs }
        ensures others { NoneIsExtended run.now (drop result self.now.runs) }
    {
        let runs = self.runs.as_slice();
        if run.lies_between(self.apart_from, self.apart_to) && !runs.is_empty() {
            return 1;
        }
        runs.len()
    }

    /// Searches for the last boundary before `i`, and keeps what it finds.
    pub(crate) fn find_back<T: Chars, L: Ledger>(
        &mut self,
        table: &Table,
        text: &T,
        i: u32,
        steps: &mut Steps<L>,
    ) -> Entry
        requires fit { self.old.slashes ≡ table.now.slashes }
        requires are_true { AreTrueRuns table.now (T.characters text.now) self.old.runs }
        requires some { 0 < i }
        requires within { i ≤ length (T.characters text.now) }
        requires small { i ≤ most_characters }
        ensures answer { IsLastBefore table.now (T.characters text.now) i result }
        ensures kept { KeepsBack table.now (T.characters text.now) i result
            self.old.runs self.new.runs }
        ensures are_true { AreTrueRuns table.now (T.characters text.now) self.new.runs }
        ensures fit { self.new.slashes ≡ self.old.slashes }
        ensures more { steps.old ≤ steps.new }
        ensures cost { steps.new ≤ steps.old + back_cost table.now (T.characters text.now) i }
    {
        let near = Near::new(text, i - 1);
        self.find_back_near(table, &near, i, steps)
    }

    /// As `find_back`, with the characters before `i` at hand.
    fn find_back_near<T: Chars, L: Ledger>(
        &mut self,
        table: &Table,
        text: &T,
        i: u32,
        steps: &mut Steps<L>,
    ) -> Entry
        requires fit { self.old.slashes ≡ table.now.slashes }
        requires are_true { AreTrueRuns table.now (T.characters text.now) self.old.runs }
        requires some { 0 < i }
        requires within { i ≤ length (T.characters text.now) }
        requires small { i ≤ most_characters }
        ensures answer { IsLastBefore table.now (T.characters text.now) i result }
        ensures kept { KeepsBack table.now (T.characters text.now) i result
            self.old.runs self.new.runs }
        ensures are_true { AreTrueRuns table.now (T.characters text.now) self.new.runs }
        ensures fit { self.new.slashes ≡ self.old.slashes }
        ensures more { steps.old ≤ steps.new }
        ensures cost { steps.new ≤ steps.old + back_cost table.now (T.characters text.now) i }
    {
        table.valid();
        let floor = self.floor_before(i);
        let Some(entry) = search_back(
            table,
            text,
            i,
            floor,
            &mut self.spare,
            &mut self.read,
            &mut self.marks,
            steps,
        ) else {
            return START;
        };
        self.hint = self.spare.len().saturating_sub(2);
        let count = self.count_extendable(&self.spare);
        let (from, to) = self.apart_around(i);
        self.quiet_to = 0;
        self.apart_from = from;
        self.apart_to = to;
        self.runs.add_compared(&mut self.spare, count);
        entry
    }
}
