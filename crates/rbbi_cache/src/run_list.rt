//! The kept runs, in slots that are made once.
ghost use Rattle.std.specs.Prelude.{◌≡◌, ℕ, ◌+◌, ◌<◌, ◌≤◌, [], ◌∷◌, ◌++◌, map, drop, length, List};
ghost use Rattle.std.specs.Prelude.{IfOk, MatchOption, ⊤, take};
ghost use Rattle.std.specs.List.{AllByRecursion};
ghost use Rattle.rbbi_model.specs.Lists.{IsRising};
ghost use Rattle.rbbi_model.specs.Words.{most_characters};
ghost use Rattle.rbbi_model.specs.Runs as model;
ghost use Rattle.rbbi_model.specs.Costs.{anchor_below, searches_cost};
ghost use Rattle.rbbi_cache.specs.Kept.{AreTrueRuns, NoneIsExtended};
ghost use Rattle.rbbi_cache.specs.inner.Kept.{IsPutFirst};
ghost use Rattle.rbbi_cache.specs.inner.Lists.{HasAt, GoesOnFrom};
ghost use Rattle.rbbi_cache.specs.inner.Ready.{GoesOnAt, KeepsTrue};
ghost use Rattle.rbbi_cache.specs.Shown.{IsShownAfter};

use crate::extended::find_extended;
use crate::runs::{MOST_RUNS, put_first, to_front};
use crate::search::{go_on, step};
use crate::{Entry, Run};
use rbbi_table::{FrontPlaces, Table};
use rbbi_text::{Chars, Steps};
use std::alloc::{AllocError, Global};
use std::marker::Model;
use std::sync::ledger::Ledger;
use std::{array, mem};

/// A list of at most 16 runs, the most recently used first. It takes no memory after it was made.
#[derive(Drop)]
pub(crate) struct RunList {
    /// Room for 16 runs, of which the first ones are the list.
    pub(crate) slots: [Run; MOST_RUNS],
    pub(crate) count: usize,
}

impl Model for RunList {
    ghost use Rattle.std.specs.Prelude.{◌≡◌, ◌≤◌, List, take, length};
    ghost use Rattle.rbbi_model.specs.Runs.{Run};

    ghost Value = { List Run };

    ghost view = { λ list. take list.count list.slots };

    ghost invariant = { λ list. (list.count ≤ 16) × (length list.slots ≡ 16) };
}

impl RunList {
    /// A list with no runs, and room for all that it may get.
    pub(crate) fn empty(alloc: Global) -> Result<RunList, AllocError>
        ensures { IfOk result (λ list. list ≡ []) }
    {
        let slots = array::try_from_fn(|_| Run::empty(alloc))?;
        Ok(RunList { slots, count: 0 })
    }

    /// The runs.
    pub(crate) fn as_slice(&self) -> &[Run]
        ensures runs { result.now ≡ self.now }
        ensures few { length result.now ≤ 16 }
    {
        &self.slots[..self.count]
    }

    /// Moves a run to the front. The runs before it go back by one.
    pub(crate) fn move_to_front(&mut self, k: usize)
        requires { k < length self.old }
        ensures { (before after : List model.Run) (run : model.Run) →
            self.old ≡ before ++ run ∷ after → length before ≡ k →
            self.new ≡ run ∷ (before ++ after) }
    {
        to_front(&mut self.slots, k);
    }

    /// Puts a new run first, in place of one that it extends, or of the last of 16. The slot that
    /// is passed has some other run then.
    pub(crate) fn add(&mut self, run: &mut Run)
        requires { IsRising (map (λ entry. entry.at) run.old.entries) }
        ensures { IsPutFirst run.old self.old self.new }
    {
        let count = self.count;
        self.add_compared(run, count);
    }

    /// As `add`. It extends none of the runs but the first so many, and only these are compared.
    pub(crate) fn add_compared(&mut self, run: &mut Run, count: usize)
        requires rising { IsRising (map (λ entry. entry.at) run.old.entries) }
        requires count { count ≤ length self.old }
        requires others { NoneIsExtended run.old (drop count self.old) }
        ensures { IsPutFirst run.old self.old self.new }
    {
        let runs = self.as_slice();
        if let Some(k) = find_extended(&runs[..count], run) {
            self.replace(k, run);
            return;
        }
        self.count = put_first(&mut self.slots, self.count, run);
    }

    /// Puts a new run before the others, in place of the one with this number.
    fn replace(&mut self, k: usize, run: &mut Run)
        requires { k < length self.old }
        ensures { (before after : List model.Run) (former : model.Run) →
            self.old ≡ before ++ former ∷ after → length before ≡ k →
            self.new ≡ run.old ∷ (before ++ after) }
    {
        let slots = &mut self.slots[..];
        mem::swap(&mut slots[k], run);
        self.move_to_front(k);
    }

    /// Adds to the first run what one search finds from its last entry, if that lies at `i` and
    /// there is room for one more.
    pub(crate) fn step<T: Chars, L: Ledger>(
        &mut self,
        table: &Table,
        text: &T,
        i: u32,
        marks: &mut FrontPlaces,
        steps: &mut Steps<L>,
    ) -> Option<Entry>
        requires fit { marks.old ≡ table.now.slashes }
        requires within { i < length (T.characters text.now) }
        requires small { i < most_characters }
        requires are_true { AreTrueRuns table.now (T.characters text.now) self.old }
        ensures kept { MatchOption result ((self.new ≡ self.old) × (steps.new ≡ steps.old))
            (λ entry. KeepsTrue table.now (T.characters text.now)
            (λ run. IsShownAfter run i entry) self.old self.new) }
        ensures others { drop 1 self.new ≡ drop 1 self.old }
        ensures unknown { MatchOption result ⊤ (λ _. AllByRecursion
            (λ run. (a : ℕ) → ¬ model.ShowsAfter run i a) (take 1 self.old)) }
        ensures more { steps.old ≤ steps.new }
        ensures cost { steps.new ≤ steps.old + searches_cost table.now (T.characters text.now)
            (anchor_below table.now (T.characters text.now) i) i }
        ensures fit { marks.new ≡ marks.old }
    {
        table.valid();
        if self.count == 0 {
            return None;
        }
        let run = &mut self.slots[0];
        step(table, text, i, run, marks, steps)
    }

    /// Goes on from the last entry of the run with this number.
    pub(crate) fn go_on<T: Chars, L: Ledger>(
        &mut self,
        k: usize,
        table: &Table,
        text: &T,
        i: u32,
        from: Entry,
        spare: &mut Run,
        marks: &mut FrontPlaces,
        steps: &mut Steps<L>,
    ) -> (Entry, bool)
        requires fit { marks.old ≡ table.now.slashes }
        requires within { i < length (T.characters text.now) }
        requires small { i < most_characters }
        requires are_true { AreTrueRuns table.now (T.characters text.now) self.old }
        requires from { HasAt self.old k (GoesOnFrom i from) }
        requires near { anchor_below table.now (T.characters text.now) i ≤ from.at }
        ensures gone_on { (before after : List model.Run) (run : model.Run) →
            self.old ≡ before ++ run ∷ after → length before ≡ k →
            GoesOnAt table.now (T.characters text.now) i before run after
            result.0 result.1 self.new spare.new }
        ensures more { steps.old ≤ steps.new }
        ensures cost { steps.new ≤ steps.old + searches_cost table.now (T.characters text.now)
            (anchor_below table.now (T.characters text.now) i) i }
        ensures fit { marks.new ≡ marks.old }
    {
        let slots = &mut self.slots[..];
        go_on(table, text, i, &mut slots[k], from, spare, marks, steps)
    }
}
