//! The cache, and the questions that it answers.
ghost use Rattle.std.specs.Prelude.{◌≡◌, ℕ, ◌+◌, ◌<◌, ◌≤◌, [], length};
ghost use Rattle.std.specs.Prelude.{MatchOption, IfOk, ⊤};
ghost use Rattle.rbbi_model.specs.Words.{most_characters};
ghost use Rattle.rbbi_model.specs.Costs.{anchor_below, searches_cost, forward_cost};
ghost use Rattle.rbbi_model.specs.Costs.{preceding_cost};
ghost use Rattle.rbbi_model.specs.Runs.{ShowsAfter, ShowsBefore};
ghost use Rattle.rbbi_cache.specs.Kept.{AreTrueRuns, IsFirstAfter, IsLastBefore, SomeRun, Keeps};
ghost use Rattle.rbbi_cache.specs.Kept.{KeepsBack};
ghost use Rattle.rbbi_cache.specs.Shown.{IsShownAfter};
ghost use Rattle.rbbi_cache.specs.inner.Lists.{IsOrdered, HasAt, GoesOnFrom};
ghost use Rattle.std.specs.List.{AllByRecursion};
ghost use Rattle.rbbi_cache.specs.inner.Ready.{KeepsTrue};

use crate::anchors::anchor_before;
use crate::run_list::RunList;
use crate::runs::{Shown, find_after, find_nearest, quiet_to};
use crate::search::search;
use crate::{Entry, Run};
use rbbi_table::{FrontPlaces, Table};
use rbbi_text::{Chars, Near, Steps};
use std::alloc::{AllocError, Global};
use std::marker::Model;
use std::sync::ledger::Ledger;

/// The boundary before the first character, which no search finds.
pub(crate) const START: Entry = Entry {
    at: 0,
    status: 0,
    reach: 0,
};

/// Boundaries of one text by one table, in at most 16 runs. It takes memory only when it is made.
#[derive(Drop)]
pub struct Cache {
    pub(crate) runs: RunList,
    /// Room for what an edit leaves of the runs.
    pub(crate) next: RunList,
    /// The run that a search fills, before it is kept.
    pub(crate) spare: Run,
    /// The categories of characters that are read back from a place.
    pub(crate) read: [u16; 64],
    /// Scratch space of searches.
    pub(crate) marks: FrontPlaces,
    /// From this place up to before the next one no run but the first shows a boundary, so that
    /// the others needn't be asked.
    pub(crate) quiet_from: u32,
    pub(crate) quiet_to: u32,
    /// Each run but the first has no entry past the first of these places, or none before the
    /// second, so that none shows the last boundary before a place past the first and not past
    /// the second.
    pub(crate) apart_from: u32,
    pub(crate) apart_to: u32,
    /// Which entry of the first run was the last answer that was shown, or found by a search back.
    pub(crate) hint: usize,
}

impl Model for Cache {
    ghost use Rattle.rbbi_cache.specs.Kept.{KeptRuns};
    ghost use Rattle.rbbi_cache.specs.inner.Quiet.{AreQuiet, AreApart};

    ghost Value = { KeptRuns };

    ghost view = { λ cache. record { runs = cache.runs; slashes = cache.marks } };

    ghost invariant = { λ cache. AreQuiet cache.quiet_from cache.quiet_to cache.runs
        × AreApart cache.apart_from cache.apart_to cache.runs };
}

impl Cache {
    /// A cache with no runs, for texts and a table with as many look-ahead rules as this one.
    pub fn new(alloc: Global, table: &Table) -> Result<Cache, AllocError>
        ensures { IfOk result (λ cache. (cache.runs ≡ []) × (cache.slashes ≡ table.now.slashes)) }
    {
        Ok(Cache {
            runs: RunList::empty(alloc)?,
            next: RunList::empty(alloc)?,
            spare: Run::empty(alloc)?,
            read: [0; 64],
            marks: FrontPlaces::new(alloc, table)?,
            quiet_from: 0,
            quiet_to: 0,
            apart_from: 0,
            apart_to: 0,
            hint: 0,
        })
    }

    /// The runs that are kept, the most recently used first; at most 16.
    pub fn kept(&self) -> &[Run]
        ensures runs { result.now ≡ self.now.runs }
        ensures few { length result.now ≤ 16 }
    {
        self.runs.as_slice()
    }

    /// The first boundary of the text past `i`, in characters from 0, or None where `i` is its
    /// length or more.
    ///
    /// If a kept run shows the answer, no character is read. Otherwise it searches from the
    /// greatest anchor below `i`, or goes on from the last entry of a kept run that lies between
    /// that anchor and `i`, and keeps what it finds in the first run. It takes no memory.
    pub fn after<T: Chars, L: Ledger>(
        &mut self,
        table: &Table,
        text: &T,
        i: u32,
        steps: &mut Steps<L>,
    ) -> Option<Entry>
        requires fit { self.old.slashes ≡ table.now.slashes }
        requires are_true { AreTrueRuns table.now (T.characters text.now) self.old.runs }
        ensures answer { MatchOption result (length (T.characters text.now) ≤ i) (λ entry.
            (i < length (T.characters text.now))
            × IsFirstAfter table.now (T.characters text.now) i entry) }
        ensures kept { MatchOption result (self.new ≡ self.old) (λ entry.
            Keeps table.now (T.characters text.now)
            (λ run. IsShownAfter run i entry) self.old.runs self.new.runs) }
        ensures are_true { AreTrueRuns table.now (T.characters text.now) self.new.runs }
        ensures fit { self.new.slashes ≡ self.old.slashes }
        ensures shown { (a : ℕ) → SomeRun (λ run. ShowsAfter run i a) self.old.runs →
            (steps.new ≡ steps.old) × MatchOption result ⊥ (λ entry. entry.at ≡ a) }
        ensures more { steps.old ≤ steps.new }
        ensures cost { i < length (T.characters text.now) →
            steps.new ≤ steps.old + forward_cost table.now (T.characters text.now) i }
        ensures nothing { length (T.characters text.now) ≤ i → steps.new ≡ steps.old }
    {
        table.valid();
        if i >= text.len() {
            return None;
        }
        if let Some(entry) = self.step_on(table, text, i, steps) {
            return Some(entry);
        }
        let mut hint = self.hint;
        if let Some(shown) = self.find_shown(&mut hint, i) {
            self.hint = hint;
            if shown.run > 0 {
                self.quiet_to = 0;
                self.apart_to = 0;
                self.runs.move_to_front(shown.run);
            }
            return Some(shown.entry);
        }
        Some(self.find_past(table, text, i, steps))
    }

    /// The last boundary of the text before `i`, in characters from 0, or None where `i` is 0.
    ///
    /// If a kept run shows the answer, no character is read. Otherwise it searches from anchors
    /// that lie farther and farther back, and keeps what it finds in the first run, unless the
    /// answer is 0. It takes no memory.
    pub fn before<T: Chars, L: Ledger>(
        &mut self,
        table: &Table,
        text: &T,
        i: u32,
        steps: &mut Steps<L>,
    ) -> Option<Entry>
        requires fit { self.old.slashes ≡ table.now.slashes }
        requires are_true { AreTrueRuns table.now (T.characters text.now) self.old.runs }
        ensures answer { MatchOption result (i ≡ 0) (λ entry.
            (0 < i) × IsLastBefore table.now (T.characters text.now) i entry) }
        ensures kept { MatchOption result (self.new ≡ self.old) (λ entry.
            KeepsBack table.now (T.characters text.now) i entry self.old.runs self.new.runs) }
        ensures are_true { AreTrueRuns table.now (T.characters text.now) self.new.runs }
        ensures fit { self.new.slashes ≡ self.old.slashes }
        ensures shown { (a : ℕ) →
            SomeRun (λ run. ShowsBefore (T.characters text.now) run i a) self.old.runs →
            (steps.new ≡ steps.old) × MatchOption result ⊥ (λ entry. entry.at ≡ a) }
        ensures more { steps.old ≤ steps.new }
        ensures cost { steps.new ≤ steps.old + preceding_cost table.now (T.characters text.now) i }
    {
        table.valid();
        if i == 0 {
            return None;
        }
        let mut hint = self.hint;
        if let Some(entry) = self.step_before(&mut hint, i) {
            self.hint = hint;
            return Some(entry);
        }
        let len = text.len();
        if let Some(shown) = self.find_shown_before(&mut hint, len, i) {
            self.hint = hint;
            if shown.run > 0 {
                self.quiet_to = 0;
                self.apart_to = 0;
                self.runs.move_to_front(shown.run);
            }
            return Some(shown.entry);
        }
        if len == 0 {
            return Some(START);
        }
        if i > len {
            return Some(self.find_past(table, text, len - 1, steps));
        }
        Some(self.find_back(table, text, i, steps))
    }

    /// Takes one boundary more into the first run, where its last entry lies at `i`, there is room
    /// for one more, and it is known that no other run shows a boundary past `i`.
    #[inline]
    fn step_on<T: Chars, L: Ledger>(
        &mut self,
        table: &Table,
        text: &T,
        i: u32,
        steps: &mut Steps<L>,
    ) -> Option<Entry>
        requires fit { self.old.slashes ≡ table.now.slashes }
        requires are_true { AreTrueRuns table.now (T.characters text.now) self.old.runs }
        requires within { i < length (T.characters text.now) }
        requires small { i < most_characters }
        ensures kept { MatchOption result ((self.new ≡ self.old) × (steps.new ≡ steps.old))
            (λ entry. KeepsTrue table.now (T.characters text.now)
            (λ run. IsShownAfter run i entry) self.old.runs self.new.runs) }
        ensures unknown { MatchOption result ⊤ (λ _. AllByRecursion
            (λ run. (a : ℕ) → ¬ ShowsAfter run i a) self.old.runs) }
        ensures fit { self.new.slashes ≡ self.old.slashes }
        ensures more { steps.old ≤ steps.new }
        ensures cost { steps.new ≤ steps.old + forward_cost table.now (T.characters text.now) i }
    {
        if i < self.quiet_from || self.quiet_to <= i {
            return None;
        }
        let near = Near::new(text, i);
        self.runs.step(table, &near, i, &mut self.marks, steps)
    }

    /// As `find_after` for the kept runs. If no other one can show it, only the first is asked.
    fn find_shown(&self, hint: &mut usize, i: u32) -> Option<Shown>
        requires ordered { AllByRecursion (IsOrdered most_characters) self.now.runs }
        requires small { i < most_characters }
        ensures { MatchOption result
            (AllByRecursion (λ run. (a : ℕ) → ¬ ShowsAfter run i a) self.now.runs)
            (λ shown. HasAt self.now.runs shown.run (λ run. IsShownAfter run i shown.entry)) }
    {
        let runs = self.runs.as_slice();
        if i < self.quiet_from || self.quiet_to <= i || runs.is_empty() {
            return find_after(runs, hint, i);
        }
        find_after(&runs[..1], hint, i)
    }

    /// Notes how far from `i` on no run but the first shows a boundary, unless that is known.
    fn mark_quiet(&mut self, i: u32)
        requires { AllByRecursion (IsOrdered most_characters) self.old.runs }
        ensures { self.new ≡ self.old }
    {
        if self.quiet_from <= i && i < self.quiet_to {
            return;
        }
        let runs = self.runs.as_slice();
        if runs.is_empty() {
            return;
        }
        let to = quiet_to(&runs[1..], i);
        self.quiet_from = i;
        self.quiet_to = to;
    }

    /// Searches for the first boundary past `i`, and keeps what it finds.
    fn find_past<T: Chars, L: Ledger>(
        &mut self,
        table: &Table,
        text: &T,
        i: u32,
        steps: &mut Steps<L>,
    ) -> Entry
        requires fit { self.old.slashes ≡ table.now.slashes }
        requires are_true { AreTrueRuns table.now (T.characters text.now) self.old.runs }
        requires within { i < length (T.characters text.now) }
        requires small { i < most_characters }
        ensures kept { KeepsTrue table.now (T.characters text.now)
            (λ run. IsShownAfter run i result) self.old.runs self.new.runs }
        ensures fit { self.new.slashes ≡ self.old.slashes }
        ensures more { steps.old ≤ steps.new }
        ensures cost { steps.new ≤ steps.old + forward_cost table.now (T.characters text.now) i }
    {
        table.valid();
        // That the text is short is known of its length.
        let _short = text.len();
        let near = Near::new(text, i);
        if let Some(entry) = self.runs.step(table, &near, i, &mut self.marks, steps) {
            self.mark_quiet(entry.at);
            return entry;
        }
        self.find_past_near(table, &near, i, steps)
    }

    /// As `find_past`, with the characters around `i` at hand.
    fn find_past_near<T: Chars, L: Ledger>(
        &mut self,
        table: &Table,
        text: &T,
        i: u32,
        steps: &mut Steps<L>,
    ) -> Entry
        requires fit { self.old.slashes ≡ table.now.slashes }
        requires are_true { AreTrueRuns table.now (T.characters text.now) self.old.runs }
        requires within { i < length (T.characters text.now) }
        requires small { i < most_characters }
        ensures kept { KeepsTrue table.now (T.characters text.now)
            (λ run. IsShownAfter run i result) self.old.runs self.new.runs }
        ensures fit { self.new.slashes ≡ self.old.slashes }
        ensures more { steps.old ≤ steps.new }
        ensures cost { steps.new ≤ steps.old + forward_cost table.now (T.characters text.now) i }
    {
        let Some(known) = find_nearest(self.runs.as_slice(), i) else {
            let anchor = anchor_before(table, text, 0, i, steps);
            return self.find_from(table, text, anchor, i, steps);
        };
        let anchor = anchor_before(table, text, known.entry.at, i, steps);
        if anchor > known.entry.at {
            return self.find_from(table, text, anchor, i, steps);
        }
        self.find_on(table, text, i, known, steps)
    }

    /// Searches from the greatest anchor below `i`, and keeps what it finds.
    fn find_from<T: Chars, L: Ledger>(
        &mut self,
        table: &Table,
        text: &T,
        anchor: u32,
        i: u32,
        steps: &mut Steps<L>,
    ) -> Entry
        requires fit { self.old.slashes ≡ table.now.slashes }
        requires are_true { AreTrueRuns table.now (T.characters text.now) self.old.runs }
        requires within { i < length (T.characters text.now) }
        requires small { i < most_characters }
        requires anchor { anchor ≡ anchor_below table.now (T.characters text.now) i }
        ensures kept { KeepsTrue table.now (T.characters text.now)
            (λ run. IsShownAfter run i result) self.old.runs self.new.runs }
        ensures fit { self.new.slashes ≡ self.old.slashes }
        ensures more { steps.old ≤ steps.new }
        ensures cost { steps.new
            ≤ steps.old + searches_cost table.now (T.characters text.now) anchor i }
    {
        table.valid();
        let spare = &mut self.spare;
        let entry = search(table, text, anchor, i, spare, &mut self.marks, steps);
        self.quiet_to = 0;
        self.apart_to = 0;
        self.runs.add(spare);
        entry
    }

    /// Goes on from the last entry of a kept run, with no anchor between that and `i`.
    fn find_on<T: Chars, L: Ledger>(
        &mut self,
        table: &Table,
        text: &T,
        i: u32,
        known: Shown,
        steps: &mut Steps<L>,
    ) -> Entry
        requires fit { self.old.slashes ≡ table.now.slashes }
        requires are_true { AreTrueRuns table.now (T.characters text.now) self.old.runs }
        requires within { i < length (T.characters text.now) }
        requires small { i < most_characters }
        requires known { HasAt self.old.runs known.run (GoesOnFrom i known.entry) }
        requires near { anchor_below table.now (T.characters text.now) i ≤ known.entry.at }
        ensures kept { KeepsTrue table.now (T.characters text.now)
            (λ run. IsShownAfter run i result) self.old.runs self.new.runs }
        ensures fit { self.new.slashes ≡ self.old.slashes }
        ensures more { steps.old ≤ steps.new }
        ensures cost { steps.new ≤ steps.old + searches_cost table.now (T.characters text.now)
            (anchor_below table.now (T.characters text.now) i) i }
    {
        table.valid();
        let spare = &mut self.spare;
        let marks = &mut self.marks;
        let (entry, is_kept) = self.runs.go_on(
            known.run,
            table,
            text,
            i,
            known.entry,
            spare,
            marks,
            steps,
        );
        self.quiet_to = 0;
        self.apart_to = 0;
        if !is_kept {
            self.runs.add(spare);
            return entry;
        }
        self.runs.move_to_front(known.run);
        entry
    }
}
