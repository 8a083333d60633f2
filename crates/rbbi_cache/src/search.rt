//! What is past a place: found by searches from an anchor, or from the last entry of a kept run.
ghost use Rattle.std.specs.Prelude.{◌≡◌, ℕ, ◌+◌, ◌<◌, ◌≤◌, true, length, List, MatchOption, ⊤};
ghost use Rattle.rbbi_model.specs.Words.{most_characters};
ghost use Rattle.rbbi_model.specs.Runs as model;
ghost use Rattle.rbbi_model.specs.Costs.{anchor_below, searches_cost};
ghost use Rattle.rbbi_cache.specs.inner.Lists.{GoesOnFrom};
ghost use Rattle.rbbi_cache.specs.inner.Ready.{IsReadyAfter, GoesOnAs};

use crate::boxed::MOST_ENTRIES;
use crate::scan::scan;
use crate::{Entry, Run};
use rbbi_table::{FrontPlaces, Table};
use rbbi_text::{Chars, Steps};
use std::sync::ledger::Ledger;

/// The most entries of a run and a copy of the one from which others were found.
const MOST_WITH_COPY: usize = 257;

/// Searches from the greatest anchor below `i` up to the first boundary past `i`, and makes a run.
pub(crate) fn search<T: Chars, L: Ledger>(
    table: &Table,
    text: &T,
    anchor: u32,
    i: u32,
    run: &mut Run,
    marks: &mut FrontPlaces,
    steps: &mut Steps<L>,
) -> Entry
    requires fit { marks.old ≡ table.now.slashes }
    requires within { i < length (T.characters text.now) }
    requires small { i < most_characters }
    requires anchor { anchor ≡ anchor_below table.now (T.characters text.now) i }
    ensures ready { (kept : List model.Run) →
        IsReadyAfter table.now (T.characters text.now) i kept result run.new }
    ensures more { steps.old ≤ steps.new }
    ensures cost { steps.new
        ≤ steps.old + searches_cost table.now (T.characters text.now) anchor i }
    ensures fit { marks.new ≡ marks.old }
{
    table.valid();
    run.begin(anchor);
    let from = Entry {
        at: anchor,
        status: 0,
        reach: 0,
    };
    scan(table, text, run, from, i, marks, steps)
}

/// Adds to a true run what one search finds from its last entry, if that lies at `i` and there is
/// room for one more.
pub(crate) fn step<T: Chars, L: Ledger>(
    table: &Table,
    text: &T,
    i: u32,
    run: &mut Run,
    marks: &mut FrontPlaces,
    steps: &mut Steps<L>,
) -> Option<Entry>
    requires fit { marks.old ≡ table.now.slashes }
    requires within { i < length (T.characters text.now) }
    requires small { i < most_characters }
    requires is_true { model.IsTrueRun table.now (T.characters text.now) run.old }
    ensures gone_on { MatchOption result ((run.new ≡ run.old) × (steps.new ≡ steps.old)) (λ entry.
        GoesOnAs table.now (T.characters text.now) i run.old entry true run.new run.new) }
    ensures unknown { MatchOption result ⊤ (λ _. (a : ℕ) → ¬ model.ShowsAfter run.old i a) }
    ensures more { steps.old ≤ steps.new }
    ensures cost { steps.new ≤ steps.old + searches_cost table.now (T.characters text.now)
        (anchor_below table.now (T.characters text.now) i) i }
    ensures fit { marks.new ≡ marks.old }
{
    table.valid();
    if run.len() == MOST_ENTRIES {
        return None;
    }
    let Some(from) = run.last_up_to(i) else {
        return None;
    };
    if from.at < i {
        return None;
    }
    let found = table.next(text, i, marks, steps);
    let entry = Entry {
        at: found.at,
        status: found.status,
        reach: from.reach.max(found.look),
    };
    run.push(entry);
    Some(entry)
}

/// Goes on from the last entry of a true run. What is found is added to the run if it has room for
/// all (true), and otherwise makes a run of its own, which begins with a copy of that entry.
pub(crate) fn go_on<T: Chars, L: Ledger>(
    table: &Table,
    text: &T,
    i: u32,
    run: &mut Run,
    from: Entry,
    spare: &mut Run,
    marks: &mut FrontPlaces,
    steps: &mut Steps<L>,
) -> (Entry, bool)
    requires fit { marks.old ≡ table.now.slashes }
    requires within { i < length (T.characters text.now) }
    requires small { i < most_characters }
    requires is_true { model.IsTrueRun table.now (T.characters text.now) run.old }
    requires from { GoesOnFrom i from run.old }
    requires near { anchor_below table.now (T.characters text.now) i ≤ from.at }
    ensures gone_on { GoesOnAs table.now (T.characters text.now) i run.old
        result.0 result.1 run.new spare.new }
    ensures more { steps.old ≤ steps.new }
    ensures cost { steps.new ≤ steps.old + searches_cost table.now (T.characters text.now)
        (anchor_below table.now (T.characters text.now) i) i }
    ensures fit { marks.new ≡ marks.old }
{
    table.valid();
    spare.begin(run.anchor());
    spare.push(from);
    let entry = scan(table, text, spare, from, i, marks, steps);
    if spare.leads() && run.len() + spare.len() <= MOST_WITH_COPY {
        run.append(&spare.entries()[1..]);
        return (entry, true);
    }
    spare.follow();
    (entry, false)
}
