//! Look-ups in the list of kept runs, and changes of its order.
ghost use Rattle.std.specs.Prelude.{◌≡◌, ◌≢◌, ℕ, ◌+◌, ◌-◌, ◌<◌, ◌≤◌, ◌∷◌, ◌++◌, [], length, take};
ghost use Rattle.std.specs.Prelude.{drop, min, map, MatchOption, List, ⊤};
ghost use Rattle.std.specs.List.{AllByRecursion};
ghost use Rattle.rbbi_model.specs.Lists.{IsRising};
ghost use Rattle.rbbi_model.specs.Words.{most_characters};
ghost use Rattle.rbbi_model.specs.Runs as model;
ghost use Rattle.rbbi_model.specs.Runs.{ShowsAfter, ShowsBefore};
ghost use Rattle.rbbi_cache.specs.Shown.{IsShownAfter, IsShownBefore};
ghost use Rattle.rbbi_cache.specs.inner.Lists.{IsOrdered, HasAt, GoesOnFrom};
ghost use Rattle.rbbi_cache.specs.inner.Quiet.{IsQuiet, IsApart};

use crate::{Entry, Run};
use std::mem;

/// The most runs that are kept.
pub(crate) const MOST_RUNS: usize = 16;

/// An entry that a kept run shows to be an answer, and the number of the run.
#[derive(Drop)]
pub(crate) struct Shown {
    pub(crate) run: usize,
    pub(crate) entry: Entry,
}

/// The first run that shows the first boundary past `i`, and as a hint the number of that.
pub(crate) fn find_after(runs: &[Run], hint: &mut usize, i: u32) -> Option<Shown>
    requires ordered { AllByRecursion (IsOrdered most_characters) runs.now }
    requires small { i < most_characters }
    ensures { MatchOption result (AllByRecursion (λ run. (a : ℕ) → ¬ ShowsAfter run i a) runs.now)
        (λ shown. HasAt runs.now shown.run (λ run. IsShownAfter run i shown.entry)) }
{
    for (k, run) in runs.iter().enumerate() {
        if let Some(entry) = run.shown_after(hint, i) {
            return Some(Shown { run: k, entry });
        }
    }
    None
}

/// The first run that shows the last boundary before `i` in a text of this length, and as a hint
/// the number of that.
pub(crate) fn find_before(runs: &[Run], hint: &mut usize, len: u32, i: u32) -> Option<Shown>
    requires ordered { AllByRecursion (IsOrdered len) runs.now }
    requires some { 0 < i }
    ensures { (x : List ℕ) → len ≡ length x →
        MatchOption result (AllByRecursion (λ run. (a : ℕ) → ¬ ShowsBefore x run i a) runs.now)
        (λ shown. HasAt runs.now shown.run (λ run. IsShownBefore x run i shown.entry)) }
{
    for (k, run) in runs.iter().enumerate() {
        if let Some(entry) = run.shown_before(hint, len, i) {
            return Some(Shown { run: k, entry });
        }
    }
    None
}

/// Up to before which place none of the runs shows a boundary from `i` on.
pub(crate) fn quiet_to(runs: &[Run], i: u32) -> u32
    requires { AllByRecursion (IsOrdered most_characters) runs.now }
    ensures { AllByRecursion (IsQuiet i result) runs.now }
{
    let mut to = u32::MAX;
    let mut k = 0;
    while k < runs.len() {
        to = runs[k].quiet_to(i, to);
        k += 1;
    }
    to
}

/// Two places between which none of the runs has an entry. If each run lies on one side of `i`,
/// they lie around `i`: the first before it and the second not.
pub(crate) fn apart_around(runs: &[Run], i: u32) -> (u32, u32)
    requires { AllByRecursion (λ run. IsRising (map (λ entry. entry.at) run.entries)) runs.now }
    ensures { AllByRecursion (IsApart result.0 result.1) runs.now }
{
    let mut from = 0;
    let mut to = u32::MAX;
    let mut k = 0;
    while k < runs.len() {
        let (past, short_of) = runs[k].apart_around(i, from, to);
        from = past;
        to = short_of;
        k += 1;
    }
    (from, to)
}

/// The run with the greatest last entry that isn't past `i`; no caller rests on which it is.
pub(crate) fn find_nearest(runs: &[Run], i: u32) -> Option<Shown>
    ensures { MatchOption result ⊤ (λ shown. HasAt runs.now shown.run (GoesOnFrom i shown.entry)) }
{
    let mut best: Option<Shown> = None;
    for (k, run) in runs.iter().enumerate() {
        if let Some(entry) = run.last_up_to(i) {
            if entry.at == i {
                return Some(Shown { run: k, entry });
            }
            let is_nearer = match &best {
                Some(other) => entry.at > other.entry.at,
                None => true,
            };
            if is_nearer {
                best = Some(Shown { run: k, entry });
            }
        }
    }
    best
}

/// Moves a run to the front. The runs before it go back by one.
pub(crate) fn to_front(runs: &mut [Run], k: usize)
    requires { k < length runs.old }
    ensures { (before after : List model.Run) (run : model.Run) → runs.old ≡ before ++ run ∷ after →
        length before ≡ k → runs.new ≡ run ∷ (before ++ after) }
{
    if k == 0 {
        return;
    }
    let first = &mut runs[..k + 1];
    first.rotate_right(1);
}

/// Puts a new run before the `count` that are kept, and takes the last of 16 in exchange.
pub(crate) fn put_first(runs: &mut [Run], count: usize, run: &mut Run) -> usize
    requires room { length runs.old ≡ 16 }
    requires count { count ≤ 16 }
    ensures count { result ≡ min (count + 1) 16 }
    ensures len { length runs.new ≡ 16 }
    ensures runs { take result runs.new ≡ run.old ∷ take (min count 15) runs.old }
{
    let last = count.min(MOST_RUNS - 1);
    let slot = &mut runs[last];
    mem::swap(slot, run);
    let first = &mut runs[..last + 1];
    first.rotate_right(1);
    last + 1
}
