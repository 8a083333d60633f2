//! Which boundary a run shows to be the next one after a place, or the last one before it.
ghost use Rattle.std.specs.Prelude.{◌≡◌, ℕ, ◌+◌, ◌-◌, ◌<◌, ◌≤◌, map, take, drop, length, List};
ghost use Rattle.std.specs.Prelude.{MatchOption, IsTrue, ◌↔◌, ⊤};
ghost use Rattle.std.specs.List.{AllByRecursion};
ghost use Rattle.rbbi_model.specs.Lists.{IsRising};
ghost use Rattle.rbbi_model.specs.Words.{most_characters};
ghost use Rattle.rbbi_model.specs.Runs.{low, ShowsAfter, ShowsBefore};
ghost use Rattle.rbbi_cache.specs.inner.Lists.{GoesOnFrom};
ghost use Rattle.rbbi_cache.specs.inner.Shown.{AreUpTo};
ghost use Rattle.rbbi_cache.specs.inner.Quiet.{IsQuiet, IsApart};
ghost use Rattle.rbbi_cache.specs.inner.Ready.{IsFloorOf};
ghost use Rattle.rbbi_cache.specs.Shown.{IsShownAfter, IsShownBefore};

use crate::scan::low;
use crate::{Entry, Run};

/// Whether so many of the entries, which rise, aren't past this place, and some are.
fn are_up_to(entries: &[Entry], i: u32, count: usize) -> bool
    requires { IsRising (map (λ entry. entry.at) entries.now) }
    ensures { IsTrue result → AreUpTo entries.now i count }
{
    if count == 0 || count >= entries.len() {
        return false;
    }
    let last = entries[count - 1];
    let next = entries[count];
    if last.at > i || next.at <= i {
        return false;
    }
    true
}

/// How many of the entries, which rise, aren't past this place. It is found at once where the entry
/// with the number `hint` is the last of them or the next.
pub(crate) fn count_up_to(entries: &[Entry], hint: usize, i: u32) -> usize
    requires { IsRising (map (λ entry. entry.at) entries.now) }
    ensures { AreUpTo entries.now i result }
{
    let len = entries.len();
    if len == 0 {
        return 0;
    }
    // Mostly all are on one side of it.
    let last = entries[len - 1];
    if last.at <= i {
        return len;
    }
    let first = entries[0];
    if first.at > i {
        return 0;
    }
    if hint < len && are_up_to(entries, i, hint + 1) {
        return hint + 1;
    }
    if are_up_to(entries, i, hint) {
        return hint;
    }
    let mut start = 0;
    let mut end = len;
    while start < end {
        let middle = start + (end - start) / 2;
        let entry = entries[middle];
        if entry.at <= i {
            start = middle + 1;
        } else {
            end = middle;
        }
    }
    start
}

impl Run {
    /// Whether the run leads, from a low place that `i` isn't before.
    fn leads_to(&self, i: u32) -> bool
        requires small { i < most_characters }
        requires anchor { self.now.anchor ≤ most_characters }
        ensures { IsTrue result ↔ (IsTrue self.now.leads × (low self.now.anchor ≤ i + 1)) }
    {
        if !self.leads() {
            return false;
        }
        low(self.anchor()) <= i + 1
    }

    /// The entry of the run that is shown to be the first boundary past `i`. Its number becomes the
    /// hint; nothing but time rests on which it was.
    pub(crate) fn shown_after(&self, hint: &mut usize, i: u32) -> Option<Entry>
        requires rising { IsRising (map (λ entry. entry.at) self.now.entries) }
        requires small { i < most_characters }
        requires anchor { self.now.anchor ≤ most_characters }
        requires behind { AllByRecursion (λ entry. self.now.anchor ≤ entry.at) self.now.entries }
        ensures { MatchOption result
            ((a : ℕ) → ¬ ShowsAfter self.now i a) (IsShownAfter self.now i) }
    {
        // Of many runs that are asked, this one lies after the place.
        let anchor = self.anchor();
        if i < anchor {
            return None;
        }
        let entries = self.entries();
        let k = count_up_to(entries, *hint, i);
        if k == entries.len() {
            return None;
        }
        if k > 0 {
            *hint = k;
            return Some(entries[k]);
        }
        if self.leads_to(i) {
            return Some(entries[0]);
        }
        None
    }

    /// The entry that is shown to be the last boundary before `i`, in a text of this length. Its
    /// number becomes the hint.
    pub(crate) fn shown_before(&self, hint: &mut usize, len: u32, i: u32) -> Option<Entry>
        requires rising { IsRising (map (λ entry. entry.at) self.now.entries) }
        requires within { AllByRecursion (λ entry. entry.at ≤ len) self.now.entries }
        requires behind { AllByRecursion (λ entry. self.now.anchor ≤ entry.at) self.now.entries }
        requires some { 0 < i }
        ensures { (x : List ℕ) → len ≡ length x →
            MatchOption result
            ((a : ℕ) → ¬ ShowsBefore x self.now i a) (IsShownBefore x self.now i) }
    {
        let anchor = self.anchor();
        if i <= anchor {
            return None;
        }
        let entries = self.entries();
        let k = count_up_to(entries, *hint, i - 1);
        if k == 0 {
            return None;
        }
        let entry = entries[k - 1];
        if k < entries.len() {
            *hint = k - 1;
            return Some(entry);
        }
        if entry.at == len {
            return Some(entry);
        }
        None
    }

    /// The last boundary before `i`, if the entry with the number `hint` lies there: the one before
    /// that. So going back from boundary to boundary takes no search. The hint becomes its number.
    #[inline(always)]
    pub(crate) fn step_before(&self, hint: &mut usize, i: u32) -> Option<Entry>
        requires { IsRising (map (λ entry. entry.at) self.now.entries) }
        ensures { MatchOption result ⊤ (λ entry. (x : List ℕ) → IsShownBefore x self.now i entry) }
    {
        let entries = self.entries();
        let k = *hint;
        if k == 0 || k >= entries.len() {
            return None;
        }
        let next = entries[k];
        if next.at != i {
            return None;
        }
        *hint = k - 1;
        Some(entries[k - 1])
    }

    /// Up to before which place, at most the one given, the run shows no boundary from `i` on.
    pub(crate) fn quiet_to(&self, i: u32, to: u32) -> u32
        requires rising { IsRising (map (λ entry. entry.at) self.now.entries) }
        requires behind { AllByRecursion (λ entry. self.now.anchor ≤ entry.at) self.now.entries }
        ensures quiet { IsQuiet i result self.now }
        ensures at_most { result ≤ to }
    {
        let anchor = self.anchor();
        if i < anchor {
            let nearer = anchor.min(to);
            return nearer;
        }
        let entries = self.entries();
        let k = count_up_to(entries, 0, i);
        if k < entries.len() {
            return 0;
        }
        to
    }

    /// Two places, not farther apart than those given, between which the run has no entry. If it
    /// lies on one side of `i`, they stay around `i`, and otherwise the second is 0.
    pub(crate) fn apart_around(&self, i: u32, from: u32, to: u32) -> (u32, u32)
        requires { IsRising (map (λ entry. entry.at) self.now.entries) }
        ensures apart { IsApart result.0 result.1 self.now }
        ensures least { from ≤ result.0 }
        ensures most { result.1 ≤ to }
    {
        let entries = self.entries();
        if entries.is_empty() {
            return (from, to);
        }
        let first = entries[0];
        if first.at >= i {
            return (from, to.min(first.at));
        }
        let last = entries[entries.len() - 1];
        if last.at < i {
            return (from.max(last.at), to);
        }
        (from, 0)
    }

    /// A place from which on no anchor finds a boundary before `i`: the run's anchor, if it leads
    /// and its first entry lies at `i`, and otherwise `i`.
    pub(crate) fn floor_before(&self, i: u32) -> u32
        ensures { IsFloorOf self.now i result }
    {
        let entries = self.entries();
        if !self.leads() || entries.is_empty() {
            return i;
        }
        let first = entries[0];
        if first.at != i {
            return i;
        }
        self.anchor()
    }

    /// Its last entry, where that isn't past `i`.
    pub(crate) fn last_up_to(&self, i: u32) -> Option<Entry>
        ensures { MatchOption result ⊤ (λ entry. GoesOnFrom i entry self.now) }
    {
        let entries = self.entries();
        if self.anchor() > i || entries.is_empty() {
            return None;
        }
        let entry = entries[entries.len() - 1];
        if entry.at <= i {
            return Some(entry);
        }
        None
    }
}
