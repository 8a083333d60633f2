//! Which of the kept runs a new one extends.
ghost use Rattle.std.specs.Prelude.{◌≡◌, map, MatchOption, IsTrue, ◌↔◌, Contains};
ghost use Rattle.rbbi_model.specs.Lists.{IsRising};
ghost use Rattle.rbbi_cache.specs.Kept.{AreAmong, IsExtendedBy, NoneIsExtended};
ghost use Rattle.rbbi_cache.specs.inner.Lists.{HasAt};
ghost use Rattle.rbbi_cache.specs.inner.Quiet.{LiesBetween};

use crate::shown::count_up_to;
use crate::{Entry, Run};

/// Whether the entry is one of the entries, which rise.
fn has(entries: &[Entry], entry: &Entry) -> bool
    requires { IsRising (map (λ entry. entry.at) entries.now) }
    ensures { IsTrue result ↔ Contains entries.now entry.now }
{
    let k = count_up_to(entries, 0, entry.at);
    if k == 0 {
        return false;
    }
    entries[k - 1].is_same(entry)
}

/// Whether each of the entries is one of the others, which rise.
fn are_among(entries: &[Entry], others: &[Entry]) -> bool
    requires { IsRising (map (λ entry. entry.at) others.now) }
    ensures { IsTrue result ↔ AreAmong entries.now others.now }
{
    for entry in entries {
        if !has(others, entry) {
            return false;
        }
    }
    true
}

impl Run {
    /// Whether it extends the former run: it has that one's anchor and all its entries, and leads
    /// where that one leads. Only entries of one anchor are compared.
    fn extends(&self, former: &Run) -> bool
        requires { IsRising (map (λ entry. entry.at) self.now.entries) }
        ensures { IsTrue result ↔ IsExtendedBy former.now self.now }
    {
        if self.anchor() != former.anchor() {
            return false;
        }
        if !are_among(former.entries(), self.entries()) {
            return false;
        }
        if !former.leads() {
            return true;
        }
        self.leads()
    }

    /// Whether it has entries, and all of them lie past the one place and before the other.
    pub(crate) fn lies_between(&self, from: u32, to: u32) -> bool
        requires { IsRising (map (λ entry. entry.at) self.now.entries) }
        ensures { IsTrue result → LiesBetween from to self.now }
    {
        let entries = self.entries();
        if entries.is_empty() {
            return false;
        }
        let first = entries[0];
        let last = entries[entries.len() - 1];
        first.at > from && last.at < to
    }
}

/// The number of the first run that this one extends.
pub(crate) fn find_extended(runs: &[Run], run: &Run) -> Option<usize>
    requires { IsRising (map (λ entry. entry.at) run.now.entries) }
    ensures { MatchOption result (NoneIsExtended run.now runs.now)
        (λ k. HasAt runs.now k (λ former. IsExtendedBy former run.now)) }
{
    for (k, former) in runs.iter().enumerate() {
        if run.extends(former) {
            return Some(k);
        }
    }
    None
}
