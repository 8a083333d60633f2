//! The counts of the active rules and the first rule that exceeds each limit.
ghost use Rattle.std.specs.Prelude.{◌≡◌, ◌≤◌, ◌<◌, ℕ, List, [], ◌∷◌, is_some, if◌then◌else◌};
ghost use Rattle.rbbi_resolve.specs.Counts.{placed_fault, size_fault, leaves_meant};
ghost use Rattle.rbbi_resolve.specs.Files.{RuleMeaning};
ghost use Rattle.rbbi_resolve.specs.inner.Summaries.{IsCapped};
ghost use Rattle.rbbi_resolve.specs.inner.Countings.{IsPartialCount, AreCounting};

use crate::fault::{Fault, FaultKind};
use crate::variables::Summary;

/// The most active rules.
const MOST_RULES: u32 = 4096;
/// The most leaves in active rules.
const MOST_LEAVES: u32 = 8192;
/// The most active rules with a rest.
const MOST_SLASHES: u32 = 32;
/// The greatest height of an active rule.
const MOST_HEIGHT: u32 = 256;

/// A sum over rules, up to the first rule with which it exceeds its limit, and the place of that
/// rule.
#[derive(Clone, Copy)]
pub(crate) struct Count {
    pub(crate) sum: u32,
    passed: Option<u32>,
}

impl Count {
    /// No rules.
    fn new() -> Count
        ensures { (amount : RuleMeaning → ℕ) (most : ℕ) (all : List RuleMeaning)
            → IsPartialCount amount most result all all }
    {
        Count {
            sum: 0,
            passed: None,
        }
    }

    /// The fault of this kind at the rule with which the limit was exceeded, if one was.
    fn fault(self, kind: FaultKind) -> Option<Fault>
        ensures { result ≡ placed_fault kind self.passed }
    {
        let place = self.passed?;
        Some(Fault { place, kind })
    }

    /// Adds the amount of the rule at a place.
    fn add(&mut self, amount: u32, most: u32, place: u32)
        requires { most ≤ 65536 }
        ensures { (cap : ℕ) (amount_of : RuleMeaning → ℕ) (rule : RuleMeaning)
            (left all : List RuleMeaning)
            → most < cap → rule.place ≡ place → IsCapped cap (amount_of rule) amount
            → IsPartialCount amount_of most self.old (rule ∷ left) all →
            IsPartialCount amount_of most self.new left all }
    {
        if self.passed.is_none() {
            let sum = self.sum.saturating_add(amount);
            if sum > most {
                self.passed = Some(place);
            } else {
                self.sum = sum;
            }
        }
    }
}

/// 1 if the test holds, else 0.
fn one_where(test: bool) -> u32
    ensures few { result ≤ 1 }
    ensures one { result ≡ (if test then 1 else 0) }
{
    if test { 1 } else { 0 }
}

/// The counts of the active rules so far.
#[derive(Clone, Copy)]
pub(crate) struct Counts {
    rules: Count,
    pub(crate) leaves: Count,
    pub(crate) slashes: Count,
    /// The rules that are too tall.
    tall: Count,
}

impl Counts {
    /// No rules.
    pub(crate) fn new() -> Counts
        ensures { (all : List RuleMeaning) → AreCounting result all all }
    {
        Counts {
            rules: Count::new(),
            leaves: Count::new(),
            slashes: Count::new(),
            tall: Count::new(),
        }
    }

    /// Counts a rule.
    pub(crate) fn add(&mut self, place: u32, whole: Summary, has_rest: bool)
        ensures { (rule : RuleMeaning) (left all : List RuleMeaning) → rule.place ≡ place
            → IsCapped 8193 (leaves_meant rule) whole.leaves → IsCapped 257 rule.height whole.height
            → is_some rule.rest ≡ has_rest
            → AreCounting self.old (rule ∷ left) all → AreCounting self.new left all }
    {
        self.rules.add(1, MOST_RULES, place);
        self.leaves.add(whole.leaves, MOST_LEAVES, place);
        self.slashes.add(one_where(has_rest), MOST_SLASHES, place);
        self.tall
            .add(one_where(whole.height > MOST_HEIGHT), 0, place);
    }

    /// The first fault, by kind, of these counts. The text has this length.
    pub(crate) fn fault(&self, end: u32) -> Option<Fault>
        ensures { (all : List RuleMeaning) → AreCounting self.now [] all →
            result ≡ size_fault end all }
    {
        if let Some(place) = self.rules.passed {
            let kind = FaultKind::TooManyRules;
            return Some(Fault { place, kind });
        }
        if self.rules.sum == 0 {
            let kind = FaultKind::NoRules;
            return Some(Fault { place: end, kind });
        }
        let slashes = self.slashes.fault(FaultKind::TooManySlashes);
        let later = slashes.or(self.tall.fault(FaultKind::TooTall));
        self.leaves.fault(FaultKind::TooManyLeaves).or(later)
    }
}
