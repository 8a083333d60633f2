//! Anchors and safe pairs of a text.
ghost use Rattle.std.specs.Prelude.{◌≡◌, ℕ, ◌+◌, ◌<◌, ◌≤◌, max, length, MatchOption};
ghost use Rattle.rbbi_model.specs.Costs.{anchor_below};
ghost use Rattle.rbbi_cache.specs.Edits.{IsFirstPair, HasNoPair};

use rbbi_table::Table;
use rbbi_text::{Chars, Steps};
use std::sync::ledger::Ledger;

/// How many places after an edit are looked at for a safe pair.
const PAIR_PLACES: u32 = 1024;

/// The greatest anchor below a place of the text, or the low place if none lies past it.
pub fn anchor_before<T: Chars, L: Ledger>(
    table: &Table,
    text: &T,
    low: u32,
    high: u32,
    steps: &mut Steps<L>,
) -> u32
    requires within { high < length (T.characters text.now) }
    requires order { low ≤ high }
    ensures anchor { result ≡ max low (anchor_below table.now (T.characters text.now) high) }
    ensures more { steps.old ≤ steps.new }
    ensures read { steps.new + result ≤ steps.old + high + 1 }
    ensures nothing { high ≤ low + 1 → steps.new ≡ steps.old }
{
    if high - low < 2 {
        return low;
    }
    let mut next = table.category(text.char_at(high, steps));
    let mut place = high - 1;
    while place > low {
        let here = table.category(text.char_at(place, steps));
        if table.is_safe(here, next) {
            return place;
        }
        next = here;
        place -= 1;
    }
    low
}

/// The first safe pair of the text from a place on, of which 1,024 places are looked at.
pub(crate) fn first_pair<T: Chars, L: Ledger>(
    table: &Table,
    text: &T,
    low: u32,
    steps: &mut Steps<L>,
) -> Option<u32>
    requires { low ≤ length (T.characters text.now) }
    ensures pair { MatchOption result (HasNoPair table.now (T.characters text.now) low)
        (IsFirstPair table.now (T.characters text.now) low) }
    ensures more { steps.old ≤ steps.new }
    ensures read { steps.new ≤ steps.old + 1025 }
{
    if text.len() - low < 2 {
        return None;
    }
    let end = (text.len() - 1).min(low + PAIR_PLACES);
    let mut here = table.category(text.char_at(low, steps));
    for place in low..end {
        let next = table.category(text.char_at(place + 1, steps));
        if table.is_safe(here, next) {
            return Some(place);
        }
        here = next;
    }
    None
}
