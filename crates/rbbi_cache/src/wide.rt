//! Runs that are filled from an anchor over what was read before.
ghost use Rattle.std.specs.Prelude.{◌≡◌, ◌+◌, ◌-◌, ◌<◌, ◌≤◌, ◌⊎◌, length, MatchBool, ⊤};
ghost use Rattle.rbbi_model.specs.Words.{most_characters};
ghost use Rattle.rbbi_model.specs.ValidTables.{IsValidTable};
ghost use Rattle.rbbi_model.specs.Costs.{searches_cost};
ghost use Rattle.rbbi_cache.specs.inner.Back.{AreBack, IsFilledPast};

use crate::reading_back::Back;
use crate::scan::low;
use crate::{Entry, Run};
use rbbi_table::ShortTable;
use rbbi_text::{Chars, Steps};
use std::sync::ledger::Ledger;

/// Fills the run from one of the two anchors up to the first boundary that isn't before `i`. Only
/// characters past those that were read back are read. It gives up (false), with nothing read,
/// where a search from a place before the near anchor would have to read.
pub(crate) fn fill_from<T: Chars, L: Ledger>(
    table: &ShortTable<'_>,
    text: &T,
    back: Back,
    categories: &[u16],
    anchor: u32,
    run: &mut Run,
    i: u32,
    steps: &mut Steps<L>,
) -> bool
    requires valid { IsValidTable table.now }
    requires some { 0 < i }
    requires within { i ≤ length (T.characters text.now) }
    requires small { i ≤ most_characters }
    requires back { AreBack table.now (T.characters text.now) i back.near back.wide back.from
        categories.now }
    requires covered { back.from ≤ back.near }
    requires anchor { (anchor ≡ back.near) ⊎ (anchor ≡ back.wide) }
    ensures filled { MatchBool result
        (IsFilledPast table.now (T.characters text.now) anchor (i - 1) run.new)
        ((anchor < back.near) × (steps.new ≡ steps.old)) }
    ensures more { steps.old ≤ steps.new }
    ensures cost { MatchBool result (steps.new + (i - 1 - back.near)
        ≤ steps.old + searches_cost table.now (T.characters text.now) back.near (i - 1)) ⊤ }
{
    run.begin(anchor);
    let least = low(anchor);
    let mut here = Entry {
        at: anchor,
        status: 0,
        reach: 0,
    };
    while here.at < i {
        let may_read = here.at >= back.near;
        let Some(found) = table.next_on(text, back.from, categories, here.at, may_read, steps)
        else {
            return false;
        };
        here = Entry {
            at: found.at,
            status: found.status,
            reach: here.reach.max(found.look),
        };
        if here.at >= least {
            run.push(here);
        }
    }
    true
}

/// As `fill_from` from the wide anchor, if it lies before the near one and before the floor.
pub(crate) fn fill_wide<T: Chars, L: Ledger>(
    table: &ShortTable<'_>,
    text: &T,
    back: Back,
    categories: &[u16],
    i: u32,
    floor: u32,
    run: &mut Run,
    steps: &mut Steps<L>,
) -> bool
    requires valid { IsValidTable table.now }
    requires some { 0 < i }
    requires within { i ≤ length (T.characters text.now) }
    requires small { i ≤ most_characters }
    requires back { AreBack table.now (T.characters text.now) i back.near back.wide back.from
        categories.now }
    requires covered { back.from ≤ back.near }
    ensures filled { MatchBool result
        (IsFilledPast table.now (T.characters text.now) back.wide (i - 1) run.new
        × (back.wide < back.near)) (steps.new ≡ steps.old) }
    ensures more { steps.old ≤ steps.new }
    ensures cost { MatchBool result (steps.new + (i - 1 - back.near)
        ≤ steps.old + searches_cost table.now (T.characters text.now) back.near (i - 1)) ⊤ }
{
    if back.wide >= back.near || back.wide >= floor {
        return false;
    }
    fill_from(table, text, back, categories, back.wide, run, i, steps)
}
