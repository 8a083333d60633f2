//! Fresh searches from an anchor.
ghost use Rattle.std.specs.Prelude.{◌≡◌, ◌<◌, ◌≤◌, length};
ghost use Rattle.rbbi_model.specs.Words.{most_characters};
ghost use Rattle.rbbi_model.specs.Runs.{low};
ghost use Rattle.rbbi_cache.specs.inner.Scans.{HasBegun, ContinuesScan};

use crate::{Entry, Run};
use rbbi_table::{FrontPlaces, Table};
use rbbi_text::{Chars, Steps};
use std::sync::ledger::Ledger;

/// The first place at which what is found from the anchor is a true boundary, statuses and all.
pub(crate) fn low(anchor: u32) -> u32
    requires { anchor < 4294967294 }
    ensures { result ≡ low anchor }
{
    if anchor == 0 { 1 } else { anchor + 2 }
}

/// Searches on from an entry of the run, or from its anchor, until a place past `i` is found, which
/// it gives, and adds what is found to the run.
pub(crate) fn scan<T: Chars, L: Ledger>(
    table: &Table,
    text: &T,
    run: &mut Run,
    from: Entry,
    i: u32,
    marks: &mut FrontPlaces,
    steps: &mut Steps<L>,
) -> Entry
    requires fit { marks.old ≡ table.now.slashes }
    requires within { i < length (T.characters text.now) }
    requires anchor { run.old.anchor ≤ i }
    requires small { i < most_characters }
    requires begun { HasBegun table.now (T.characters text.now) run.old.anchor i from run.old }
    ensures gone_on { ContinuesScan table.now (T.characters text.now) run.old.anchor i
        from run.old result run.new steps.old steps.new }
    ensures past { i < result.at }
    ensures fit { marks.new ≡ marks.old }
{
    let least = low(run.anchor());
    let mut here = from;
    while here.at <= i {
        let found = table.next(text, here.at, marks, steps);
        here = Entry {
            at: found.at,
            status: found.status,
            reach: here.reach.max(found.look),
        };
        if here.at >= least {
            run.push(here);
        }
    }
    here
}
