//! Many consecutive suppressed boundaries, which are passed over going back.
//!
//! Each stretch that searches from one anchor find is gone through once, forward. So it takes no
//! longer than in proportion to what is passed over, also in a text without safe pairs.
ghost use Rattle.std.specs.Prelude.{◌≡◌, ◌+◌, ◌-◌, ◌<◌, ◌≤◌, length};
ghost use Rattle.rbbi_session.specs.Stretches.{stretch_cost};
ghost use Rattle.rbbi_filter.specs.Abbreviations.{window_size};
ghost use Rattle.rbbi_filter.specs.inner.Stretches.{IsLastReported, GoesBackTo};

use crate::Lists;
use crate::trail::Trail;
use rbbi_session::{Boundary, Holds, SessionBy};
use rbbi_text::{Chars, EditText, Steps};
use std::sync::ledger::Ledger;

/// Goes to the last boundary before `o` that isn't suppressed.
pub(crate) fn far_before<H: Holds, T: EditText, A: Lists, L: Ledger>(
    session: &mut SessionBy<H, T>,
    held: &A,
    o: u32,
    steps: &mut Steps<L>,
) -> u32
    requires some { 0 < o }
    requires within { o ≤ length session.old.state.text }
    ensures { GoesBackTo (A.list_of held.now) session.old o result session.new steps.old steps.new }
{
    let mut from = o;
    'stretches: loop {
        let first = session.begin_stretch(from, steps);
        if first == 0 {
            return 0;
        }
        if let Some(last) = last_reported(session, held, from, steps) {
            session.stand_at(last);
            return last.at;
        }
        from = first;
    }
}

/// The last boundary from the cursor on and before `o` that isn't suppressed. It reads the
/// characters between them once, and those before the first one.
fn last_reported<H: Holds, T: EditText, A: Lists, L: Ledger>(
    session: &mut SessionBy<H, T>,
    held: &A,
    o: u32,
    steps: &mut Steps<L>,
) -> Option<Boundary>
    requires some { 0 < session.old.state.cursor }
    requires short { session.old.state.cursor < o }
    requires within { o ≤ length session.old.state.text }
    ensures table { session.new.table ≡ session.old.table }
    ensures text { session.new.state.text ≡ session.old.state.text }
    ensures found { IsLastReported (A.list_of held.now) session.old.table session.old.state.text
        session.old.state.cursor o result }
    ensures more { steps.old ≤ steps.new }
    ensures cost { steps.new ≤ steps.old + window_size + (o - 1 - session.old.state.cursor)
        + stretch_cost session.old.table session.old.state.text session.old.state.cursor o }
{
    // That the text has only characters is known of its length.
    let _length = session.text().len();
    let mut trail = Trail::start();
    let mut last = None;
    'boundaries: loop {
        let here = session.boundary();
        trail.go_on(session.text(), here.at, steps);
        if !held.ends(trail.chars()) {
            last = Some(here);
        }
        if session.search_on(steps) >= o {
            return last;
        }
    }
}
