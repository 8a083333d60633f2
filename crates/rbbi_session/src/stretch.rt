//! A stretch of the text, gone through from boundary to boundary in one go.
//!
//! Who passes over many boundaries going back asks `previous` for each, and a search may have to
//! begin at the text's start again and again. These calls go through such a stretch once, forward.
ghost use Rattle.std.specs.Prelude.{◌≡◌, ◌+◌, ◌<◌, ◌≤◌, length, Some};
ghost use Rattle.rbbi_model.specs.Answers.{first_after};
ghost use Rattle.rbbi_model.specs.Costs.{anchor_below, characters_read};
ghost use Rattle.rbbi_text.specs.Steps.{RisesUpTo};
ghost use Rattle.rbbi_session.specs.Scans.{IsBoundaryWith};
ghost use Rattle.rbbi_session.specs.Sessions.{boundaries_of, MovesTo};
ghost use Rattle.rbbi_session.specs.Stretches.{BeginsStretch};

use crate::boundary::Boundary;
use crate::{Holds, SessionBy};
use rbbi_cache::anchor_before;
use rbbi_text::{Chars, EditText, Near, Steps};
use std::sync::ledger::Ledger;

impl<H: Holds, T: EditText> SessionBy<H, T> {
    /// The boundary at the cursor.
    pub fn boundary(&self) -> Boundary
        ensures at { result.at ≡ self.now.state.cursor }
        ensures boundary { IsBoundaryWith self.now.table self.now.state.text
            result.at result.status }
    {
        self.kept.here()
    }

    /// Puts the cursor at a boundary of the text. It reads nothing.
    pub fn stand_at(&mut self, boundary: Boundary)
        requires { IsBoundaryWith self.old.table self.old.state.text boundary.at boundary.status }
        ensures { MovesTo self.old boundary.at self.new }
    {
        self.kept.stand_at(boundary);
    }

    /// Goes to the first boundary past the cursor by one search, which isn't kept.
    pub fn search_on<L: Ledger>(&mut self, steps: &mut Steps<L>) -> u32
        requires { self.old.state.cursor < length self.old.state.text }
        ensures first { first_after (boundaries_of self.old) self.old.state.cursor ≡ Some result }
        ensures moved { MovesTo self.old result self.new }
        ensures read { RisesUpTo
            (characters_read self.old.table self.old.state.text self.old.state.cursor)
            steps.old steps.new }
    {
        self.kept.search_on(self.table.table(), steps)
    }

    /// Goes to a boundary before `o` from which the boundaries up to `o` can be gone through at
    /// what is left of the cost of `preceding`: the first one that is found from the last anchor
    /// that `preceding` may search from. It goes to 0 only where no other boundary lies before `o`.
    pub fn begin_stretch<L: Ledger>(&mut self, o: u32, steps: &mut Steps<L>) -> u32
        requires some { 0 < o }
        requires within { o ≤ length self.old.state.text }
        ensures { BeginsStretch self.old o result self.new steps.old steps.new }
    {
        self.table.table().valid();
        // That the text is short is known of its length.
        let _short = self.text().len();
        let mut anchor = self.anchor_before(o.saturating_sub(2), steps);
        'tries: loop {
            let below_low = if anchor == 0 { 0 } else { anchor + 1 };
            let place = self.go_past(below_low, steps);
            if place < o {
                return place;
            }
            if anchor == 0 {
                return self.first();
            }
            anchor = self.anchor_before((2 * anchor + 1).saturating_sub(o), steps);
        }
    }

    /// The greatest anchor below a place of the text, or 0.
    fn anchor_before<L: Ledger>(&self, place: u32, steps: &mut Steps<L>) -> u32
        requires { place < length self.now.state.text }
        ensures anchor { result ≡ anchor_below self.now.table self.now.state.text place }
        ensures more { steps.old ≤ steps.new }
        ensures read { steps.new + result ≤ steps.old + place + 1 }
        ensures nothing { place ≤ 1 → steps.new ≡ steps.old }
    {
        let near = Near::new(self.kept.text(), place);
        anchor_before(self.table.table(), &near, 0, place, steps)
    }
}
