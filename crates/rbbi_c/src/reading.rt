//! What is read of a session at once: boundaries within a range, the segment at a place, and parts
//! of the text. The cursor stays.
ghost use Rattle.std.specs.Prelude.{◌≡◌, None, MatchOption, MatchResult, string_bytes};
ghost use Rattle.rbbi_model.specs.Answers.{first_after};
ghost use Rattle.rbbi_session.specs.Walks.{reported};
ghost use Rattle.rbbi_session.specs.UnitWalks.{unit_view};
ghost use Rattle.rbbi_c.specs.Ranges.{past_up_to, before_down_to, columns, ListsOut};
ghost use Rattle.rbbi_c.specs.Segments.{IsSegmentAt};
ghost use Rattle.rbbi_c.specs.Parts.{IsPart, IsNoPart};
ghost use Rattle.rbbi_c.specs.Holding.{StaysThere};

use crate::desk::Desk;
use crate::listing::{Listing, list_before, list_past};
use crate::part::part_of;
use crate::segment::{Segment, segment_at};
use rbbi_session::{Holds, Walk};
use rbbi_text::Steps;
use std::alloc::Global;
use std::sync::ledger::Ledger;

impl Desk {
    /// Lists the boundaries past one number, up to another.
    pub(crate) fn boundaries<L: Ledger>(
        &mut self,
        from: u32,
        to: u32,
        places: &mut [u32],
        statuses: &mut [u32],
        steps: &mut Steps<L>,
    ) -> Listing
        ensures listed { ListsOut (past_up_to from to (reported unit_view self.old)) from
            (columns places.old statuses.old) (columns places.new statuses.new) result }
        ensures stays { StaysThere self.old self.new }
    {
        let unit = self.session.unit;
        list_past(
            &mut self.session.asked,
            self.table.table(),
            unit,
            from,
            to,
            places,
            statuses,
            &mut self.marks,
            steps,
        )
    }

    /// Lists the boundaries before one number, down to another, the last one first.
    pub(crate) fn boundaries_before<L: Ledger>(
        &mut self,
        from: u32,
        to: u32,
        places: &mut [u32],
        statuses: &mut [u32],
        steps: &mut Steps<L>,
    ) -> Listing
        ensures listed { ListsOut (before_down_to from to (reported unit_view self.old)) from
            (columns places.old statuses.old) (columns places.new statuses.new) result }
        ensures stays { StaysThere self.old self.new }
    {
        let unit = self.session.unit;
        list_before(
            &mut self.session.asked,
            unit,
            from,
            to,
            places,
            statuses,
            steps,
        )
    }

    /// The segment that holds a place, if one does.
    pub(crate) fn segment<L: Ledger>(&mut self, at: u32, steps: &mut Steps<L>) -> Option<Segment>
        ensures found { let boundaries = reported unit_view self.old in MatchOption result
            (first_after boundaries at ≡ None) (IsSegmentAt boundaries at) }
        ensures stays { StaysThere self.old self.new }
    {
        let unit = self.session.unit;
        segment_at(&mut self.session.asked, unit, at, steps)
    }

    /// The characters between two numbers, in UTF-8, or the code of the refusal.
    pub(crate) fn part<L: Ledger>(
        &self,
        alloc: Global,
        from: u32,
        to: u32,
        steps: &mut Steps<L>,
    ) -> Result<String, u32>
        ensures { MatchResult result
            (λ made. IsPart self.now.unit self.now.asked.state.text from to (string_bytes made))
            (IsNoPart self.now.unit self.now.asked.state.text from to) }
    {
        part_of(
            alloc,
            self.session.text(),
            self.session.unit,
            from,
            to,
            steps,
        )
    }
}
