//! How sessions through a filter go from boundary to boundary.
ghost use Rattle.std.specs.Prelude.{◌≡◌, ◌<◌, ◌≤◌, Some, length, chars};
ghost use Rattle.rbbi_model.specs.Answers.{first_after, last_before, statuses_at};
ghost use Rattle.rbbi_model.specs.Cover.{IsPlaceOf};
ghost use Rattle.rbbi_text.specs.Steps.{RisesUpTo};
ghost use Rattle.rbbi_filter.specs.FilterCosts.{forward_through, back_through, last_through};
ghost use Rattle.rbbi_filter.specs.FilterSessions.{boundaries_of, MovesTo, HasTrueRuns};
ghost use Rattle.rbbi_filter.specs.FilterSessions.{EditAnswers, EditReads};

use rbbi_text::{Chars, EditErr, Steps};
use std::sync::ledger::Ledger;

/// How a session through a filter goes from boundary to boundary of those that are reported.
pub trait Moves {
    ghost use Rattle.rbbi_filter.specs.FilterSessions.{FilterSession};

    /// The text as it is.
    type Text: Chars;

    /// What contracts see of the session.
    ghost session: { Self → FilterSession };

    /// The text as it is now.
    fn text(&self) -> &Self::Text
        ensures { Self.Text.characters result.now ≡ (session self.now).state.text };

    /// Where the cursor is: at a boundary.
    fn current(&self) -> u32
        ensures at { result ≡ (session self.now).state.cursor }
        ensures boundary { IsPlaceOf (boundaries_of (session self.now)) result };

    /// The statuses of the boundary at the cursor, which rise.
    fn status_list(&self) -> &[u32]
        ensures { result.now
            ≡ statuses_at (boundaries_of (session self.now)) (session self.now).state.cursor };

    /// Goes to the text's start.
    fn to_start(&mut self)
        ensures { MovesTo (session self.old) 0 (session self.new) };

    /// Goes to the text's end.
    fn to_end<L: Ledger>(&mut self, steps: &mut Steps<L>) -> u32
        ensures end { result ≡ length (session self.old).state.text }
        ensures moved { MovesTo (session self.old) result (session self.new) }
        ensures cost { let old = session self.old in
            RisesUpTo (last_through old.filter old.table old.state.text) steps.old steps.new };

    /// Goes to the first boundary past a place that lies within the text.
    fn past<L: Ledger>(&mut self, o: u32, steps: &mut Steps<L>) -> u32
        requires { o < length (session self.old).state.text }
        ensures first { first_after (boundaries_of (session self.old)) o ≡ Some result }
        ensures moved { MovesTo (session self.old) result (session self.new) }
        ensures cost { let old = session self.old in
            RisesUpTo (forward_through old.filter old.table old.state.text o)
            steps.old steps.new };

    /// Goes to the last boundary before a place of the text that isn't its start.
    fn before<L: Ledger>(&mut self, o: u32, steps: &mut Steps<L>) -> u32
        requires some { 0 < o }
        requires within { o ≤ length (session self.old).state.text }
        ensures last { last_before (boundaries_of (session self.old)) o ≡ Some result }
        ensures moved { MovesTo (session self.old) result (session self.new) }
        ensures cost { let old = session self.old in
            RisesUpTo (back_through old.filter old.table old.state.text o) steps.old steps.new };

    /// Edits the text, and goes to its start. After a refusal all is as before.
    fn replace<L: Ledger>(
        &mut self,
        at: u32,
        remove: u32,
        insert: &str,
        steps: &mut Steps<L>,
    ) -> Result<(), EditErr>
        ensures edited { EditAnswers (session self.old) at remove (chars insert.now) result
            (session self.new) }
        ensures reads { EditReads result steps.old steps.new };

    /// That each kept run is true of the searched text as it is now. It is there for proofs, and
    /// does nothing when it runs.
    fn runs_are_true(&self)
        ensures { HasTrueRuns (session self.now) };
}
