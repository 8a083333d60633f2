//! Sessions through a filter, and their questions.
ghost use Rattle.std.specs.Prelude.{◌≡◌, ℕ, chars};
ghost use Rattle.rbbi_model.specs.Cover.{IsPlaceOf};
ghost use Rattle.rbbi_model.specs.Answers.{Place, Largest, statuses_at};
ghost use Rattle.rbbi_model.specs.Answers as question;
ghost use Rattle.rbbi_session.specs.Sessions.{place_reply, test_reply};
ghost use Rattle.rbbi_session.specs.Walks.{reply_to, IsAsked, IsAnswered};
ghost use Rattle.rbbi_session.specs.Walks.{Cover, ListsArePaid, Recall, CountsCharacters};
ghost use Rattle.rbbi_filter.specs.FilterSessions.{EditAnswers, EditReads, HasTrueRuns};
ghost use Rattle.rbbi_filter.specs.FilterSessions.{boundaries_of, filter_view};

use crate::moves::Moves;
use rbbi_session::{ByCharacters, InUnit, UnitEditErr, Walk};
use rbbi_text::{Chars, EditErr, Steps};
use std::marker::Model;
use std::sync::ledger::Ledger;

/// A session through a filter: a [`Filtered`](crate::Filtered) or a [`Tailored`](crate::Tailored).
/// Its questions are those of a [`Walk`].
///
/// Each answer is the one by the boundaries that are reported of the text as it is at that moment.
/// The text's start and its end are always boundaries. Places are in characters, from 0. No call
/// but `replace` takes memory.
#[derive(Drop)]
pub struct Through<M: Moves> {
    pub(crate) moves: M,
}

/// A session through a filter whose places, numbers and lengths count a unit.
pub type UnitThrough<M> = InUnit<Through<M>>;

impl<M: Moves> Model for Through<M> {
    ghost use Rattle.rbbi_filter.specs.FilterSessions.{FilterSession};

    ghost Value = { FilterSession };

    ghost view = { λ through. M.session through.moves };
}

impl<M: Moves> Through<M> {
    /// The text as it is now.
    pub fn text(&self) -> &M::Text
        ensures { M.Text.characters result.now ≡ self.now.state.text }
    {
        Walk::text(self)
    }

    /// Where the cursor is: at a boundary.
    pub fn current(&self) -> u32
        ensures at { result ≡ self.now.state.cursor }
        ensures boundary { IsPlaceOf (boundaries_of self.now) result }
    {
        Walk::current(self)
    }

    /// The statuses of the boundary at the cursor, which rise.
    pub fn status_list(&self) -> &[u32]
        ensures { result.now
            ≡ statuses_at (boundaries_of self.now) self.now.state.cursor }
    {
        Walk::status_list(self)
    }

    /// The greatest status of the boundary at the cursor.
    pub fn status(&self) -> u32
        ensures { Largest result ≡ reply_to filter_view self.now question.Status }
    {
        Walk::status(self)
    }

    /// Goes to the first boundary, which is 0.
    pub fn first(&mut self) -> u32
        ensures replied { Place result ≡ reply_to filter_view self.old question.First }
        ensures asked { (at : ℕ) → IsAsked filter_view self.old question.First self.new at at }
    {
        Walk::first(self)
    }

    /// Goes to the last boundary, which is the text's length.
    pub fn last<L: Ledger>(&mut self, steps: &mut Steps<L>) -> u32
        ensures { IsAnswered filter_view self.old question.Last (Place result) self.new
            steps.old steps.new }
    {
        Walk::last(self, steps)
    }

    /// Goes to the first boundary past the cursor. None where the cursor is at the text's end; then
    /// it stays.
    pub fn next<L: Ledger>(&mut self, steps: &mut Steps<L>) -> Option<u32>
        ensures { IsAnswered filter_view self.old question.Next (place_reply result) self.new
            steps.old steps.new }
    {
        Walk::next(self, steps)
    }

    /// Goes to the last boundary before the cursor. None where the cursor is at 0; then it stays.
    pub fn previous<L: Ledger>(&mut self, steps: &mut Steps<L>) -> Option<u32>
        ensures { IsAnswered filter_view self.old question.Previous (place_reply result) self.new
            steps.old steps.new }
    {
        Walk::previous(self, steps)
    }

    /// Goes to the first boundary past a place, which may lie after the text. None where there is
    /// none; then the cursor goes to the text's end.
    pub fn following<L: Ledger>(&mut self, o: u32, steps: &mut Steps<L>) -> Option<u32>
        ensures { IsAnswered filter_view self.old (question.Following o) (place_reply result) self.new
            steps.old steps.new }
    {
        Walk::following(self, o, steps)
    }

    /// Goes to the last boundary before a place, which may lie after the text. None where there is
    /// none, as for 0; then the cursor goes to 0.
    pub fn preceding<L: Ledger>(&mut self, o: u32, steps: &mut Steps<L>) -> Option<u32>
        ensures { IsAnswered filter_view self.old (question.Preceding o) (place_reply result) self.new
            steps.old steps.new }
    {
        Walk::preceding(self, o, steps)
    }

    /// Whether a place is a boundary. The cursor goes to the first boundary that isn't before the
    /// place, or where there is none, to the text's end.
    pub fn is_boundary<L: Ledger>(&mut self, o: u32, steps: &mut Steps<L>) -> bool
        ensures { IsAnswered filter_view self.old (question.IsBoundary o) (test_reply result) self.new
            steps.old steps.new }
    {
        Walk::is_boundary(self, o, steps)
    }

    /// Puts the characters of `insert` in place of `remove` characters from `at` on, and the cursor
    /// at 0.
    ///
    /// Refuses `Outside` where the text has fewer than `at + remove` characters, and otherwise
    /// `TooLong` where it would have more than 16,777,216 characters. After a refusal, also for
    /// memory, text and cursor are as before.
    pub fn replace<L: Ledger>(
        &mut self,
        at: u32,
        remove: u32,
        insert: &str,
        steps: &mut Steps<L>,
    ) -> Result<(), EditErr>
        ensures edited { EditAnswers self.old at remove (chars insert.now) result self.new }
        ensures reads { EditReads result steps.old steps.new }
    {
        self.moves.replace(at, remove, insert, steps)
    }

    /// That each kept run is true of the searched text as it is now. It is there for proofs, and
    /// does nothing when it runs.
    pub fn runs_are_true(&self)
        ensures { HasTrueRuns self.now }
    {
        self.moves.runs_are_true();
    }
}

impl<M: Moves> Walk for Through<M> {
    ghost use Rattle.rbbi_filter.specs.FilterSessions.{FilterSetting, filter_view};

    type Text = M::Text;

    ghost Setting = { FilterSetting };

    ghost view = { filter_view };

    fn text(&self) -> &M::Text {
        self.moves.text()
    }

    fn units(&self) -> u32 {
        self.moves.text().len()
    }

    fn current(&self) -> u32 {
        self.moves.current()
    }

    fn status_list(&self) -> &[u32] {
        self.moves.status_list()
    }

    fn first(&mut self) -> u32 {
        self.moves.to_start();
        0
    }

    fn last<L: Ledger>(&mut self, steps: &mut Steps<L>) -> u32 {
        self.moves.to_end(steps)
    }

    fn next<L: Ledger>(&mut self, steps: &mut Steps<L>) -> Option<u32> {
        let cursor = self.moves.current();
        if cursor >= self.moves.text().len() {
            return None;
        }
        Some(self.moves.past(cursor, steps))
    }

    fn previous<L: Ledger>(&mut self, steps: &mut Steps<L>) -> Option<u32> {
        let cursor = self.moves.current();
        if cursor == 0 {
            return None;
        }
        Some(self.moves.before(cursor, steps))
    }

    fn following<L: Ledger>(&mut self, o: u32, steps: &mut Steps<L>) -> Option<u32> {
        if o >= self.moves.text().len() {
            self.moves.to_end(steps);
            return None;
        }
        Some(self.moves.past(o, steps))
    }

    fn preceding<L: Ledger>(&mut self, o: u32, steps: &mut Steps<L>) -> Option<u32> {
        if o == 0 {
            self.moves.to_start();
            return None;
        }
        if o > self.moves.text().len() {
            return Some(self.moves.to_end(steps));
        }
        Some(self.moves.before(o, steps))
    }

    fn is_boundary<L: Ledger>(&mut self, o: u32, steps: &mut Steps<L>) -> bool {
        if o == 0 {
            self.moves.to_start();
            return true;
        }
        if o > self.moves.text().len() {
            self.moves.to_end(steps);
            return false;
        }
        self.moves.past(o - 1, steps) == o
    }

    fn replace<L: Ledger>(
        &mut self,
        at: u32,
        remove: u32,
        insert: &str,
        steps: &mut Steps<L>,
    ) -> Result<(), UnitEditErr> {
        match self.moves.replace(at, remove, insert, steps) {
            Ok(()) => Ok(()),
            Err(EditErr::Outside) => Err(UnitEditErr::Outside),
            Err(EditErr::TooLong) => Err(UnitEditErr::TooLong),
            Err(EditErr::Memory) => Err(UnitEditErr::Memory),
        }
    }

    fn laws()
        ensures cover { Cover filter_view }
        ensures lists { ListsArePaid filter_view }
        ensures recall { Recall filter_view }
    {}
}

impl<M: Moves> ByCharacters for Through<M> {
    fn counts_characters()
        ensures { CountsCharacters filter_view }
    {}
}
