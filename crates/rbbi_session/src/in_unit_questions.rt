//! The questions of a session whose places count a unit, by their own names: each is that of
//! [`Walk`].
ghost use Rattle.std.specs.Prelude.{◌≡◌, ℕ, chars};
ghost use Rattle.rbbi_model.specs.Cover.{IsPlaceOf};
ghost use Rattle.rbbi_model.specs.Answers.{Place, Largest, statuses_at};
ghost use Rattle.rbbi_model.specs.Answers as question;
ghost use Rattle.rbbi_session.specs.Sessions.{place_reply, test_reply};
ghost use Rattle.rbbi_session.specs.UnitWalks.{in_unit};
ghost use Rattle.rbbi_session.specs.Walks.{reported, reply_to, IsAsked, IsAnswered, Edits};

use crate::{ByCharacters, InUnit, UnitEditErr, Walk};
use rbbi_text::{Steps, UnitText};
use std::sync::ledger::Ledger;

impl<W: ByCharacters> InUnit<W>
where
    W::Text: UnitText,
{
    /// The text as it is now.
    pub fn text(&self) -> &W::Text
        ensures { W.Text.characters result.now ≡ ((in_unit W.view).state self.now).text }
    {
        Walk::text(self)
    }

    /// Where the cursor is: at a boundary.
    pub fn current(&self) -> u32
        ensures at { result ≡ ((in_unit W.view).state self.now).cursor }
        ensures boundary { IsPlaceOf (reported (in_unit W.view) self.now) result }
    {
        Walk::current(self)
    }

    /// The statuses of the boundary at the cursor, which rise.
    pub fn status_list(&self) -> &[u32]
        ensures { result.now
            ≡ statuses_at (reported (in_unit W.view) self.now) ((in_unit W.view).state self.now).cursor }
    {
        Walk::status_list(self)
    }

    /// The greatest status of the boundary at the cursor.
    pub fn status(&self) -> u32
        ensures { Largest result ≡ reply_to (in_unit W.view) self.now question.Status }
    {
        Walk::status(self)
    }

    /// Goes to the first boundary, which is 0.
    pub fn first(&mut self) -> u32
        ensures replied { Place result ≡ reply_to (in_unit W.view) self.old question.First }
        ensures asked { (at : ℕ) → IsAsked (in_unit W.view) self.old question.First self.new at at }
    {
        Walk::first(self)
    }

    /// Goes to the last boundary, which is the text's length.
    pub fn last<L: Ledger>(&mut self, steps: &mut Steps<L>) -> u32
        ensures { IsAnswered (in_unit W.view) self.old question.Last (Place result) self.new
            steps.old steps.new }
    {
        Walk::last(self, steps)
    }

    /// Goes to the first boundary past the cursor. None where the cursor is at the text's end; then
    /// it stays.
    pub fn next<L: Ledger>(&mut self, steps: &mut Steps<L>) -> Option<u32>
        ensures { IsAnswered (in_unit W.view) self.old question.Next (place_reply result) self.new
            steps.old steps.new }
    {
        Walk::next(self, steps)
    }

    /// Goes to the last boundary before the cursor. None where the cursor is at 0; then it stays.
    pub fn previous<L: Ledger>(&mut self, steps: &mut Steps<L>) -> Option<u32>
        ensures { IsAnswered (in_unit W.view) self.old question.Previous (place_reply result) self.new
            steps.old steps.new }
    {
        Walk::previous(self, steps)
    }

    /// Goes to the first boundary past a number, which may lie after the text. None where there is
    /// none; then the cursor goes to the text's end.
    pub fn following<L: Ledger>(&mut self, o: u32, steps: &mut Steps<L>) -> Option<u32>
        ensures { IsAnswered (in_unit W.view) self.old (question.Following o) (place_reply result) self.new
            steps.old steps.new }
    {
        Walk::following(self, o, steps)
    }

    /// Goes to the last boundary before a number, which may lie after the text. None where there is
    /// none, as for 0; then the cursor goes to 0.
    pub fn preceding<L: Ledger>(&mut self, o: u32, steps: &mut Steps<L>) -> Option<u32>
        ensures { IsAnswered (in_unit W.view) self.old (question.Preceding o) (place_reply result) self.new
            steps.old steps.new }
    {
        Walk::preceding(self, o, steps)
    }

    /// Whether a number is a boundary. The cursor goes to the first boundary that isn't before the
    /// number, or where there is none, to the text's end.
    pub fn is_boundary<L: Ledger>(&mut self, o: u32, steps: &mut Steps<L>) -> bool
        ensures { IsAnswered (in_unit W.view) self.old (question.IsBoundary o) (test_reply result) self.new
            steps.old steps.new }
    {
        Walk::is_boundary(self, o, steps)
    }

    /// Puts the characters of `insert` in place of so much of the unit from `at` on, and the cursor
    /// at 0.
    ///
    /// Refuses `Outside` where the text has less of the unit than `at + remove`, otherwise `Inside`
    /// where `at` or `at + remove` is inside of a character, and otherwise `TooLong` where the text
    /// would have more than 16,777,216 characters. After a refusal, also for memory, all is as
    /// before.
    pub fn replace<L: Ledger>(
        &mut self,
        at: u32,
        remove: u32,
        insert: &str,
        steps: &mut Steps<L>,
    ) -> Result<(), UnitEditErr>
        ensures { Edits (in_unit W.view) self.old at remove (chars insert.now) result self.new
            steps.old steps.new }
    {
        Walk::replace(self, at, remove, insert, steps)
    }
}
