//! A session over a text.
ghost use Rattle.std.specs.Prelude.{◌≡◌, ◌<◌, length, chars, Some, IfOk};
ghost use Rattle.rbbi_model.specs.Cover.{IsPlaceOf};
ghost use Rattle.rbbi_model.specs.Answers.{Place, Largest, AllOf, first_after, last_before};
ghost use Rattle.rbbi_model.specs.Answers as question;
ghost use Rattle.rbbi_model.specs.Costs.{question_cost, forward_cost, preceding_cost};
ghost use Rattle.rbbi_session.specs.Sessions.{boundaries_of, answer_of, IsOpened, MovesTo};
ghost use Rattle.rbbi_session.specs.Sessions.{Answers, place_reply, test_reply, EditAnswers};
ghost use Rattle.rbbi_session.specs.Sessions.{HasTrueRuns};
ghost use Rattle.rbbi_session.specs.Questions.{Past, Back};
ghost use Rattle.rbbi_session.specs.Asking.{IsAsked, Asks, EditReads};

use crate::holds::Holds;
use crate::kept::Kept;
use crate::statuses::greatest;
use rbbi_table::Table;
use rbbi_text::{EditErr, EditText, Steps};
use std::alloc::{AllocError, Global};
use std::marker::Model;
use std::sync::ledger::Ledger;

/// A text with a table of break rules and a cursor. The cursor stands at a boundary, at first at 0.
///
/// Each answer is the one that a scan of the whole text from its start gives. Boundaries that were
/// found are kept, so that a question reads only what it must, and asked again it reads nothing; an
/// edit leaves what it doesn't touch. Places are in characters, from 0. No call but `open` and
/// `replace` takes memory.
pub type Session<'a, T> = SessionBy<&'a Table, T>;

/// A [`Session`] by a table that is borrowed or shared.
#[derive(Drop)]
pub struct SessionBy<H: Holds, T: EditText> {
    pub(crate) table: H,
    pub(crate) kept: Kept<T>,
}

impl<H: Holds, T: EditText> Model for SessionBy<H, T> {
    ghost use Rattle.rbbi_session.specs.Sessions.{Session};
    ghost use Rattle.rbbi_session.specs.inner.Keeping.{IsKeptBy, kept_session};

    ghost Value = { Session };

    ghost view = { λ session. kept_session (H.table_of session.table) session.kept };

    ghost invariant = { λ session. IsKeptBy (H.table_of session.table) session.kept };
}

impl<H: Holds + Drop, T: EditText + Drop> SessionBy<H, T> {
    /// A session over a text, with the cursor at 0. After the refusal the text is dropped.
    pub fn open(alloc: Global, table: H, text: T) -> Result<SessionBy<H, T>, AllocError>
        ensures { IfOk result (λ session.
            IsOpened (H.table_of table) (T.characters text) session) }
    {
        let kept = Kept::new(alloc, table.table(), text)?;
        Ok(SessionBy { table, kept })
    }
}

impl<H: Holds, T: EditText> SessionBy<H, T> {
    /// Goes to the first boundary, which is 0.
    pub fn first(&mut self) -> u32
        ensures answers { Answers self.old question.First (Place result) self.new }
        ensures runs { self.new.runs ≡ self.old.runs }
        ensures are_true { HasTrueRuns self.new }
    {
        self.kept.to_start(self.table.table());
        0
    }

    /// Goes to the last boundary, which is the text's length.
    pub fn last<L: Ledger>(&mut self, steps: &mut Steps<L>) -> u32
        ensures answers { Answers self.old question.Last (Place result) self.new }
        ensures reads { Asks self.old question.Last self.new steps.old steps.new }
    {
        let len = self.text().len();
        if len == 0 {
            return self.first();
        }
        self.go_past(len - 1, steps)
    }

    /// Goes to the first boundary past the cursor. None where the cursor is at the text's end; then
    /// it stays.
    pub fn next<L: Ledger>(&mut self, steps: &mut Steps<L>) -> Option<u32>
        ensures answers { Answers self.old question.Next (place_reply result) self.new }
        ensures reads { Asks self.old question.Next self.new steps.old steps.new }
    {
        let at = self.kept.here().at;
        if at >= self.text().len() {
            return None;
        }
        Some(self.go_past(at, steps))
    }

    /// Goes to the last boundary before the cursor. None where the cursor is at 0; then it stays.
    pub fn previous<L: Ledger>(&mut self, steps: &mut Steps<L>) -> Option<u32>
        ensures answers { Answers self.old question.Previous (place_reply result) self.new }
        ensures reads { Asks self.old question.Previous self.new steps.old steps.new }
    {
        let at = self.kept.here().at;
        if at == 0 {
            return None;
        }
        Some(self.go_before(at, steps))
    }

    /// Goes to the first boundary past a place, which may lie after the text. None where there is
    /// none; then the cursor goes to the text's end.
    pub fn following<L: Ledger>(&mut self, o: u32, steps: &mut Steps<L>) -> Option<u32>
        ensures answers { Answers self.old (question.Following o) (place_reply result) self.new }
        ensures reads { Asks self.old (question.Following o) self.new steps.old steps.new }
    {
        if o >= self.text().len() {
            self.last(steps);
            return None;
        }
        Some(self.go_past(o, steps))
    }

    /// Goes to the last boundary before a place, which may lie after the text. None where there is
    /// none, as for place 0; then the cursor goes to 0.
    pub fn preceding<L: Ledger>(&mut self, o: u32, steps: &mut Steps<L>) -> Option<u32>
        ensures answers { Answers self.old (question.Preceding o) (place_reply result) self.new }
        ensures reads { Asks self.old (question.Preceding o) self.new steps.old steps.new }
    {
        if o == 0 {
            self.first();
            return None;
        }
        Some(self.go_before(o, steps))
    }

    /// Whether a place is a boundary. The cursor goes to the first boundary that isn't before the
    /// place, or where there is none, to the text's end.
    pub fn is_boundary<L: Ledger>(&mut self, o: u32, steps: &mut Steps<L>) -> bool
        ensures answers { Answers self.old (question.IsBoundary o) (test_reply result) self.new }
        ensures reads { Asks self.old (question.IsBoundary o) self.new steps.old steps.new }
    {
        if o == 0 {
            self.first();
            return true;
        }
        if o > self.text().len() {
            self.last(steps);
            return false;
        }
        self.go_past(o - 1, steps) == o
    }

    /// Where the cursor is: at a boundary.
    pub fn current(&self) -> u32
        ensures answer { Place result ≡ (answer_of self.now question.Current).reply }
        ensures boundary { IsPlaceOf (boundaries_of self.now) result }
    {
        self.kept.here().at
    }

    /// The greatest status of the boundary at the cursor.
    pub fn status(&self) -> u32
        ensures { Largest result ≡ (answer_of self.now question.Status).reply }
    {
        greatest(self.status_list())
    }

    /// The statuses of the boundary at the cursor, which rise.
    pub fn status_list(&self) -> &[u32]
        ensures { AllOf result.now ≡ (answer_of self.now question.Statuses).reply }
    {
        self.table.table().status_list(self.kept.here().status)
    }

    /// The text as it is now.
    pub fn text(&self) -> &T
        ensures { T.characters result.now ≡ self.now.state.text }
    {
        self.kept.text()
    }

    /// What holds the table, and the text. It takes no memory.
    pub fn into_parts(self) -> (H, T)
        ensures table { H.table_of result.0 ≡ self.table }
        ensures text { T.characters result.1 ≡ self.state.text }
    {
        let SessionBy { table, kept } = self;
        (table, kept.into_text())
    }

    /// What holds the table.
    pub fn holder(&self) -> &H
        ensures { H.table_of result.now ≡ self.now.table }
    {
        &self.table
    }

    /// That each kept run is true of the text as it is now. Callers' proofs don't see what a
    /// session keeps to itself, and this call shows it to them at any moment; it does nothing when
    /// it runs.
    pub fn runs_are_true(&self)
        ensures { HasTrueRuns self.now }
    {
        let _kept = &self.kept;
    }

    /// Puts the characters of `insert` in place of `remove` characters from `at` on, and the cursor
    /// at 0.
    ///
    /// Refuses `Outside` where the text has fewer than `at + remove` characters, and otherwise
    /// `TooLong` where it would have more than 16,777,216 characters. After a refusal, also for
    /// memory, text and cursor are as before.
    pub fn replace<L: Ledger>(
        &mut self,
        at: u32,
        remove: u32,
        insert: &str,
        steps: &mut Steps<L>,
    ) -> Result<(), EditErr>
        ensures edited { EditAnswers self.old at remove (chars insert.now) result self.new }
        ensures reads { EditReads self.old at remove (chars insert.now) result self.new
            steps.old steps.new }
        ensures are_true { HasTrueRuns self.new }
    {
        self.kept
            .replace(self.table.table(), at, remove, insert, steps)
    }

    /// Goes to the first boundary past `i`, which lies within the text.
    pub(crate) fn go_past<L: Ledger>(&mut self, i: u32, steps: &mut Steps<L>) -> u32
        requires { i < length self.old.state.text }
        ensures first { first_after (boundaries_of self.old) i ≡ Some result }
        ensures moved { MovesTo self.old result self.new }
        ensures reads { IsAsked self.old (Past i)
            (forward_cost self.old.table self.old.state.text i)
            self.new steps.old steps.new }
    {
        self.kept.after(self.table.table(), i, steps)
    }

    /// Goes to the last boundary before `o`, which isn't 0.
    fn go_before<L: Ledger>(&mut self, o: u32, steps: &mut Steps<L>) -> u32
        requires { 0 < o }
        ensures last { last_before (boundaries_of self.old) o ≡ Some result }
        ensures moved { MovesTo self.old result self.new }
        ensures reads { IsAsked self.old (Back o)
            (preceding_cost self.old.table self.old.state.text o) self.new steps.old steps.new }
    {
        self.kept.before(self.table.table(), o, steps)
    }
}
