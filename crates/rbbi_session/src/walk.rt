//! Sessions of every kind.
ghost use Rattle.std.specs.Prelude.{◌≡◌, ℕ, chars};
ghost use Rattle.rbbi_model.specs.Cover.{IsPlaceOf};
ghost use Rattle.rbbi_model.specs.Answers.{Place, Largest, statuses_at};
ghost use Rattle.rbbi_model.specs.Answers as question;
ghost use Rattle.rbbi_session.specs.Sessions.{place_reply, test_reply};
ghost use Rattle.rbbi_session.specs.Walks.{kind_of, reported, reply_to, IsAsked, IsAnswered};
ghost use Rattle.rbbi_session.specs.Walks.{Edits, Cover, ListsArePaid, Recall};
ghost use Rattle.rbbi_session.specs.Walks.{CountsCharacters};

use crate::{UnitEditErr, greatest};
use rbbi_text::{Chars, Steps};
use std::sync::ledger::Ledger;

/// A session: a text and a cursor that goes from boundary to boundary. Contracts see which
/// boundaries it reports, what a question and an edit may read, and how it counts places.
///
/// A [`Session`](crate::Session) counts characters, and a [`UnitSession`](crate::UnitSession) a
/// unit. Other kinds leave boundaries out, or look for them in a text that is mapped. Code for
/// sessions of every kind is generic over this.
pub trait Walk {
    ghost use Rattle.rbbi_session.specs.Walks.{View};

    /// The text as it is.
    type Text: Chars;

    /// What questions and edits leave as it is.
    ghost Setting: { Type 0 };

    /// How contracts see the session.
    ghost view: { View Self Setting };

    /// The text as it is now.
    fn text(&self) -> &Self::Text
        ensures { Self.Text.characters result.now ≡ (view.state self.now).text };

    /// The length of the text.
    fn units(&self) -> u32
        ensures { result ≡ (kind_of view self.now).units (view.state self.now).text };

    /// Where the cursor is: at a boundary.
    fn current(&self) -> u32
        ensures at { result ≡ (view.state self.now).cursor }
        ensures boundary { IsPlaceOf (reported view self.now) result };

    /// The statuses of the boundary at the cursor, which rise.
    fn status_list(&self) -> &[u32]
        ensures { result.now ≡ statuses_at (reported view self.now) (view.state self.now).cursor };

    /// The greatest status of the boundary at the cursor.
    fn status(&self) -> u32
        ensures { Largest result ≡ reply_to view self.now question.Status }
    {
        greatest(self.status_list())
    }

    /// Goes to the first boundary, which is 0.
    fn first(&mut self) -> u32
        ensures replied { Place result ≡ reply_to view self.old question.First }
        ensures asked { (at : ℕ) → IsAsked view self.old question.First self.new at at };

    /// Goes to the last boundary, which is the text's length.
    fn last<L: Ledger>(&mut self, steps: &mut Steps<L>) -> u32
        ensures { IsAnswered view self.old question.Last (Place result) self.new
            steps.old steps.new };

    /// Goes to the first boundary past the cursor. None where the cursor is at the text's end; then
    /// it stays.
    fn next<L: Ledger>(&mut self, steps: &mut Steps<L>) -> Option<u32>
        ensures { IsAnswered view self.old question.Next (place_reply result) self.new
            steps.old steps.new };

    /// Goes to the last boundary before the cursor. None where the cursor is at 0; then it stays.
    fn previous<L: Ledger>(&mut self, steps: &mut Steps<L>) -> Option<u32>
        ensures { IsAnswered view self.old question.Previous (place_reply result) self.new
            steps.old steps.new };

    /// Goes to the first boundary past a number, which may lie after the text. None where there is
    /// none; then the cursor goes to the text's end.
    fn following<L: Ledger>(&mut self, o: u32, steps: &mut Steps<L>) -> Option<u32>
        ensures { IsAnswered view self.old (question.Following o) (place_reply result) self.new
            steps.old steps.new };

    /// Goes to the last boundary before a number, which may lie after the text. None where there
    /// is none, as for 0; then the cursor goes to 0.
    fn preceding<L: Ledger>(&mut self, o: u32, steps: &mut Steps<L>) -> Option<u32>
        ensures { IsAnswered view self.old (question.Preceding o) (place_reply result) self.new
            steps.old steps.new };

    /// Whether a number is a boundary. The cursor goes to the first boundary that isn't before the
    /// number, or where there is none, to the text's end.
    fn is_boundary<L: Ledger>(&mut self, o: u32, steps: &mut Steps<L>) -> bool
        ensures { IsAnswered view self.old (question.IsBoundary o) (test_reply result) self.new
            steps.old steps.new };

    /// Puts the characters of `insert` in place of so much from `at` on, and the cursor at 0. After
    /// a refusal all is as before.
    fn replace<L: Ledger>(
        &mut self,
        at: u32,
        remove: u32,
        insert: &str,
        steps: &mut Steps<L>,
    ) -> Result<(), UnitEditErr>
        ensures { Edits view self.old at remove (chars insert.now) result self.new
            steps.old steps.new };

    /// Law: the boundaries of a text cover it, a list of them costs what is asked for it, and where
    /// sessions recall, a question that is repeated reads nothing. It is there for proofs, and does
    /// nothing when it runs.
    fn laws()
        ensures cover { Cover view }
        ensures lists { ListsArePaid view }
        ensures recall { Recall view };
}

/// A session whose places and lengths count characters. Its answers in a unit are those of an
/// [`InUnit`](crate::InUnit).
pub trait ByCharacters: Walk {
    /// Law: places and lengths count characters. It is there for proofs, and does nothing when it
    /// runs.
    fn counts_characters()
        ensures { CountsCharacters Self.view };
}
