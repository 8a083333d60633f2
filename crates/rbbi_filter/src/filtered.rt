//! A session that leaves out boundaries before which an abbreviation stands.
ghost use Rattle.rbbi_filter.specs.Closures.{AnswersEnds};
ghost use Rattle.rbbi_filter.specs.declared.filter.Filter.TheVariants.{Suppressing};
ghost use Rattle.rbbi_filter.specs.FilterSessions.{HasTrueRuns, IsOpened};

use crate::lists::AnswersFor;
use crate::moves::Moves;
use crate::stretch::far_before;
use crate::through::Through;
use crate::window::is_suppressed;
use crate::{Abbreviations, Lists, Predicate};
use rbbi_session::{Holds, Session, SessionBy};
use rbbi_table::Table;
use rbbi_text::{EditErr, EditText, Steps};
use std::marker::Model;
use std::sync::ledger::Ledger;

/// How many suppressed boundaries are passed over one by one going back, before whole stretches
/// are: as many as a kept run has.
const ONE_BY_ONE: u32 = 256;

/// A session that doesn't report a boundary within the text where a predicate is true of the
/// characters before it, at most 64: that is where they end with an abbreviation of a list. Its
/// answers are by the boundaries that are left.
pub type Filtered<'a, T, P> = Through<Suppressed<&'a Table, T, AnswersFor<'a, P>>>;

/// A session, and the abbreviations after which no boundary is reported.
#[derive(Drop)]
pub struct Suppressed<H: Holds, T: EditText, A: Lists> {
    /// Its cursor stands at a boundary that is reported.
    session: SessionBy<H, T>,
    held: A,
}

impl<H: Holds, T: EditText, A: Lists> Model for Suppressed<H, T, A> {
    ghost use Rattle.rbbi_filter.specs.FilterSessions.{FilterSession};
    ghost use Rattle.rbbi_filter.specs.declared.filter.Filter.TheVariants.{Suppressing};
    ghost use Rattle.rbbi_filter.specs.inner.Windows.{IsAtKept};

    ghost Value = { FilterSession };

    ghost view = { λ suppressed. record {
      filter = Suppressing (A.list_of suppressed.held);
      table = suppressed.session.table;
      state = suppressed.session.state;
      runs = suppressed.session.runs;
    } };

    ghost invariant = { λ suppressed.
        IsAtKept (A.list_of suppressed.held) suppressed.session.state };
}

impl<H: Holds, T: EditText, A: Lists> Through<Suppressed<H, T, A>> {
    /// The session through the abbreviations that are held, with the cursor at 0. It takes no
    /// memory.
    pub fn past(session: SessionBy<H, T>, held: A) -> Through<Suppressed<H, T, A>>
        ensures opened { IsOpened (Suppressing (A.list_of held)) session.table
            session.state.text result }
        ensures are_true { HasTrueRuns result }
    {
        let mut session = session;
        session.first();
        Through {
            moves: Suppressed { session, held },
        }
    }
}

impl<'a, T: EditText, P: Predicate> Through<Suppressed<&'a Table, T, AnswersFor<'a, P>>> {
    /// The session through these abbreviations, with the cursor at 0. `keep` answers for at most
    /// 64 characters before a boundary whether they end with one of them. It takes no memory.
    pub fn open(session: Session<'a, T>, list: &'a Abbreviations, keep: P) -> Filtered<'a, T, P>
        requires { AnswersEnds (P.can_ask keep) (P.answers keep) list.now }
        ensures opened { IsOpened (Suppressing list.now) session.entry.table
            session.entry.state.text result }
        ensures are_true { HasTrueRuns result }
    {
        Through::past(session, AnswersFor::new(list, keep))
    }
}

impl<H: Holds, T: EditText, A: Lists> Moves for Suppressed<H, T, A> {
    type Text = T;

    ghost session = { λ suppressed. suppressed };

    fn text(&self) -> &T {
        self.session.text()
    }

    fn current(&self) -> u32 {
        self.session.current()
    }

    fn status_list(&self) -> &[u32] {
        // Where the cursor is says that a boundary is there.
        let _here = self.session.current();
        self.session.status_list()
    }

    fn to_start(&mut self) {
        self.session.first();
    }

    fn to_end<L: Ledger>(&mut self, steps: &mut Steps<L>) -> u32 {
        self.session.last(steps)
    }

    fn past<L: Ledger>(&mut self, o: u32, steps: &mut Steps<L>) -> u32 {
        let mut from = o;
        while let Some(at) = self.session.following(from, steps) {
            if !is_suppressed(self.session.text(), at, &self.held, steps) {
                return at;
            }
            from = at;
        }
        from
    }

    fn before<L: Ledger>(&mut self, o: u32, steps: &mut Steps<L>) -> u32 {
        let mut from = o;
        let mut left = ONE_BY_ONE;
        while let Some(at) = self.session.preceding(from, steps) {
            if !is_suppressed(self.session.text(), at, &self.held, steps) {
                return at;
            }
            from = at;
            left -= 1;
            if left == 0 {
                return far_before(&mut self.session, &self.held, from, steps);
            }
        }
        from
    }

    fn replace<L: Ledger>(
        &mut self,
        at: u32,
        remove: u32,
        insert: &str,
        steps: &mut Steps<L>,
    ) -> Result<(), EditErr> {
        self.session.replace(at, remove, insert, steps)
    }

    fn runs_are_true(&self) {
        self.session.runs_are_true();
    }
}
