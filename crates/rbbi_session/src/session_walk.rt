//! A session by characters as one of any kind.
ghost use Rattle.rbbi_session.specs.UnitWalks.{session_view};
ghost use Rattle.rbbi_session.specs.Walks.{Cover, ListsArePaid, Recall, CountsCharacters};

use crate::{ByCharacters, Holds, SessionBy, UnitEditErr, Walk};
use rbbi_text::{Chars, EditErr, EditText, Steps};
use std::sync::ledger::Ledger;

impl<H: Holds, T: EditText> Walk for SessionBy<H, T> {
    ghost use Rattle.rbbi_model.specs.Tables.{Table};
    ghost use Rattle.rbbi_session.specs.UnitWalks.{session_view};

    type Text = T;

    ghost Setting = { Table };

    ghost view = { session_view };

    fn text(&self) -> &T {
        self.text()
    }

    fn units(&self) -> u32 {
        self.text().len()
    }

    fn current(&self) -> u32 {
        self.current()
    }

    fn status_list(&self) -> &[u32] {
        self.status_list()
    }

    fn first(&mut self) -> u32 {
        self.first()
    }

    #[inline]
    fn last<L: Ledger>(&mut self, steps: &mut Steps<L>) -> u32 {
        self.last(steps)
    }

    #[inline]
    fn next<L: Ledger>(&mut self, steps: &mut Steps<L>) -> Option<u32> {
        self.next(steps)
    }

    #[inline]
    fn previous<L: Ledger>(&mut self, steps: &mut Steps<L>) -> Option<u32> {
        self.previous(steps)
    }

    #[inline]
    fn following<L: Ledger>(&mut self, o: u32, steps: &mut Steps<L>) -> Option<u32> {
        self.following(o, steps)
    }

    #[inline]
    fn preceding<L: Ledger>(&mut self, o: u32, steps: &mut Steps<L>) -> Option<u32> {
        self.preceding(o, steps)
    }

    #[inline]
    fn is_boundary<L: Ledger>(&mut self, o: u32, steps: &mut Steps<L>) -> bool {
        self.is_boundary(o, steps)
    }

    fn replace<L: Ledger>(
        &mut self,
        at: u32,
        remove: u32,
        insert: &str,
        steps: &mut Steps<L>,
    ) -> Result<(), UnitEditErr> {
        match self.replace(at, remove, insert, steps) {
            Ok(()) => Ok(()),
            Err(EditErr::Outside) => Err(UnitEditErr::Outside),
            Err(EditErr::TooLong) => Err(UnitEditErr::TooLong),
            Err(EditErr::Memory) => Err(UnitEditErr::Memory),
        }
    }

    fn laws()
        ensures cover { Cover session_view }
        ensures lists { ListsArePaid session_view }
        ensures recall { Recall session_view }
    {}
}

impl<H: Holds, T: EditText> ByCharacters for SessionBy<H, T> {
    fn counts_characters()
        ensures { CountsCharacters session_view }
    {}
}
