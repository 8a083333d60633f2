//! A session through a filter that shares its table, as a handle holds it.
ghost use Rattle.std.specs.Prelude.{◌≡◌, length, chars, MatchResult, string_bytes};
ghost use Rattle.rbbi_filter.specs.UnitFilters.{offset_in, unit_filter_view};
ghost use Rattle.rbbi_session.specs.Walks.{IsAsked, Edits, reply_to};
ghost use Rattle.rbbi_c.specs.Asking.{question_of, told_of};
ghost use Rattle.rbbi_c.specs.Filtering.{IsThrough};
ghost use Rattle.rbbi_c.specs.Parts.{IsPart, IsNoPart};
ghost use Rattle.rbbi_c.specs.Reading.{AreListed};

use crate::asking::{Ask, Told};
use crate::desk::Desk;
use crate::filter_asking::{answered_through, statuses_through};
use crate::part::part_of;
use crate::shared::SharedTable;
use rbbi_filter::{Abbreviations, Filter, Suppressed, Tailoring, Through, Turned, UnitThrough};
use rbbi_session::{UnitEditErr, UnitSessionBy, Walk};
use rbbi_text::{Pieces, Steps};
use std::alloc::Global;
use std::marker::Model;
use std::sync::ledger::Ledger;

/// A session past abbreviations, or through pairs, which it owns.
#[derive(Drop)]
pub(crate) enum FilterSession {
    Suppressing(UnitThrough<Suppressed<SharedTable, Pieces, Abbreviations>>),
    Turning(UnitThrough<Turned<SharedTable, Pieces, Tailoring>>),
}

/// A session through a filter by a unit that shares its table with others, and so may be kept by C.
/// A contract sees it as a [`UnitThrough`].
#[derive(Drop)]
pub struct FilterDesk {
    session: FilterSession,
}

impl Model for FilterDesk {
    ghost use Rattle.rbbi_filter.specs.UnitFilters.{UnitFilterSession};
    ghost use Rattle.rbbi_c.specs.inner.FilterDesks.{session_of};

    ghost Value = { UnitFilterSession };

    ghost view = { λ desk. session_of desk.session };
}

impl FilterDesk {
    /// From a session to one through a filter over the same text, with the cursor at 0. After the
    /// refusal for memory the session is given back as it was.
    pub(crate) fn open(alloc: Global, desk: Desk, filter: Filter) -> Result<FilterDesk, Desk>
        ensures { MatchResult result (IsThrough desk filter) (λ former. former ≡ desk) }
    {
        let Desk {
            table,
            session,
            marks,
        } = desk;
        let UnitSessionBy {
            asked,
            unit,
            offset,
            near,
        } = session;
        match filter {
            Filter::Suppressing(list) => {
                let session = UnitThrough::new(Through::past(asked, list), unit);
                Ok(FilterDesk {
                    session: FilterSession::Suppressing(session),
                })
            }
            Filter::Turning(pairs) => match Through::of(alloc, asked, pairs) {
                Ok(session) => Ok(FilterDesk {
                    session: FilterSession::Turning(UnitThrough::new(session, unit)),
                }),
                Err(asked) => Err(Desk {
                    table,
                    session: UnitSessionBy {
                        asked,
                        unit,
                        offset,
                        near,
                    },
                    marks,
                }),
            },
        }
    }

    /// What a question answers. It is long, so all exports have one copy.
    #[inline(never)]
    pub(crate) fn ask<L: Ledger>(&mut self, asked: Ask, steps: &mut Steps<L>) -> Told
        ensures told { result ≡ told_of (reply_to unit_filter_view self.old (question_of asked)) }
        ensures asked { IsAsked unit_filter_view self.old (question_of asked) self.new
            steps.old steps.new }
    {
        match &mut self.session {
            FilterSession::Suppressing(session) => answered_through(session, asked, steps),
            FilterSession::Turning(session) => answered_through(session, asked, steps),
        }
    }

    /// What an edit answers.
    pub(crate) fn replace<L: Ledger>(
        &mut self,
        at: u32,
        remove: u32,
        insert: &str,
        steps: &mut Steps<L>,
    ) -> Result<(), UnitEditErr>
        ensures { Edits unit_filter_view self.old at remove (chars insert.now) result self.new
            steps.old steps.new }
    {
        match &mut self.session {
            FilterSession::Suppressing(session) => session.replace(at, remove, insert, steps),
            FilterSession::Turning(session) => session.replace(at, remove, insert, steps),
        }
    }

    /// Writes the statuses at the cursor, as many as there is room for. How many there are.
    pub(crate) fn statuses(&self, room: &mut [u32]) -> usize
        ensures { AreListed unit_filter_view self.now room.old room.new result }
    {
        match &self.session {
            FilterSession::Suppressing(session) => statuses_through(session, room),
            FilterSession::Turning(session) => statuses_through(session, room),
        }
    }

    /// The length of the text in the unit.
    pub(crate) fn length(&self) -> u32
        ensures { result ≡ offset_in self.now (length self.now.asked.state.text) }
    {
        match &self.session {
            FilterSession::Suppressing(session) => session.units(),
            FilterSession::Turning(session) => session.units(),
        }
    }

    /// The characters between two numbers, in UTF-8, or the code of the refusal.
    pub(crate) fn part<L: Ledger>(
        &self,
        alloc: Global,
        from: u32,
        to: u32,
        steps: &mut Steps<L>,
    ) -> Result<String, u32>
        ensures { MatchResult result
            (λ made. IsPart self.now.unit self.now.asked.state.text from to (string_bytes made))
            (IsNoPart self.now.unit self.now.asked.state.text from to) }
    {
        match &self.session {
            FilterSession::Suppressing(session) => {
                part_of(alloc, session.text(), session.unit(), from, to, steps)
            }
            FilterSession::Turning(session) => {
                part_of(alloc, session.text(), session.unit(), from, to, steps)
            }
        }
    }
}
