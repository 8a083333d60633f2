//! A session that shares its table, as a handle holds it.
ghost use Rattle.std.specs.Prelude.{◌≡◌, length, IfOk, MatchResult, chars};
ghost use Rattle.rbbi_c.specs.Asking.{question_of, told_of};
ghost use Rattle.rbbi_session.specs.UnitSessions.{IsOpenedBy, offset_in};
ghost use Rattle.rbbi_session.specs.Walks.{IsAsked, Edits, reply_to};
ghost use Rattle.rbbi_session.specs.UnitWalks.{unit_view};
ghost use Rattle.rbbi_c.specs.Reading.{AreListed};
ghost use Rattle.rbbi_c.specs.Changing.{IsToldChange};
ghost use Rattle.rbbi_c.specs.inner.Removing.{IsEditOf};

use crate::asking::{Ask, Told, answered};
use crate::changing::{Changed, replace_telling};
use crate::copying::copy_front;
use crate::shared::SharedTable;
use rbbi_session::{Holds, UnitEditErr, UnitSessionBy, Walk};
use rbbi_table::FrontPlaces;
use rbbi_text::{Pieces, Steps, Unit};
use std::alloc::{AllocError, Global};
use std::marker::Model;
use std::sync::ledger::Ledger;

/// A session by a unit that shares its table with others, and so may be kept by C. A contract sees
/// it as a [`UnitSession`](rbbi_session::UnitSession).
#[derive(Drop)]
pub struct Desk {
    /// One more share of the session's table.
    pub(crate) table: SharedTable,
    pub(crate) session: UnitSessionBy<SharedTable, Pieces>,
    /// Space for searches in the table.
    pub(crate) marks: FrontPlaces,
}

impl Model for Desk {
    ghost use Rattle.std.specs.Prelude.{◌≡◌};
    ghost use Rattle.rbbi_session.specs.UnitSessions.{UnitSession};

    ghost Value = { UnitSession };

    ghost view = { λ desk. desk.session };

    ghost invariant = { λ desk. (desk.session.asked.table ≡ desk.table)
        × (desk.marks ≡ desk.table.slashes) };
}

impl Desk {
    /// A session over a text, with the cursor at 0.
    pub(crate) fn open(
        alloc: Global,
        table: SharedTable,
        text: Pieces,
        unit: Unit,
    ) -> Result<Desk, AllocError>
        ensures { IfOk result (λ desk. IsOpenedBy unit table text desk) }
    {
        let marks = FrontPlaces::new(alloc, table.table())?;
        let session = UnitSessionBy::open(alloc, table.share()?, text, unit)?;
        Ok(Desk {
            table,
            session,
            marks,
        })
    }

    /// What a question answers.
    #[inline(always)]
    pub(crate) fn ask<L: Ledger>(&mut self, asked: Ask, steps: &mut Steps<L>) -> Told
        ensures told { result ≡ told_of (reply_to unit_view self.old (question_of asked)) }
        ensures asked { IsAsked unit_view self.old (question_of asked) self.new
            steps.old steps.new }
    {
        answered(&mut self.session, asked, steps)
    }

    /// What an edit answers.
    pub(crate) fn replace<L: Ledger>(
        &mut self,
        at: u32,
        remove: u32,
        insert: &str,
        steps: &mut Steps<L>,
    ) -> Result<(), UnitEditErr>
        ensures { Edits unit_view self.old at remove (chars insert.now) result self.new
            steps.old steps.new }
    {
        self.session.replace(at, remove, insert, steps)
    }

    /// What an edit answers. Where it is accepted, what it changed is written.
    pub(crate) fn replace_telling<L: Ledger>(
        &mut self,
        alloc: Global,
        at: u32,
        remove: u32,
        insert: &str,
        change: &mut Changed,
        steps: &mut Steps<L>,
    ) -> Result<(), UnitEditErr>
        ensures edits { IsEditOf self.old at remove (chars insert.now) result self.new }
        ensures told { MatchResult result (λ _.
            IsToldChange self.old self.new at remove (chars insert.now) change.new)
            (λ _. change.new ≡ change.old) }
    {
        let session = &self.session;
        let unit = session.unit;
        replace_telling(
            alloc,
            self.table.table(),
            unit,
            &mut self.session,
            at,
            remove,
            insert,
            change,
            &mut self.marks,
            steps,
        )
    }

    /// The length of the text in the unit.
    pub(crate) fn length(&self) -> u32
        ensures { result ≡ offset_in self.now (length self.now.asked.state.text) }
    {
        self.session.units()
    }

    /// Writes the statuses at the cursor, as many as there is room for. How many there are.
    pub(crate) fn statuses(&self, room: &mut [u32]) -> usize
        ensures { AreListed unit_view self.now room.old room.new result }
    {
        let list = self.session.status_list();
        copy_front(list, room);
        list.len()
    }
}
