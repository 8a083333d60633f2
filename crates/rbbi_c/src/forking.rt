//! Second sessions, over a copy of the text.
ghost use Rattle.std.specs.Prelude.{◌≡◌, ◌<◌, IfOk};
ghost use Rattle.rbbi_model.specs.Cover.{IsPlaceOf};
ghost use Rattle.rbbi_model.specs.Units.{offset_of};
ghost use Rattle.rbbi_session.specs.Sessions.{boundaries_of};
ghost use Rattle.rbbi_session.specs.UnitSessions.{offset_in};
ghost use Rattle.rbbi_c.specs.Forking.{ForksThrough};
ghost use Rattle.rbbi_c.specs.Holding.{StaysThere};

use crate::bounds::go_back;
use crate::codes;
use crate::desk::Desk;
use crate::filter_lending::unserved_by;
use crate::handle::Handle;
use crate::held::Held;
use crate::lending::lend;
use crate::opening::{is_open, keep};
use crate::part::copy_of;
use crate::shared::SharedTable;
use rbbi_session::{UnitSessionBy, Walk};
use rbbi_text::{Chars, Pieces, Steps};
use std::alloc::{AllocError, Global};
use std::marker::Brand;
use std::rt::Memory;
use std::sync::ledger::{Blank, Ledger};

/// A session by the table of another one, over a copy of its text, with its cursor, which lies at
/// the offset.
fn forked<L: Ledger>(
    alloc: Global,
    table: &SharedTable,
    session: &UnitSessionBy<SharedTable, Pieces>,
    steps: &mut Steps<L>,
) -> Result<Desk, AllocError>
    requires { session.now.asked.table ≡ table.now }
    ensures { IfOk result (StaysThere session.now) }
{
    let text = session.text();
    let copy = copy_of(alloc, text, 0, text.len(), steps)?;
    let mut desk = Desk::open(alloc, table.share()?, copy, session.unit)?;
    desk.go(session.asked.current(), session.offset, steps);
    Ok(desk)
}

impl Desk {
    /// Goes to a boundary, which lies at the offset.
    fn go<L: Ledger>(&mut self, cursor: u32, offset: u32, steps: &mut Steps<L>)
        requires cursor { IsPlaceOf (boundaries_of self.old.asked) cursor }
        requires offset { offset ≡ offset_in self.old cursor }
        ensures unit { self.new.unit ≡ self.old.unit }
        ensures table { self.new.asked.table ≡ self.old.asked.table }
        ensures text { self.new.asked.state.text ≡ self.old.asked.state.text }
        ensures cursor { self.new.asked.state.cursor ≡ cursor }
    {
        go_back(&mut self.session.asked, cursor, steps);
        self.session.offset = offset;
    }

    /// Another session by the same table in the same unit, over a copy of the text, with the same
    /// cursor.
    pub(crate) fn fork<L: Ledger>(
        &self,
        alloc: Global,
        steps: &mut Steps<L>,
    ) -> Result<Desk, AllocError>
        ensures { IfOk result (StaysThere self.now) }
    {
        forked(alloc, &self.table, &self.session, steps)
    }
}

/// Forks a session, with a counter of its own.
fn fork_counted<L: Ledger>(
    memory: Memory,
    session: &mut Handle,
    copy: &mut Handle,
    blank: Blank,
) -> u32
    requires name { blank.name ≡ L.name }
    requires parts { blank.parts ≡ L.parts }
    requires some { 0 < blank.parts }
    ensures forked { ForksThrough session.old.held copy.old.held result copy.new.held }
    ensures session { session.new.held ≡ session.old.held }
{
    let alloc = Global::new(memory);
    if is_open(alloc, copy) {
        return codes::HANDLE;
    }
    let Some(mut held) = session.take(alloc) else {
        return codes::HANDLE;
    };
    let mut steps = Steps::<L>::exported(memory, blank);
    let code = match lend(&mut held) {
        Some(desk) => match desk.fork(alloc, &mut steps) {
            Ok(fork) => keep(alloc, copy, Held::Session(fork)),
            Err(_) => codes::MEMORY,
        },
        None => unserved_by(&held),
    };
    session.put(alloc, held);
    code
}

/// Opens a second session over a copy of a session's text, by the same table in the same unit, with
/// the same cursor.
#[unsafe(no_mangle)]
pub extern "C" fn rbbi_c_fork(memory: Memory, session: &mut Handle, copy: &mut Handle) -> u32
    ensures forked { ForksThrough session.old.held copy.old.held result copy.new.held }
    ensures session { session.new.held ≡ session.old.held }
{
    fork_counted::<Brand>(memory, session, copy, Blank::new(1))
}
