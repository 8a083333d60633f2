//! A tally that shares its table, as a handle holds it.
ghost use Rattle.std.specs.Prelude.{◌≡◌, IfOk, chars};
ghost use Rattle.rbbi_c.specs.Tallying.{boundaries_of, counted_in, EditsTally};
ghost use Rattle.rbbi_c.specs.inner.Tallied.{tally_by};
ghost use Rattle.rbbi_tally.specs.Counts.{AreCounts};

use crate::shared::SharedTable;
use crate::span::span_of;
use rbbi_session::UnitEditErr;
use rbbi_tally::{Counts, TallyBy};
use rbbi_text::{EditErr, Pieces, Steps, Unit, UnitText};
use std::alloc::{AllocError, Global};
use std::marker::Model;
use std::sync::ledger::Ledger;

/// A tally by a unit that shares its table with others, and so may be kept by C.
#[derive(Drop)]
pub struct TallyDesk {
    unit: Unit,
    tally: TallyBy<SharedTable, Pieces>,
}

impl Model for TallyDesk {
    ghost use Rattle.rbbi_c.specs.Tallying.{UnitTally};
    ghost use Rattle.rbbi_c.specs.inner.Tallied.{tally_by};

    ghost Value = { UnitTally };

    ghost view = { λ desk. tally_by desk.unit desk.tally };
}

/// Edits a tally between two numbers of a unit.
fn replace_in<L: Ledger>(
    tally: &mut TallyBy<SharedTable, Pieces>,
    unit: Unit,
    at: u32,
    remove: u32,
    insert: &str,
    steps: &mut Steps<L>,
) -> Result<(), UnitEditErr>
    ensures { EditsTally (tally_by unit tally.old) at remove (chars insert.now) result
        (tally_by unit tally.new) }
{
    let span = span_of(tally.text(), unit, at, remove)?;
    match tally.replace(span.first, span.end - span.first, insert, steps) {
        Ok(()) => Ok(()),
        Err(EditErr::Outside) => Err(UnitEditErr::Outside),
        Err(EditErr::TooLong) => Err(UnitEditErr::TooLong),
        Err(EditErr::Memory) => Err(UnitEditErr::Memory),
    }
}

impl TallyDesk {
    /// A tally over a text.
    pub(crate) fn open<L: Ledger>(
        alloc: Global,
        table: SharedTable,
        text: Pieces,
        unit: Unit,
        steps: &mut Steps<L>,
    ) -> Result<TallyDesk, AllocError>
        ensures { IfOk result (λ desk.
            desk ≡ record { unit = unit; table = table; text = text }) }
    {
        let mut text = text;
        text.make_ready(unit);
        let tally = TallyBy::open(alloc, table, text, steps)?;
        Ok(TallyDesk { unit, tally })
    }

    /// Puts the characters of `insert` in place of `remove` units from `at` on.
    pub(crate) fn replace<L: Ledger>(
        &mut self,
        at: u32,
        remove: u32,
        insert: &str,
        steps: &mut Steps<L>,
    ) -> Result<(), UnitEditErr>
        ensures { EditsTally self.old at remove (chars insert.now) result self.new }
    {
        replace_in(&mut self.tally, self.unit, at, remove, insert, steps)
    }

    /// How many segments there are, or how many have a status as their largest one.
    pub(crate) fn count(&self, status: Option<u32>) -> u32
        ensures { result ≡ counted_in status (boundaries_of self.now) }
    {
        match status {
            Some(status) => self.tally.count(status),
            None => self.tally.segments(),
        }
    }

    /// The statuses that some segment has as its largest one, which rise, with their counts.
    pub(crate) fn each(&self, alloc: Global) -> Result<Counts, AllocError>
        ensures { IfOk result (λ counts. AreCounts (boundaries_of self.now) counts.items) }
    {
        self.tally.each(alloc)
    }
}
