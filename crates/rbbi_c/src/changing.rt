//! Edits that report what they changed.
ghost use Rattle.std.specs.Prelude.{◌≡◌, ◌<◌, chars, MatchResult};
ghost use Rattle.rbbi_c.specs.Changing.{IsToldChange, EditsTellingThrough};
ghost use Rattle.rbbi_c.specs.inner.Removing.{IsRemoved, IsNotRemoved, IsEditOf};

use crate::answering::{edit_code, text_of};
use crate::codes;
use crate::filter_lending::unserved_by;
use crate::handle::Handle;
use crate::lending::lend;
use crate::part::copy_of;
use crate::shared::SharedTable;
use crate::span::span_of;
use rbbi_change::{Before, Edit, changed};
use rbbi_session::{UnitEditErr, UnitSessionBy, Walk};
use rbbi_table::{FrontPlaces, Table};
use rbbi_text::{Chars, Pieces, Steps, Unit, UnitText};
use std::alloc::Global;
use std::marker::Brand;
use std::rt::Memory;
use std::sync::ledger::{Blank, Ledger};

/// What an edit changed, in the session's unit: a range of the old and of the new text.
#[repr(C)]
#[derive(Clone, Copy)]
pub struct Changed {
    /// Where it begins, in both texts.
    pub from: u32,
    /// Where it ended in the old text.
    pub old_to: u32,
    /// Where it ends in the new text.
    pub new_to: u32,
}

/// The characters that an edit removes.
#[derive(Drop)]
pub(crate) struct Removed {
    /// Where they begin, in characters from 0.
    pub(crate) first: u32,
    pub(crate) text: Pieces,
}

/// The characters that an edit is to remove, or why it is refused.
fn removed_by<L: Ledger>(
    alloc: Global,
    text: &Pieces,
    unit: Unit,
    at: u32,
    remove: u32,
    steps: &mut Steps<L>,
) -> Result<Removed, UnitEditErr>
    ensures { MatchResult result (IsRemoved unit text.now at remove)
        (IsNotRemoved unit text.now at remove) }
{
    let span = span_of(text, unit, at, remove)?;
    match copy_of(alloc, text, span.first, span.end, steps) {
        Ok(text) => Ok(Removed {
            first: span.first,
            text,
        }),
        Err(_) => Err(UnitEditErr::Memory),
    }
}

/// Edits a session, and reports what that changed among its boundaries.
pub(crate) fn replace_telling<L: Ledger>(
    alloc: Global,
    table: &Table,
    unit: Unit,
    session: &mut UnitSessionBy<SharedTable, Pieces>,
    at: u32,
    remove: u32,
    insert: &str,
    change: &mut Changed,
    marks: &mut FrontPlaces,
    steps: &mut Steps<L>,
) -> Result<(), UnitEditErr>
    requires table { session.old.asked.table ≡ table.now }
    requires unit { session.old.unit ≡ unit }
    requires fit { marks.old ≡ table.now.slashes }
    ensures edits { IsEditOf session.old at remove (chars insert.now) result session.new }
    ensures told { MatchResult result (λ _.
        IsToldChange session.old session.new at remove (chars insert.now) change.new)
        (λ _. change.new ≡ change.old) }
    ensures fit { marks.new ≡ marks.old }
{
    let units = session.units();
    let length = session.text().len();
    let removed = removed_by(alloc, session.text(), unit, at, remove, steps)?;
    session.replace(at, remove, insert, steps)?;
    let text = session.text();
    let edit = Edit {
        at: removed.first,
        removed: removed.text.len(),
        inserted: text.len() + removed.text.len() - length,
    };
    let before = Before::new(text, &removed.text, edit.at, edit.inserted);
    let found = changed(table, &before, text, edit, marks, steps);
    let new_to = text.offset(unit, found.new_to);
    *change = Changed {
        from: text.offset(unit, found.from),
        old_to: units - (session.units() - new_to),
        new_to,
    };
    Ok(())
}

/// Edits the session that a handle holds, and reports what that changed, with a counter of its own.
fn edit_telling_counted<L: Ledger>(
    memory: Memory,
    session: &mut Handle,
    at: u32,
    remove: u32,
    insert: &[u8],
    change: &mut Changed,
    blank: Blank,
) -> u32
    requires name { blank.name ≡ L.name }
    requires parts { blank.parts ≡ L.parts }
    requires some { 0 < blank.parts }
    ensures { EditsTellingThrough session.old.held at remove insert.now result
        change.old change.new session.new.held }
{
    let text = match text_of(insert) {
        Ok(text) => text,
        Err(code) => return code,
    };
    let alloc = Global::new(memory);
    let Some(mut held) = session.take(alloc) else {
        return codes::HANDLE;
    };
    let mut steps = Steps::<L>::exported(memory, blank);
    let code = match lend(&mut held) {
        Some(desk) => {
            edit_code(desk.replace_telling(alloc, at, remove, text, change, &mut steps))
        }
        None => unserved_by(&held),
    };
    session.put(alloc, held);
    code
}

/// Puts bytes of UTF-8 in place of a part of the text, and the cursor at 0, and writes what that
/// changed among the boundaries.
#[unsafe(no_mangle)]
pub extern "C" fn rbbi_c_replace_changed(
    memory: Memory,
    session: &mut Handle,
    at: u32,
    remove: u32,
    insert: &[u8],
    change: &mut Changed,
) -> u32
    ensures { EditsTellingThrough session.old.held at remove insert.now result
        change.old change.new session.new.held }
{
    edit_telling_counted::<Brand>(memory, session, at, remove, insert, change, Blank::new(1))
}
