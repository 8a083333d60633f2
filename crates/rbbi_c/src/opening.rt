//! Tables in handles, and sessions by them.
ghost use Rattle.std.specs.Prelude.{◌≡◌, ◌⊎◌, None, Some, MatchResult, MatchBool, IsSome};
ghost use Rattle.rbbi_c.specs.Opening.{unit_named, IsSource, IsNoSession, IsOpenedFrom};
ghost use Rattle.rbbi_c.specs.Holding as holding;

use crate::answering::text_of;
use crate::codes;
use crate::desk::Desk;
use crate::handle::Handle;
use crate::held::Held;
use crate::shared::SharedTable;
use rbbi_text::{Pieces, TextErr, Unit};
use std::alloc::Global;

/// Puts what there is to hold into a handle, and frees what it held. Where there is no memory, the
/// handle stays as it is.
pub(crate) fn keep(alloc: Global, handle: &mut Handle, held: Held) -> u32
    ensures { ((result ≡ 0) × (handle.new.held ≡ Some held))
        ⊎ ((result ≡ 9) × (handle.new.held ≡ handle.old.held)) }
{
    match Box::new(alloc, held) {
        Ok(held) => {
            handle.put(alloc, held);
            codes::OK
        }
        Err(_) => codes::MEMORY,
    }
}

/// Whether a handle holds something.
pub(crate) fn is_open(alloc: Global, handle: &mut Handle) -> bool
    ensures same { handle.new.held ≡ handle.old.held }
    ensures open { MatchBool result (holding.HoldsSomething handle.old.held)
        (handle.old.held ≡ None) }
{
    match handle.take(alloc) {
        Some(held) => {
            handle.put(alloc, held);
            true
        }
        None => false,
    }
}

/// The unit of a number.
fn unit_of(unit: u32) -> Option<Unit>
    ensures { result ≡ unit_named unit }
{
    match unit {
        0 => Some(Unit::Chars),
        1 => Some(Unit::Utf8),
        2 => Some(Unit::Utf16),
        _ => None,
    }
}

/// One more owner of the table in a box.
fn shared_of(held: &Held) -> Result<SharedTable, u32>
    ensures { MatchResult result (λ table. holding.table_in (Some held.now) ≡ Some table)
        (λ code. ((code ≡ 3) × (holding.table_in (Some held.now) ≡ None))
        ⊎ ((code ≡ 9) × IsSome (holding.table_in (Some held.now)))) }
{
    match held {
        Held::Table(shared) => match shared.share() {
            Ok(shared) => Ok(shared),
            Err(_) => Err(codes::MEMORY),
        },
        _ => Err(codes::HANDLE),
    }
}

/// One more owner of the table that a handle holds, or the code of the refusal.
pub(crate) fn table_in(alloc: Global, table: &mut Handle) -> Result<SharedTable, u32>
    ensures told { MatchResult result (λ shared. holding.table_in table.old.held ≡ Some shared)
        (λ code. ((code ≡ 3) × (holding.table_in table.old.held ≡ None))
        ⊎ ((code ≡ 9) × IsSome (holding.table_in table.old.held))) }
    ensures same { table.new.held ≡ table.old.held }
{
    let Some(held) = table.take(alloc) else {
        return Err(codes::HANDLE);
    };
    let shared = shared_of(&held);
    table.put(alloc, held);
    shared
}

/// What a session or a tally is opened by.
pub(crate) struct Source {
    pub(crate) table: SharedTable,
    pub(crate) unit: Unit,
    pub(crate) text: Pieces,
}

/// The table of a handle, the unit of a number and the text of the bytes, or the code of the
/// refusal.
pub(crate) fn source_of(
    alloc: Global,
    table: &mut Handle,
    text: &[u8],
    unit: u32,
) -> Result<Source, u32>
    ensures told { MatchResult result (λ source.
        IsSource table.old.held text.now unit source.table source.unit source.text)
        (IsNoSession table.old.held text.now unit) }
    ensures same { table.new.held ≡ table.old.held }
{
    let Some(unit) = unit_of(unit) else {
        return Err(codes::UNIT);
    };
    let text = text_of(text)?;
    let table = table_in(alloc, table)?;
    match Pieces::new(alloc, text) {
        Ok(text) => Ok(Source { table, unit, text }),
        Err(TextErr::TooManyChars) => Err(codes::TOO_LONG),
        Err(TextErr::Memory) => Err(codes::MEMORY),
    }
}

/// The session that is asked for, or the code of the refusal.
pub(crate) fn session_of(
    alloc: Global,
    table: &mut Handle,
    text: &[u8],
    unit: u32,
) -> Result<Desk, u32>
    ensures told { MatchResult result (IsOpenedFrom table.old.held text.now unit)
        (IsNoSession table.old.held text.now unit) }
    ensures same { table.new.held ≡ table.old.held }
{
    let Source { table, unit, text } = source_of(alloc, table, text, unit)?;
    match Desk::open(alloc, table, text, unit) {
        Ok(desk) => Ok(desk),
        Err(_) => Err(codes::MEMORY),
    }
}
