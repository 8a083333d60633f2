//! What is marked at a set of positions.
ghost use Rattle.std.specs.Prelude.{◌≡◌, ◌<◌, ◌≤◌, ◌⊎◌, ◌+◌, ◌++◌, ◌∷◌, [], ◌^◌, ℕ, length};
ghost use Rattle.std.specs.Prelude.{slice_index, IfOk, OnOk};
ghost use Rattle.rbbi_dfa.specs.inner.Determinizing.{IsAccept, AreFrontsOf, AreTagsOf};

use crate::determinize::position_rows::Rows;
use rbbi_bits::{has, meet};
use std::alloc::{AllocError, Global};

/// The lower accept number of two, where those below 2 count as the highest.
fn least(accept: u16, number: u16) -> u16
    ensures { (((accept < 2) ⊎ (number < accept)) × (result ≡ number))
        ⊎ ((2 ≤ accept) × (accept ≤ number) × (result ≡ accept)) }
{
    if accept < 2 || number < accept {
        number
    } else {
        accept
    }
}

/// The accept number of the set.
pub(crate) fn accept(rows: &Rows, set: &[u64]) -> u16
    requires { length set.now ≡ rows.now.width }
    ensures { IsAccept rows.now set.now result }
{
    let mut accept = if meet(set, &rows.last) { 1 } else { 0 };
    for mark in &rows.completed {
        if has(set, mark.position as usize) {
            accept = least(accept, (mark.mark + 2) as u16);
        }
    }
    accept
}

/// The front mask of the set, where no look-ahead rule is completed.
pub(crate) fn fronts(rows: &Rows, set: &[u64]) -> u32
    ensures bits { AreFrontsOf rows.now set.now result }
    ensures small { result < 2 ^ rows.now.slashes }
{
    let mut fronts: u32 = 0;
    for mark in &rows.fronts {
        if has(set, mark.position as usize) {
            fronts |= 1 << mark.mark;
        }
    }
    fronts
}

/// Adds the status number at the end, unless the last one isn't below it.
fn add_status(statuses: &mut Vec<u32>, status: u32) -> Result<(), AllocError>
    ensures { OnOk result (((statuses.new.items ≡ statuses.old.items) × ((k : ℕ)
        × (length statuses.old.items ≡ k + 1) × (status ≤ slice_index statuses.old.items k)))
        ⊎ ((statuses.new.items ≡ statuses.old.items ++ status ∷ []) × ((k : ℕ)
        → length statuses.old.items ≡ k + 1 → slice_index statuses.old.items k < status))) }
{
    let len = statuses.len();
    if len > 0 && status <= statuses[len - 1] {
        return Ok(());
    }
    statuses.push(status)?;
    Ok(())
}

/// The status numbers of the set, rising and without repeats, or 0 alone where there are none.
pub(crate) fn statuses(alloc: Global, rows: &Rows, set: &[u64]) -> Result<Vec<u32>, AllocError>
    ensures { IfOk result (λ statuses. AreTagsOf rows.now set.now statuses.items) }
{
    let mut statuses: Vec<u32> = Vec::new(alloc);
    for mark in &rows.tags {
        if has(set, mark.position as usize) {
            add_status(&mut statuses, mark.mark)?;
        }
    }
    if statuses.is_empty() {
        statuses.push(0)?;
    }
    Ok(statuses)
}
