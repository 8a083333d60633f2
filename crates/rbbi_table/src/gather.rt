//! Rows gathered once each.
ghost use Rattle.std.specs.Prelude.{◌≡◌, ◌<◌, length, OnOk};
ghost use Rattle.rbbi_table.specs.inner.Targets.{IsGathered, AddsTarget};

use std::alloc::AllocError;

/// Adds a row to the targets, unless it is among them. `seen` says which rows are.
pub(crate) fn add_target(
    seen: &mut Vec<bool>,
    targets: &mut Vec<u16>,
    target: u16,
) -> Result<(), AllocError>
    requires row { target < length seen.old.items }
    requires gathered { IsGathered seen.old.items targets.old.items }
    ensures gathered { OnOk result (IsGathered seen.new.items targets.new.items) }
    ensures len { length seen.new.items ≡ length seen.old.items }
    ensures adds { OnOk result (AddsTarget targets.old.items target targets.new.items) }
{
    if !seen[target as usize] {
        seen[target as usize] = true;
        targets.push(target)?;
    }
    Ok(())
}
