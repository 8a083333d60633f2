//! How many segments have a status.
ghost use Rattle.std.specs.Prelude.{◌≡◌, ◌+◌, ◌^◌, ◌<◌, ◌≤◌, ℕ, length, slice_index, IfOk, OnOk};
ghost use Rattle.std.specs.Prelude.{sum, ◌==◌, if◌then◌else◌};
ghost use Rattle.rbbi_tally.specs.inner.Values.{count_below, sum_at, AreValues};

use rbbi_session::greatest;
use rbbi_table::Table;
use std::alloc::{AllocError, Global};

/// A value that is the largest status of some segments, and how many they are.
#[derive(Clone, Copy, PartialEq, Eq)]
pub struct ValueCount {
    /// The value.
    pub value: u32,
    /// How many segments have it as their largest status.
    pub count: u32,
}

/// Values with their counts, by rising values.
pub type Counts = Vec<ValueCount>;

/// The sum of the counts of the status lists.
pub(crate) fn total(counts: &[u32]) -> u32
    requires { sum counts.now < 2 ^ 32 }
    ensures { result ≡ sum counts.now }
{
    let mut all = 0;
    for count in counts {
        all += *count;
    }
    all
}

/// How many segments have a value as their largest status, by the counts of the status lists.
pub(crate) fn count_of(table: &Table, counts: &[u32], value: u32) -> u32
    requires lists { length counts.now ≡ length table.now.lists }
    requires small { count_below table.now counts.now (length table.now.lists) value < 2 ^ 32 }
    ensures { result ≡ count_below table.now counts.now (length table.now.lists) value }
{
    let mut sum = 0;
    for list in 0..table.lists() {
        if greatest(table.status_list(list)) == value {
            sum += counts[list as usize];
        }
    }
    sum
}

/// Adds to the count of a value.
fn add(pairs: &mut Counts, value: u32, count: u32) -> Result<(), AllocError>
    requires { sum_at pairs.old.items value + count < 2 ^ 32 }
    ensures { OnOk result ((of : ℕ → ℕ) → AreValues of pairs.old.items →
        AreValues (λ v. of v + (if value == v then count else 0)) pairs.new.items) }
{
    if count == 0 {
        return Ok(());
    }
    let mut place = pairs.len();
    while place > 0 && pairs[place - 1].value > value {
        place -= 1;
    }
    if place > 0 && pairs[place - 1].value == value {
        pairs[place - 1].count += count;
        return Ok(());
    }
    pairs.insert(place, ValueCount { value, count })?;
    Ok(())
}

/// The values that some segment has, with their counts.
pub(crate) fn values_of(alloc: Global, table: &Table, counts: &[u32]) -> Result<Counts, AllocError>
    requires lists { length counts.now ≡ length table.now.lists }
    requires small { (value : ℕ) →
        count_below table.now counts.now (length table.now.lists) value < 2 ^ 32 }
    ensures { IfOk result (λ pairs. AreValues
        (count_below table.now counts.now (length table.now.lists)) pairs.items) }
{
    let mut pairs = Vec::new(alloc);
    for list in 0..table.lists() {
        add(
            &mut pairs,
            greatest(table.status_list(list)),
            counts[list as usize],
        )?;
    }
    Ok(pairs)
}
