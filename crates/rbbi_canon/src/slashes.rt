//! How many look-ahead rules the rows of a table need.
ghost use Rattle.std.specs.Prelude.{◌≡◌, ◌<◌, ◌≤◌, ◌+◌, ◌^◌, ℕ, length};
ghost use Rattle.rbbi_canon.specs.inner.Slashes.{Allows, AllowsAll};

use rbbi_table::RowHead;

/// The least number of look-ahead rules that the accept number and the mask allow.
fn slashes_of(head: RowHead) -> u16
    ensures allowed { Allows result head }
    ensures least { (k : ℕ) → Allows k head → result ≤ k }
{
    let fronts = head.fronts;
    let mut count = 0u16;
    'bits: while count < 32 && fronts >> count != 0 {
        count += 1;
    }
    count.max(head.accept.saturating_sub(1))
}

/// The least number of look-ahead rules that the accept numbers and masks of all rows allow.
pub(crate) fn least_slashes(heads: &[RowHead]) -> u16
    ensures allowed { AllowsAll result heads.now }
    ensures least { (k : ℕ) → AllowsAll k heads.now → result ≤ k }
{
    let mut count = 0u16;
    for head in heads {
        count = count.max(slashes_of(*head));
    }
    count
}
