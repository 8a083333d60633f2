//! Boundaries of a text in one call.
ghost use Rattle.std.specs.Prelude.{◌≡◌, ◌≤◌, [], length, true, false};
ghost use Rattle.rbbi_model.specs.declared.unit.Unit.TheVariants.{Utf8, Utf16};
ghost use Rattle.rbbi_scan.specs.Columns.{columns};
ghost use Rattle.rbbi_scan.specs.Breaks.{Breaks};

use crate::reached::{Asked, Reached};
use crate::scanning::scan;
use crate::utf8::Utf8Text;
use crate::utf16::Utf16Text;
use rbbi_table::Table;
use rbbi_text::Steps;
use std::alloc::Global;
use std::sync::ledger::Ledger;

/// All segments of a text that stands whole in memory, and its words alone.
const ALL: Asked = Asked {
    only_words: false,
    origin: 0,
};

const WORDS: Asked = Asked {
    only_words: true,
    origin: 0,
};

/// Gives the boundaries of a text in UTF-8 that follow a place, in bytes from 0, as many as there
/// is room for, each with its greatest status. The place is a boundary, as 0 is.
///
/// `places` is the room for boundaries, `statuses` the room for their statuses, which may be less.
/// To go on is to call with the place that was reached. So the boundaries of one call after the
/// other are exactly those of the text, in order and none twice. Bytes that aren't UTF-8 are
/// reported once a search reads them.
///
/// Nothing of the text is copied but windows of 1,024 characters, and wider ones as far as a search
/// reads. Memory is asked for with those, and for tables with look-ahead rules.
pub fn breaks_utf8<L: Ledger>(
    alloc: Global,
    table: &Table,
    text: &[u8],
    from: usize,
    places: &mut [u64],
    statuses: &mut [u32],
    steps: &mut Steps<L>,
) -> Reached
    requires { from ≤ length text.now }
    ensures within { result.resume ≤ length text.now }
    ensures room { result.count ≤ length places.new }
    ensures breaks { Breaks Utf8 table.now false text.now from
        (columns [] places.old statuses.old)
        (columns [] places.new statuses.new) result }
{
    let _len = text.len();
    scan(
        alloc,
        table,
        ALL,
        &Utf8Text { bytes: text },
        from,
        true,
        &mut [],
        places,
        statuses,
        steps,
    )
}

/// Gives the boundaries of a text in UTF-16 that follow a place, in its units from 0, as many as
/// there is room for, each with its greatest status. A surrogate that is alone spells nothing, and is
/// reported once a search reads it. The rest is as in `breaks_utf8`.
pub fn breaks_utf16<L: Ledger>(
    alloc: Global,
    table: &Table,
    text: &[u16],
    from: usize,
    places: &mut [u64],
    statuses: &mut [u32],
    steps: &mut Steps<L>,
) -> Reached
    requires { from ≤ length text.now }
    ensures within { result.resume ≤ length text.now }
    ensures room { result.count ≤ length places.new }
    ensures breaks { Breaks Utf16 table.now false text.now from
        (columns [] places.old statuses.old)
        (columns [] places.new statuses.new) result }
{
    let _len = text.len();
    scan(
        alloc,
        table,
        ALL,
        &Utf16Text { units: text },
        from,
        true,
        &mut [],
        places,
        statuses,
        steps,
    )
}

/// Gives the segments of a text in UTF-8 that are words: those in which a letter or a digit of any
/// script stands. `starts` is the room for where each starts, `ends` the room for where it ends.
/// The rest is as in `breaks_utf8`.
pub fn words_utf8<L: Ledger>(
    alloc: Global,
    table: &Table,
    text: &[u8],
    from: usize,
    starts: &mut [u64],
    ends: &mut [u64],
    statuses: &mut [u32],
    steps: &mut Steps<L>,
) -> Reached
    requires { from ≤ length text.now }
    ensures within { result.resume ≤ length text.now }
    ensures room { result.count ≤ length ends.new }
    ensures breaks { Breaks Utf8 table.now true text.now from
        (columns starts.old ends.old statuses.old)
        (columns starts.new ends.new statuses.new) result }
{
    let _len = text.len();
    scan(
        alloc,
        table,
        WORDS,
        &Utf8Text { bytes: text },
        from,
        true,
        starts,
        ends,
        statuses,
        steps,
    )
}

/// Gives the segments of a text in UTF-16 that are words, in its units from 0. The rest is as in
/// `words_utf8` and `breaks_utf16`.
pub fn words_utf16<L: Ledger>(
    alloc: Global,
    table: &Table,
    text: &[u16],
    from: usize,
    starts: &mut [u64],
    ends: &mut [u64],
    statuses: &mut [u32],
    steps: &mut Steps<L>,
) -> Reached
    requires { from ≤ length text.now }
    ensures within { result.resume ≤ length text.now }
    ensures room { result.count ≤ length ends.new }
    ensures breaks { Breaks Utf16 table.now true text.now from
        (columns starts.old ends.old statuses.old)
        (columns starts.new ends.new statuses.new) result }
{
    let _len = text.len();
    scan(
        alloc,
        table,
        WORDS,
        &Utf16Text { units: text },
        from,
        true,
        starts,
        ends,
        statuses,
        steps,
    )
}
