//! The segments of a text by a table, handed over one after the other.
ghost use Rattle.std.specs.Prelude.{◌≡◌, ◌+◌, ◌<◌, ◌≤◌, ◌⊎◌, ℕ, List, Option, length, ⊤};
ghost use Rattle.std.specs.Prelude.{OnOk, IfOk, IfSome, IsTrue, slice_range};
ghost use Rattle.rbbi_model.specs.Tables.{statuses_of};
ghost use Rattle.rbbi_model.specs.Places.{largest};
ghost use Rattle.rbbi_model.specs.Units.{offset_of};
ghost use Rattle.rbbi_filter.specs.Closures.{Turns};
ghost use Rattle.rbbi_filter.specs.declared.filter.Filter.TheVariants.{Turning};
ghost use Rattle.rbbi_segment.specs.declared.segments.Segment.{Segment};
ghost use Rattle.rbbi_segment.specs.Filters as spec;
ghost use Rattle.rbbi_segment.specs.Windows.{HandsOn, IsNextSegment, LiesIn};

use crate::failure::Failure;
use rbbi_filter::{CharMap, Filter, Mapped, Tailoring};
use rbbi_io::{Sink, WriteErr};
use rbbi_table::{Found, FrontPlaces, Table};
use rbbi_text::{Chars, PlainText, Steps, Unit};
use std::sync::ledger::Ledger;

/// A segment. Places are in characters from 0, and offsets are where they lie in a unit.
#[derive(Clone, Copy)]
pub(crate) struct Segment {
    pub(crate) start: u64,
    pub(crate) end: u64,
    pub(crate) start_offset: u64,
    pub(crate) end_offset: u64,
    /// The largest status of the boundary at its end.
    pub(crate) status: u32,
}

/// Where a segment stands in the window of the text that is held.
#[derive(Clone, Copy)]
pub(crate) struct Span {
    pub(crate) from: u32,
    pub(crate) to: u32,
}

/// How far the segments of a text were handed over.
#[derive(Clone, Copy)]
pub(crate) struct Progress {
    /// Where the next segment starts in the window.
    pub(crate) start: u32,
    /// Where the next boundary is looked for in the window.
    pub(crate) at: u32,
    /// Where the next segment starts in the text, in characters from 0.
    pub(crate) place: u64,
    /// Where that lies in the unit.
    pub(crate) offset: u64,
}

impl Progress {
    /// At the start of a text.
    pub(crate) const START: Progress = Progress {
        start: 0,
        at: 0,
        place: 0,
        offset: 0,
    };
}

/// What takes segments and puts what it makes of them. Contracts see what taking one, a pause and
/// the end do, where the receiver says that, to the receiver and to what a sink has taken.
pub(crate) trait Receive {
    /// What taking a segment with these characters does.
    ghost takes: { Self → Option (List ℕ) → List ℕ → Segment → Self → Option (List ℕ) → Type 0 } = { λ _ _ _ _ _ _. ⊤ };

    /// What a pause does.
    ghost pauses: { Self → Option (List ℕ) → Self → Option (List ℕ) → Type 0 } = { λ _ _ _ _. ⊤ };

    /// What the end does.
    ghost ends: { Self → Option (List ℕ) → Option (List ℕ) → Type 0 } = { λ _ _ _. ⊤ };

    /// Takes a segment, whose characters stand in the window of the text.
    fn take<K: Sink, L: Ledger>(
        &mut self,
        text: &PlainText,
        span: Span,
        segment: Segment,
        out: &mut K,
        steps: &mut Steps<L>,
    ) -> Result<(), WriteErr>
        requires some { span.from < span.to }
        requires within { span.to ≤ length text.now }
        ensures { OnOk result (takes self.old (K.taken out.old)
            (slice_range text.now span.from span.to) segment self.new (K.taken out.new)) };

    /// Prints what waits, before more of the text is read.
    fn pause<K: Sink>(&mut self, out: &mut K) -> Result<(), WriteErr>
        ensures { OnOk result (pauses self.old (K.taken out.old) self.new (K.taken out.new)) };

    /// Prints what is left after the last segment.
    fn end<K: Sink>(&mut self, out: &mut K) -> Result<(), WriteErr>
        ensures { OnOk result (ends self.old (K.taken out.old) (K.taken out.new)) };
}

/// The largest of the numbers, or 0 where there are none.
fn largest_of(numbers: &[u32]) -> u32
    ensures { result ≡ largest numbers.now }
{
    let mut most = 0;
    for number in numbers {
        most = most.max(*number);
    }
    most
}

/// The segment that follows up to a boundary that was found. None if its places are past the
/// greatest number.
fn segment_up_to(
    table: &Table,
    text: &PlainText,
    unit: Unit,
    progress: Progress,
    found: Found,
) -> Option<Segment>
    requires forward { progress.start < found.at }
    requires within { found.at ≤ length text.now }
    requires listed { found.status < length table.now.lists }
    ensures { IfSome result (IsNextSegment unit text.now progress found.at
        (statuses_of table.now found.status)) }
{
    let characters = u64::from(found.at - progress.start);
    let units = u64::from(text.units_between(unit, progress.start, found.at));
    Some(Segment {
        start: progress.place,
        end: progress.place.checked_add(characters)?,
        start_offset: progress.offset,
        end_offset: progress.offset.checked_add(units)?,
        status: largest_of(table.status_list(found.status)),
    })
}

/// Whether a boundary of the searched text is reported.
fn reports<S: Chars, L: Ledger>(
    filter: &Option<Filter>,
    searched: &S,
    at: u32,
    steps: &mut Steps<L>,
) -> bool
    requires { at ≤ length (S.characters searched.now) }
    ensures { result ≡ spec.reports filter.now (S.characters searched.now) at }
{
    match filter {
        None => true,
        Some(filter) => filter.reports(searched, at, steps),
    }
}

/// What is known of the text that follows a window.
#[derive(Clone, Copy)]
pub(crate) struct Extent {
    /// Whether nothing depends on it: the text ends with the window, or a line that ends searches.
    pub(crate) is_whole: bool,
    /// Whether the text ends with the window.
    pub(crate) is_last: bool,
    /// A segment is looked for in so many characters from its start on, unless the text ends there.
    pub(crate) limit: u32,
}

/// Whether what was found for the segment from `start` on in a window of so many characters is
/// found in the whole text, too, by the characters up to the limit alone.
fn is_final(found: Found, start: u32, len: u32, extent: Extent) -> bool
    ensures last { IsTrue extent.is_whole → IsTrue extent.is_last → len ≤ start + extent.limit
        → IsTrue result }
    ensures within { IsTrue result
        → IsTrue extent.is_whole ⊎ ((found.look ≤ len) × (found.at < len)) }
{
    let most = start.saturating_add(extent.limit);
    let end = len.min(most);
    let is_whole = extent.is_whole && (len < most || (extent.is_last && len == most));
    is_whole || (found.look <= end && found.at < end)
}

/// Hands the segments of a text over that end within a window of it, whose boundaries are looked
/// for in `searched`: those that don't depend on what follows the window, up to one that isn't found
/// within the limit.
fn hand_searched<S: Chars, V: Receive, K: Sink, L: Ledger>(
    table: &Table,
    searched: &S,
    text: &PlainText,
    filter: &Option<Filter>,
    unit: Unit,
    extent: Extent,
    marks: &mut FrontPlaces,
    progress: Progress,
    receiver: &mut V,
    out: &mut K,
    steps: &mut Steps<L>,
) -> Result<Progress, Failure>
    requires searched { S.characters searched.now ≡ spec.searched filter.now text.now }
    requires lies { LiesIn text.now progress }
    requires fit { marks.old ≡ table.now.slashes }
    ensures fit { marks.new ≡ marks.old }
    ensures lies { IfOk result (λ later. LiesIn text.now later) }
    ensures all { IsTrue extent.is_whole → IsTrue extent.is_last → IfOk result (λ later.
        (length text.now ≤ later.at) ⊎ (later.start + extent.limit < length text.now)) }
    ensures handed { IfOk result (λ later. HandsOn V.takes V.pauses unit filter.now
        table.now text.now extent.is_whole progress receiver.old (K.taken out.old) later receiver.new
        (K.taken out.new)) }
{
    rbbi_model::next_boundary_is_past_the_start();
    table.valid();
    let len = searched.len();
    let mut now = progress;
    while now.at < len {
        let found = table.next(searched, now.at, marks, steps);
        if !is_final(found, now.start, len, extent) {
            return Ok(now);
        }
        let at = found.at;
        if reports(filter, searched, at, steps) {
            let Some(segment) = segment_up_to(table, text, unit, now, found) else {
                return Err(Failure::Memory);
            };
            receiver.take(
                text,
                Span {
                    from: now.start,
                    to: at,
                },
                segment,
                out,
                steps,
            )?;
            now = Progress {
                start: at,
                at,
                place: segment.end,
                offset: segment.end_offset,
            };
        } else {
            now.at = at;
        }
    }
    Ok(now)
}

/// The same, where boundaries are looked for in the text as `map` turns its characters by the pairs
/// of a filter.
fn hand_turned<G: CharMap, V: Receive, K: Sink, L: Ledger>(
    table: &Table,
    text: &PlainText,
    pairs: &Tailoring,
    map: &G,
    filter: &Option<Filter>,
    unit: Unit,
    extent: Extent,
    marks: &mut FrontPlaces,
    progress: Progress,
    receiver: &mut V,
    out: &mut K,
    steps: &mut Steps<L>,
) -> Result<Progress, Failure>
    requires pairs { filter.now ≡ Some (Turning pairs.now) }
    requires turns { Turns (G.can_map map.now) (G.maps map.now) pairs.now }
    requires lies { LiesIn text.now progress }
    requires fit { marks.old ≡ table.now.slashes }
    ensures fit { marks.new ≡ marks.old }
    ensures lies { IfOk result (λ later. LiesIn text.now later) }
    ensures all { IsTrue extent.is_whole → IsTrue extent.is_last → IfOk result (λ later.
        (length text.now ≤ later.at) ⊎ (later.start + extent.limit < length text.now)) }
    ensures handed { IfOk result (λ later. HandsOn V.takes V.pauses unit filter.now
        table.now text.now extent.is_whole progress receiver.old (K.taken out.old) later receiver.new
        (K.taken out.new)) }
{
    let turned = Mapped::new(text, pairs, map);
    hand_searched(
        table, &turned, text, filter, unit, extent, marks, progress, receiver, out, steps,
    )
}

/// Hands the segments of a text by a table over that a filter leaves and that end within a window
/// of it, with offsets in the unit: those that don't depend on what follows the window, up to one
/// that isn't found within the limit. If the text ends with the window, those are all that are left.
pub(crate) fn hand_window<V: Receive, K: Sink, L: Ledger>(
    table: &Table,
    filter: &Option<Filter>,
    text: &PlainText,
    unit: Unit,
    extent: Extent,
    marks: &mut FrontPlaces,
    progress: Progress,
    receiver: &mut V,
    out: &mut K,
    steps: &mut Steps<L>,
) -> Result<Progress, Failure>
    requires lies { LiesIn text.now progress }
    requires fit { marks.old ≡ table.now.slashes }
    ensures fit { marks.new ≡ marks.old }
    ensures lies { IfOk result (λ later. LiesIn text.now later) }
    ensures all { IsTrue extent.is_whole → IsTrue extent.is_last → IfOk result (λ later.
        (length text.now ≤ later.at) ⊎ (later.start + extent.limit < length text.now)) }
    ensures handed { IfOk result (λ later. HandsOn V.takes V.pauses unit filter.now
        table.now text.now extent.is_whole progress receiver.old (K.taken out.old) later receiver.new
        (K.taken out.new)) }
{
    match filter {
        Some(Filter::Turning(pairs)) => {
            let map = |c: char| pairs.turn(c);
            hand_turned(
                table, text, pairs, &map, filter, unit, extent, marks, progress, receiver, out,
                steps,
            )
        }
        None | Some(Filter::Suppressing(_)) => hand_searched(
            table, text, text, filter, unit, extent, marks, progress, receiver, out, steps,
        ),
    }
}
