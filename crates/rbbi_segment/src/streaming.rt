//! A text that is read and segmented by windows.
//!
//! A search from a boundary depends on the characters that it reads alone. So the window is
//! searched until a search would read on at its end; then more of the text is read, and the search
//! begins again. What stands before the segment of the moment is let go. A window that ends with a
//! line feed is searched to its end, if no rule of the table goes on after one: so a line that is
//! typed is answered at once.
ghost use Rattle.std.specs.Prelude.{◌≡◌, ◌+◌, ◌-◌, ◌<◌, ◌≤◌, ◌++◌, ℕ, List, [], length, take, drop};
ghost use Rattle.std.specs.Prelude.{OnOk, IfOk, IsTrue, IsUtf8, chars};
ghost use Rattle.std.specs.Io.KnownBytes.{Consumes, IsAtEnd, Keeps};
ghost use Rattle.rbbi_model.specs.Words.{IsText};
ghost use Rattle.rbbi_segment.specs.Contents.{IsTextGiven};
ghost use Rattle.rbbi_segment.specs.Segments.{segments, TakesAll};
ghost use Rattle.rbbi_segment.specs.Spelled.{IsFront, IsSpelled, Reads, marks};
ghost use Rattle.rbbi_segment.specs.Windows.{IsShifted, LiesIn};

use crate::colors::Colors;
use crate::failure::{Failure, Status};
use crate::faults::{Place, fault_of};
use crate::line_ends::{end_lines, is_whole};
use crate::segments::{Extent, Progress, Receive, hand_window};
use rbbi_filter::Filter;
use rbbi_io::Sink;
use rbbi_table::{FrontPlaces, Table};
use rbbi_text::{Chars, EditErr, EditText, PlainText, Steps, TextErr, Unit};
use std::alloc::{AllocError, Global};
use std::io::{self, ErrorKind, Read};
use std::sync::ledger::Ledger;

/// How many characters before a boundary a filter looks at.
const LOOK_BACK: u32 = 64;

/// A window with fewer characters is searched again after each read, and a longer one once it is
/// twice as long.
const FEW: u32 = 4096;

/// How much of a text is held.
#[derive(Clone, Copy)]
pub struct Sizes {
    /// How many bytes are read at once, at most; at least one.
    pub block: u32,
    /// How many characters from a segment's start on are read to find its end, at most. A segment
    /// whose end isn't found in them is refused, unless the text ends there.
    pub limit: u32,
}

impl Sizes {
    /// What serves files of any size in little memory.
    pub const USUAL: Sizes = Sizes {
        block: 262_144,
        limit: 4_194_304,
    };
}

/// What is reported of a text if it can't be read.
#[derive(Clone, Copy)]
pub(crate) struct Origin<'a> {
    pub(crate) alloc: Global,
    pub(crate) name: &'a str,
    pub(crate) colors: Colors,
    pub(crate) sizes: Sizes,
    /// Whether U+FFFD stands for each sequence that isn't UTF-8.
    pub(crate) is_lossy: bool,
}

impl Origin<'_> {
    /// The failure that the text has a fault of this label.
    pub(crate) fn fault(&self, label: &str, place: Place) -> Failure {
        fault_of(
            self.alloc,
            Status::IsRefused,
            self.name,
            label,
            place,
            self.colors,
        )
    }

    /// The failure that the text can't be read, with what the system said, if that is known.
    pub(crate) fn unread(&self, reason: Option<io::Error>) -> Failure {
        match String::from_str(self.alloc, self.name) {
            Ok(name) => Failure::Unread(name, reason, self.colors),
            Err(_) => Failure::Memory,
        }
    }
}

/// Reads once into the block. It answers how many bytes there were, and 0 at the end.
fn read_block<R: Read>(
    origin: Origin<'_>,
    reader: &mut R,
    block: &mut [u8],
) -> Result<usize, Failure>
    requires { 0 < length block.old }
    ensures within { IfOk result (λ count. count ≤ length block.new) }
    ensures bytes { IfOk result (λ count.
        Consumes (R.remaining reader.old) (R.remaining reader.new) (take count block.new)) }
    ensures end { IfOk result (λ count. count ≡ 0 → IsAtEnd (R.remaining reader.new)) }
{
    for _turn in 0..u64::MAX {
        match reader.read(block) {
            Ok(count) => return Ok(count),
            Err(fault) => {
                if fault.kind() != ErrorKind::Interrupted {
                    return Err(origin.unread(Some(fault)));
                }
            }
        }
    }
    Err(origin.unread(None))
}

/// What bytes begin with.
#[derive(Drop)]
struct Front<'a> {
    /// The longest text, or the one up to the first ill-formed sequence that is replaced.
    text: &'a str,
    /// How many bytes follow it that a U+FFFD replaces.
    replaced: usize,
}

/// The text of so many bytes, and how many that follow are replaced.
fn front_up_to(bytes: &[u8], end: usize, replaced: usize) -> Front<'_>
    requires within { end ≤ length bytes.now }
    requires utf8 { IsUtf8 (take end bytes.now) }
    ensures text { result.text.now ≡ take end bytes.now }
    ensures replaced { result.replaced ≡ replaced }
{
    let text = unsafe { std::str::from_utf8_unchecked(&bytes[..end]) };
    Front { text, replaced }
}

/// What the bytes begin with: a text, and the ill-formed sequence that follows it, if `is_lossy`.
/// Without `is_last` more bytes follow these, and up to three that begin a character are left.
/// Refused with the first byte that is no part of a character, unless `is_lossy`.
fn front_of(bytes: &[u8], is_lossy: bool, is_last: bool) -> Result<Front<'_>, usize>
    ensures { IfOk result (λ front.
        IsFront is_lossy is_last bytes.now front.text.now front.replaced) }
{
    match simdutf8::compat::from_utf8(bytes) {
        Ok(text) => Ok(Front { text, replaced: 0 }),
        Err(fault) => {
            let end = fault.valid_up_to();
            match fault.error_len() {
                None if !is_last => Ok(front_up_to(bytes, end, 0)),
                None if is_lossy => Ok(front_up_to(bytes, end, bytes.len() - end)),
                Some(replaced) if is_lossy => Ok(front_up_to(bytes, end, replaced)),
                _ => Err(end),
            }
        }
    }
}

/// What is read of a text.
#[derive(Drop)]
struct Feed {
    /// What is read at once.
    block: Vec<u8>,
    /// Up to three bytes that begin a character.
    waiting: Vec<u8>,
    /// How many bytes stand before those.
    before: u64,
    /// How many ill-formed sequences were replaced.
    replaced: u32,
}

/// This many zeros.
fn zeros(alloc: Global, count: usize) -> Result<Vec<u8>, AllocError>
    ensures { IfOk result (λ zeros. length zeros.items ≡ count) }
{
    vec![in alloc; 0u8; count]
}

impl Feed {
    /// Nothing is read so far.
    fn new(origin: Origin<'_>) -> Result<Feed, Failure>
        ensures some { IfOk result (λ feed. 0 < length feed.block.items) }
        ensures waiting { IfOk result (λ feed. feed.waiting.items ≡ []) }
    {
        Ok(Feed {
            block: zeros(origin.alloc, origin.sizes.block.max(1) as usize)?,
            waiting: Vec::new(origin.alloc),
            before: 0,
            replaced: 0,
        })
    }

    /// Reads once, and appends what the bytes spell to the window, up to a character that isn't
    /// whole. It answers whether the text ends there.
    fn more<R: Read>(
        &mut self,
        origin: Origin<'_>,
        reader: &mut R,
        window: &mut PlainText,
    ) -> Result<bool, Failure>
        requires some { 0 < length self.old.block.items }
        ensures some { length self.new.block.items ≡ length self.old.block.items }
        ensures reads { IfOk result (λ is_last. Reads origin.entry.is_lossy
            (R.remaining reader.old) (R.remaining reader.new) self.old.waiting.items
            self.new.waiting.items window.old window.new is_last) }
    {
        let count = read_block(origin, reader, &mut self.block)?;
        self.waiting.extend_from_slice(&self.block[..count])?;
        let is_last = count == 0;
        let (waiting, before) = (&self.waiting, self.before);
        let end = append_spelled(origin, waiting, before, is_last, window, &mut self.replaced)?;
        self.waiting = self.waiting[end..].to_vec(origin.alloc)?;
        self.before = self.before.saturating_add(end as u64);
        Ok(is_last)
    }
}

/// Appends the characters of the text to the window.
fn append_text(origin: Origin<'_>, text: &str, window: &mut PlainText) -> Result<(), Failure>
    ensures { OnOk result (window.new ≡ window.old ++ chars text.now) }
{
    let end = window.len();
    match window.replace(end, 0, text) {
        Ok(()) => Ok(()),
        Err(EditErr::Memory) => Err(Failure::Memory),
        Err(_) => Err(origin.fault("SegmentTooLong", Place::Whole)),
    }
}

/// Appends a text to the window, and U+FFFD if bytes after it are replaced.
fn append_front(
    origin: Origin<'_>,
    front: &Front<'_>,
    window: &mut PlainText,
) -> Result<(), Failure>
    ensures { OnOk result (window.new ≡ window.old
        ++ (chars front.now.text.now ++ marks front.now.replaced)) }
{
    append_text(origin, front.text, window)?;
    if front.replaced == 0 {
        return Ok(());
    }
    append_text(origin, "\u{FFFD}", window)
}

/// Appends what the bytes spell to the window, up to a character that isn't whole, and counts the
/// ill-formed sequences that are replaced. It answers how many of the bytes those are. `before`
/// stand before them.
fn append_spelled(
    origin: Origin<'_>,
    bytes: &[u8],
    before: u64,
    is_last: bool,
    window: &mut PlainText,
    replaced: &mut u32,
) -> Result<usize, Failure>
    ensures { IfOk result (λ end. IsSpelled origin.entry.is_lossy is_last bytes.now end
        window.old window.new × (IsTrue is_last → end ≡ length bytes.now)) }
{
    let mut at = 0;
    while at < bytes.len() {
        let front = match front_of(&bytes[at..], origin.is_lossy, is_last) {
            Ok(front) => front,
            Err(end) => {
                let place = before.saturating_add(at as u64).saturating_add(end as u64);
                return Err(origin.fault("NotUtf8", Place::Byte(place)));
            }
        };
        append_front(origin, &front, window)?;
        at += front.text.len() + front.replaced;
        if front.replaced == 0 {
            return Ok(at);
        }
        *replaced = replaced.saturating_add(1);
    }
    Ok(at)
}

/// Lets the characters of the window go that nothing looks at any more.
fn shift(window: &mut PlainText, progress: Progress) -> Result<Progress, Failure>
    requires { LiesIn window.old progress }
    ensures { IfOk result (λ later. IsShifted window.old window.new progress later) }
{
    let gone = progress.start.min(progress.at.saturating_sub(LOOK_BACK));
    if gone == 0 {
        return Ok(progress);
    }
    match window.replace(0, gone, "") {
        Ok(()) => Ok(Progress {
            start: progress.start - gone,
            at: progress.at - gone,
            ..progress
        }),
        Err(_) => Err(Failure::Memory),
    }
}

/// No characters.
fn nothing(alloc: Global) -> Result<PlainText, Failure>
    ensures { IfOk result (λ text. text ≡ []) }
{
    match PlainText::new(alloc, "") {
        Ok(text) => Ok(text),
        Err(TextErr::Memory) => Err(Failure::Memory),
        Err(TextErr::TooManyChars) => Err(Failure::Memory),
    }
}

/// Hands all segments of the text that a reader gives over, by a table and a filter, in their
/// order, with offsets in the unit. It answers how many sequences of the bytes were replaced. They
/// are refused if they aren't UTF-8 and none is to be replaced, and a segment whose end isn't found
/// within the limit.
pub(crate) fn hand_over<R: Read, V: Receive, K: Sink, L: Ledger>(
    origin: Origin<'_>,
    table: &Table,
    filter: &Option<Filter>,
    reader: &mut R,
    unit: Unit,
    receiver: &mut V,
    out: &mut K,
    steps: &mut Steps<L>,
) -> Result<u32, Failure>
    ensures { OnOk result ((x : List ℕ) × IsTextGiven origin.entry.is_lossy
        (R.remaining reader.old) x (R.remaining reader.new) × IsText x
        × TakesAll V.takes V.pauses V.ends x (segments unit filter.now table.now x)
        receiver.old (K.taken out.old) (K.taken out.new)) }
{
    let mut feed = Feed::new(origin)?;
    let mut window = nothing(origin.alloc)?;
    let mut marks = FrontPlaces::new(origin.alloc, table)?;
    let mut progress = Progress::START;
    let lines_end = end_lines(table, filter);
    let limit = origin.sizes.limit;
    let mut enough = 0;
    for _turn in 0..u64::MAX {
        let is_last = feed.more(origin, reader, &mut window)?;
        let is_whole = is_whole(&window, is_last, lines_end, steps);
        if !is_whole && window.len() < enough {
            continue;
        }
        let extent = Extent {
            is_whole,
            is_last,
            limit,
        };
        progress = hand_window(
            table, filter, &window, unit, extent, &mut marks, progress, receiver, out, steps,
        )?;
        let pending = window.len() - progress.start;
        if pending > limit {
            receiver.pause(out)?;
            return Err(origin.fault("SegmentTooLong", Place::Offset(progress.offset)));
        }
        if is_last {
            receiver.end(out)?;
            return Ok(feed.replaced);
        }
        receiver.pause(out)?;
        progress = shift(&mut window, progress)?;
        enough = if window.len() < FEW {
            0
        } else {
            window.len().saturating_mul(2).min(limit)
        };
    }
    Err(origin.unread(None))
}
