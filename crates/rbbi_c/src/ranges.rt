//! What C calls to read a session at once. `include/rbbi.h` documents these calls.
ghost use Rattle.std.specs.Prelude.{◌≡◌, ◌<◌, length, is_some, unwrap_or, if◌then◌else◌};
ghost use Rattle.rbbi_session.specs.Walks.{reported};
ghost use Rattle.rbbi_session.specs.UnitWalks.{unit_view};
ghost use Rattle.rbbi_c.specs.Copying.{IsCopied, room_code};
ghost use Rattle.rbbi_c.specs.Parts.{ReadsPartThrough};
ghost use Rattle.rbbi_c.specs.Ranges.{past_up_to, before_down_to, columns};
ghost use Rattle.rbbi_c.specs.Listing.{ListsRangeThrough, SegmentThrough, progress};

use crate::codes;
use crate::copying::copy_front;
use crate::filter_lending::{lend_filtered, unserved_by};
use crate::handle::Handle;
use crate::lending::lend;
use crate::listing::Listing;
use crate::segment::Segment;
use rbbi_text::Steps;
use std::alloc::Global;
use std::marker::Brand;
use std::rt::Memory;
use std::sync::ledger::{Blank, Ledger};

/// Writes what was listed to where C wants it.
fn tell_listing(listing: Listing, count: &mut usize, resume: &mut u32) -> u32
    ensures code { result ≡ (if listing.more then 10 else 0) }
    ensures count { count.new ≡ listing.count }
    ensures resume { resume.new ≡ listing.resume }
{
    *count = listing.count;
    *resume = listing.resume;
    if listing.more { codes::ROOM } else { codes::OK }
}

/// Writes a segment to where C wants it, if there is one.
fn tell_segment(found: Option<Segment>, segment: &mut Segment) -> u32
    ensures code { result ≡ (if is_some found then 0 else 1) }
    ensures segment { segment.new ≡ unwrap_or found segment.old }
{
    match found {
        Some(found) => {
            *segment = found;
            codes::OK
        }
        None => codes::DONE,
    }
}

/// Writes as much of a part of the text as there is room for, and its length.
fn tell_part(part: &[u8], room: &mut [u8], count: &mut usize) -> u32
    ensures copied { IsCopied part.now room.old room.new }
    ensures count { count.new ≡ length part.now }
    ensures code { result ≡ room_code (length part.now) (length room.old) }
{
    copy_front(part, room);
    *count = part.len();
    if part.len() > room.len() {
        codes::ROOM
    } else {
        codes::OK
    }
}

/// Lists boundaries, with a counter of its own.
fn list_counted<L: Ledger>(
    memory: Memory,
    session: &mut Handle,
    from: u32,
    to: u32,
    places: &mut [u32],
    statuses: &mut [u32],
    count: &mut usize,
    resume: &mut u32,
    blank: Blank,
) -> u32
    requires name { blank.name ≡ L.name }
    requires parts { blank.parts ≡ L.parts }
    requires some { 0 < blank.parts }
    ensures { ListsRangeThrough (λ old. past_up_to from to (reported unit_view old))
        session.old.held from (columns places.old statuses.old) (columns places.new statuses.new)
        result (progress count.old resume.old) (progress count.new resume.new) session.new.held }
{
    let alloc = Global::new(memory);
    let Some(mut held) = session.take(alloc) else {
        return codes::HANDLE;
    };
    let mut steps = Steps::<L>::exported(memory, blank);
    let code = match lend(&mut held) {
        Some(desk) => {
            let listing = desk.boundaries(from, to, places, statuses, &mut steps);
            tell_listing(listing, count, resume)
        }
        None => unserved_by(&held),
    };
    session.put(alloc, held);
    code
}

/// Lists boundaries backwards, with a counter of its own.
fn list_back_counted<L: Ledger>(
    memory: Memory,
    session: &mut Handle,
    from: u32,
    to: u32,
    places: &mut [u32],
    statuses: &mut [u32],
    count: &mut usize,
    resume: &mut u32,
    blank: Blank,
) -> u32
    requires name { blank.name ≡ L.name }
    requires parts { blank.parts ≡ L.parts }
    requires some { 0 < blank.parts }
    ensures { ListsRangeThrough (λ old. before_down_to from to (reported unit_view old))
        session.old.held from (columns places.old statuses.old) (columns places.new statuses.new)
        result (progress count.old resume.old) (progress count.new resume.new) session.new.held }
{
    let alloc = Global::new(memory);
    let Some(mut held) = session.take(alloc) else {
        return codes::HANDLE;
    };
    let mut steps = Steps::<L>::exported(memory, blank);
    let code = match lend(&mut held) {
        Some(desk) => {
            let listing = desk.boundaries_before(from, to, places, statuses, &mut steps);
            tell_listing(listing, count, resume)
        }
        None => unserved_by(&held),
    };
    session.put(alloc, held);
    code
}

/// Asks for a segment, with a counter of its own.
fn segment_counted<L: Ledger>(
    memory: Memory,
    session: &mut Handle,
    at: u32,
    segment: &mut Segment,
    blank: Blank,
) -> u32
    requires name { blank.name ≡ L.name }
    requires parts { blank.parts ≡ L.parts }
    requires some { 0 < blank.parts }
    ensures { SegmentThrough session.old.held at result segment.old segment.new
        session.new.held }
{
    let alloc = Global::new(memory);
    let Some(mut held) = session.take(alloc) else {
        return codes::HANDLE;
    };
    let mut steps = Steps::<L>::exported(memory, blank);
    let code = match lend(&mut held) {
        Some(desk) => tell_segment(desk.segment(at, &mut steps), segment),
        None => unserved_by(&held),
    };
    session.put(alloc, held);
    code
}

/// Reads a part of the text, with a counter of its own.
fn part_counted<L: Ledger>(
    memory: Memory,
    session: &mut Handle,
    from: u32,
    to: u32,
    room: &mut [u8],
    count: &mut usize,
    blank: Blank,
) -> u32
    requires name { blank.name ≡ L.name }
    requires parts { blank.parts ≡ L.parts }
    requires some { 0 < blank.parts }
    ensures { ReadsPartThrough session.old.held from to room.old room.new result
        count.old count.new session.new.held }
{
    let alloc = Global::new(memory);
    let Some(mut held) = session.take(alloc) else {
        return codes::HANDLE;
    };
    let mut steps = Steps::<L>::exported(memory, blank);
    let part = match lend(&mut held) {
        Some(desk) => desk.part(alloc, from, to, &mut steps),
        None => match lend_filtered(&mut held) {
            Some(desk) => desk.part(alloc, from, to, &mut steps),
            None => Err(codes::HANDLE),
        },
    };
    session.put(alloc, held);
    match part {
        Ok(part) => tell_part(part.as_bytes(), room, count),
        Err(code) => code,
    }
}

/// Writes the boundaries past `from`, up to `to`, and their greatest statuses, as many as there is
/// room for; how many were written, and the number to go on from.
#[unsafe(no_mangle)]
pub extern "C" fn rbbi_c_boundaries(
    memory: Memory,
    session: &mut Handle,
    from: u32,
    to: u32,
    places: &mut [u32],
    statuses: &mut [u32],
    count: &mut usize,
    resume: &mut u32,
) -> u32
    ensures { ListsRangeThrough (λ old. past_up_to from to (reported unit_view old))
        session.old.held from (columns places.old statuses.old) (columns places.new statuses.new)
        result (progress count.old resume.old) (progress count.new resume.new) session.new.held }
{
    let blank = Blank::new(1);
    list_counted::<Brand>(
        memory, session, from, to, places, statuses, count, resume, blank,
    )
}

/// Writes the boundaries before `from`, down to `to`, the last one first, and their greatest
/// statuses, as many as there is room for; how many were written, and the number to go on from.
#[unsafe(no_mangle)]
pub extern "C" fn rbbi_c_boundaries_before(
    memory: Memory,
    session: &mut Handle,
    from: u32,
    to: u32,
    places: &mut [u32],
    statuses: &mut [u32],
    count: &mut usize,
    resume: &mut u32,
) -> u32
    ensures { ListsRangeThrough (λ old. before_down_to from to (reported unit_view old))
        session.old.held from (columns places.old statuses.old) (columns places.new statuses.new)
        result (progress count.old resume.old) (progress count.new resume.new) session.new.held }
{
    let blank = Blank::new(1);
    list_back_counted::<Brand>(
        memory, session, from, to, places, statuses, count, resume, blank,
    )
}

/// The segment that holds a place.
#[unsafe(no_mangle)]
pub extern "C" fn rbbi_c_segment(
    memory: Memory,
    session: &mut Handle,
    at: u32,
    segment: &mut Segment,
) -> u32
    ensures { SegmentThrough session.old.held at result segment.old segment.new
        session.new.held }
{
    segment_counted::<Brand>(memory, session, at, segment, Blank::new(1))
}

/// Writes the characters between two numbers in UTF-8, as much of them as there is room for, and
/// how many bytes they have.
#[unsafe(no_mangle)]
pub extern "C" fn rbbi_c_part(
    memory: Memory,
    session: &mut Handle,
    from: u32,
    to: u32,
    room: &mut [u8],
    count: &mut usize,
) -> u32
    ensures { ReadsPartThrough session.old.held from to room.old room.new result
        count.old count.new session.new.held }
{
    part_counted::<Brand>(memory, session, from, to, room, count, Blank::new(1))
}
