//! What C calls to open and edit a session with texts in UTF-16. `include/rbbi.h` documents these
//! calls.
ghost use Rattle.std.specs.Prelude.{◌≡◌, ◌<◌, ◌≤◌, ◌++◌, length, take, IsSomeAnd};
ghost use Rattle.std.specs.Prelude.{MatchOption, MatchResult, string_bytes};
ghost use Rattle.core.specs.Char.{InScalarRange};
ghost use Rattle.core.specs.Char.Escape.{encode_utf16};
ghost use Rattle.rbbi_c.specs.Wide.{IsLone, IsWideText, IsNoWideText};
ghost use Rattle.rbbi_c.specs.Wide.{OpensWideThrough, EditsWideThrough};

use crate::codes;
use crate::handle::Handle;
use crate::sessions::{rbbi_c_open, rbbi_c_replace};
use rbbi_text::MOST_BYTES;
use std::alloc::Global;
use std::rt::Memory;

/// A character, and where the next one begins.
pub(crate) struct Spelled {
    pub(crate) c: char,
    pub(crate) next: usize,
}

/// The character of a code, and where the next one begins.
fn char_of(code: u32, next: usize) -> Option<Spelled>
    requires { InScalarRange code }
    ensures { IsSomeAnd result (λ spelled. (spelled.c ≡ code) × (spelled.next ≡ next)) }
{
    match char::from_u32(code) {
        Some(c) => Some(Spelled { c, next }),
        None => None,
    }
}

/// The character whose units begin at a number, or None at a surrogate that is alone.
fn char_at(units: &[u16], at: usize) -> Option<Spelled>
    requires { at < length units.now }
    ensures { MatchOption result (IsLone units.now at) (λ spelled.
        (at < spelled.next) × (spelled.next ≤ length units.now) × InScalarRange spelled.c
        × (take spelled.next units.now ≡ take at units.now ++ encode_utf16 spelled.c)) }
{
    let high = u32::from(units[at]);
    if high < 0xD800 {
        return char_of(high, at + 1);
    }
    if 0xE000 <= high {
        return char_of(high, at + 1);
    }
    if 0xDC00 <= high {
        return None;
    }
    if units.len() - at < 2 {
        return None;
    }
    let low = u32::from(units[at + 1]);
    if low < 0xDC00 {
        return None;
    }
    if 0xE000 <= low {
        return None;
    }
    char_of(0x10000 + (high - 0xD800) * 0x400 + (low - 0xDC00), at + 2)
}

/// The text that units of UTF-16 spell, or the code of the refusal. The number of a surrogate that
/// is alone is reported.
fn text_of(alloc: Global, units: &[u16], lone: &mut u32) -> Result<String, u32>
    ensures { MatchResult result
        (λ text. IsWideText units.now (string_bytes text) × (lone.new ≡ lone.old))
        (λ code. IsNoWideText units.now code lone.old lone.new) }
{
    if units.len() > MOST_BYTES {
        return Err(codes::TOO_LONG);
    }
    let mut text = String::new(alloc);
    let mut at = 0;
    while at < units.len() {
        let Some(Spelled { c, next }) = char_at(units, at) else {
            *lone = at as u32;
            return Err(codes::LONE);
        };
        let Ok(()) = text.push(c) else {
            return Err(codes::MEMORY);
        };
        at = next;
    }
    Ok(text)
}

/// Opens a session over a text in UTF-16, with places in the unit of a number.
#[unsafe(no_mangle)]
pub extern "C" fn rbbi_c_open_utf16(
    memory: Memory,
    table: &mut Handle,
    units: &[u16],
    unit: u32,
    session: &mut Handle,
    lone: &mut u32,
) -> u32
    ensures opened { OpensWideThrough table.old.held units.now unit lone.old lone.new
        session.old.held result session.new.held }
    ensures table { table.new.held ≡ table.old.held }
{
    match text_of(Global::new(memory), units, lone) {
        Ok(text) => rbbi_c_open(memory, table, text.as_bytes(), unit, session),
        Err(code) => code,
    }
}

/// Puts units of UTF-16 in place of a part of the text, and the cursor at 0.
#[unsafe(no_mangle)]
pub extern "C" fn rbbi_c_replace_utf16(
    memory: Memory,
    session: &mut Handle,
    at: u32,
    remove: u32,
    units: &[u16],
    lone: &mut u32,
) -> u32
    ensures { EditsWideThrough session.old.held at remove units.now lone.old lone.new
        result session.new.held }
{
    match text_of(Global::new(memory), units, lone) {
        Ok(text) => rbbi_c_replace(memory, session, at, remove, text.as_bytes()),
        Err(code) => code,
    }
}
