//! A text that is its bytes.
ghost use Rattle.std.specs.Prelude.{◌≡◌, ◌≤◌, length, IsTrue, IfOk, IfSome};
ghost use Rattle.std.specs.Str.{IsAscii};
ghost use Rattle.rbbi_model.specs.Words.{most_characters};

use crate::plain::MOST_CHARACTERS;
use crate::{Chars, FlatText, Steps, Unit};
use std::alloc::{AllocError, Global};
use std::fmt;
use std::marker::Model;
use std::sync::ledger::Ledger;

/// A text of ASCII characters alone, in one flat list of bytes. Contracts see it as that list.
///
/// It takes a byte a character, and each character takes one of every unit.
#[derive(Drop)]
pub struct AsciiText {
    bytes: Vec<u8>,
}

impl Model for AsciiText {
    ghost use Rattle.std.specs.Prelude.{List, ℕ};
    ghost use Rattle.std.specs.Str.{IsAscii};
    ghost use Rattle.rbbi_text.specs.Texts.{IsShortText};

    ghost Value = { List ℕ };

    ghost view = { λ text. text.bytes.items };

    ghost invariant = { λ text. IsAscii text.bytes.items × IsShortText text.bytes.items };
}

/// It writes the type's name and none of the characters, which only `char_at` gives.
impl fmt::Debug for AsciiText {
    fn fmt<W: fmt::Write>(&self, f: &mut fmt::Formatter<W>) -> fmt::Result {
        f.write_str("AsciiText")
    }
}

/// Whether all bytes are ASCII. It reads them all, so that many are compared at once.
pub(crate) fn is_ascii(bytes: &[u8]) -> bool
    ensures { IsTrue result → IsAscii bytes.now }
{
    let mut greatest = 0u8;
    for byte in bytes {
        greatest = greatest.max(*byte);
    }
    greatest < 128
}

impl AsciiText {
    /// The text that bytes spell in ASCII, or nothing where some byte isn't ASCII or they are more
    /// than a text may have.
    pub(crate) fn from_bytes(alloc: Global, bytes: &[u8]) -> Result<Option<AsciiText>, AllocError>
        ensures { IfOk result (λ found. IfSome found (λ text. (text ≡ bytes.now)
            × IsAscii text × (length text ≤ most_characters))) }
    {
        if bytes.len() > MOST_CHARACTERS {
            return Ok(None);
        }
        if is_ascii(bytes) {
            let bytes = Vec::from_slice(alloc, bytes)?;
            return Ok(Some(AsciiText { bytes }));
        }
        Ok(None)
    }
}

impl Chars for AsciiText {
    ghost characters = { λ text. text };

    fn len(&self) -> u32 {
        self.bytes.len() as u32
    }

    fn char_at<L: Ledger>(&self, i: u32, steps: &mut Steps<L>) -> char {
        steps.tick();
        self.bytes[i as usize] as char
    }
}

impl FlatText for AsciiText {
    fn units_between(&self, _unit: Unit, from: u32, to: u32) -> u32 {
        // That all are ASCII is known of the bytes.
        let _bytes = &self.bytes;
        to - from
    }
}
