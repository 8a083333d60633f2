//! The bytes of a file.
ghost use Rattle.std.specs.Prelude.{◌≡◌, ◌+◌, ◌≤◌, length, IsUtf8, IfOk, IfSome, MatchResult};
ghost use Rattle.std.specs.Str.{IsAscii};
ghost use Rattle.rbbi_model.specs.Words.{most_characters};
ghost use Rattle.rbbi_text.specs.Bytes.{most_bytes};
ghost use Rattle.rbbi_text.specs.Answers.{ReadsText};

use crate::ascii::AsciiText;
use crate::{RawErr, Steps, utf8_text};
use std::alloc::{AllocError, Global};
use std::fmt;
use std::marker::Model;
use std::sync::ledger::Ledger;

/// The bytes of a file, which contracts see as their list. Only `bytes` gives them to other crates.
#[derive(Drop)]
pub struct Raw {
    bytes: Vec<u8>,
}

impl Model for Raw {
    ghost use Rattle.std.specs.Prelude.{List, ℕ};

    ghost Value = { List ℕ };

    ghost view = { λ raw. raw.bytes.items };
}

/// It writes the type's name and none of the bytes, which only `bytes` gives.
impl fmt::Debug for Raw {
    fn fmt<W: fmt::Write>(&self, f: &mut fmt::Formatter<W>) -> fmt::Result {
        f.write_str("Raw")
    }
}

impl Raw {
    /// Holds these bytes.
    pub fn new(bytes: Vec<u8>) -> Raw
        ensures { result ≡ bytes.items }
    {
        Raw { bytes }
    }

    /// The bytes. It counts one step for each of them.
    pub fn bytes<L: Ledger>(&self, steps: &mut Steps<L>) -> &[u8]
        ensures bytes { result.now ≡ self.now }
        ensures steps { steps.new ≡ steps.old + length self.now }
    {
        steps.add(self.bytes.len() as u64);
        self.bytes.as_slice()
    }

    /// The text that the bytes spell in UTF-8, for a text that is made of it. It counts nothing.
    pub(crate) fn text(&self) -> Result<&str, RawErr>
        requires { length self.now ≤ most_bytes }
        ensures { MatchResult result (λ text. IsUtf8 self.now × (text.now ≡ self.now))
            (λ refusal. ReadsText self.now (Err refusal)) }
    {
        match utf8_text(&self.bytes) {
            Ok(text) => Ok(text),
            Err(at) => Err(RawErr::NotUtf8(at)),
        }
    }

    /// The text that the bytes are where all are ASCII, and no more than a text may have. It counts
    /// nothing.
    pub(crate) fn ascii(&self, alloc: Global) -> Result<Option<AsciiText>, AllocError>
        ensures { IfOk result (λ found. IfSome found (λ text. (text ≡ self.now)
            × IsAscii text × (length text ≤ most_characters))) }
    {
        AsciiText::from_bytes(alloc, &self.bytes)
    }
}
