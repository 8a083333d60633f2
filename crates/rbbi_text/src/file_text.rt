//! The text of a file that is only read.
ghost use Rattle.std.specs.Prelude.{◌≡◌, ◌≤◌, length};
ghost use Rattle.rbbi_text.specs.Answers.{ReadsText};
ghost use Rattle.rbbi_text.specs.Bytes.{most_bytes};
ghost use Rattle.rbbi_text.specs.Forms.{characters_in};

use crate::ascii::AsciiText;
use crate::{Chars, PlainText, Raw, RawErr, Steps};
use std::alloc::Global;
use std::marker::Model;
use std::sync::ledger::Ledger;

/// How the characters of a text are kept.
#[derive(Drop)]
pub enum Form {
    /// All are ASCII, and take a byte each.
    Ascii(AsciiText),
    /// They take four bytes each.
    Plain(PlainText),
}

/// The text of a file. Contracts see it as the list of its characters.
///
/// Each form is a text of its own, so that a search over it doesn't ask at each character which it
/// is.
#[derive(Drop)]
pub struct FileText {
    form: Form,
}

impl Model for FileText {
    ghost use Rattle.std.specs.Prelude.{List, ℕ};
    ghost use Rattle.rbbi_text.specs.Forms.{characters_in};

    ghost Value = { List ℕ };

    ghost view = { λ text. characters_in text.form };
}

impl FileText {
    /// The text that the bytes spell in UTF-8. It counts no step. A U+FEFF at the start is a
    /// character of the text.
    ///
    /// Refuses what `PlainText::from_raw` does.
    pub fn from_raw(alloc: Global, raw: &Raw) -> Result<FileText, RawErr>
        requires { length raw.now ≤ most_bytes }
        ensures { ReadsText raw.now result }
    {
        if let Some(text) = raw.ascii(alloc)? {
            return Ok(FileText {
                form: Form::Ascii(text),
            });
        }
        let text = PlainText::from_raw(alloc, raw)?;
        Ok(FileText {
            form: Form::Plain(text),
        })
    }

    /// The text in the form that it is kept in.
    pub fn form(&self) -> &Form
        ensures { characters_in result.now ≡ self.now }
    {
        &self.form
    }
}

impl Chars for FileText {
    ghost characters = { λ text. text };

    fn len(&self) -> u32 {
        match &self.form {
            Form::Ascii(text) => text.len(),
            Form::Plain(text) => text.len(),
        }
    }

    fn char_at<L: Ledger>(&self, i: u32, steps: &mut Steps<L>) -> char {
        match &self.form {
            Form::Ascii(text) => text.char_at(i, steps),
            Form::Plain(text) => text.char_at(i, steps),
        }
    }
}
