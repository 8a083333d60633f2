//! Words: short texts that are kept whole.
ghost use Rattle.std.specs.Prelude.{◌≡◌, ◌++◌, [], ◌∷◌, IfOk, OnOk, chars, encode_utf8_all};
ghost use Rattle.std.specs.Prelude.{string_bytes};

use std::alloc::{AllocError, Global};
use std::marker::Model;

/// A word, as a name or a replacement in a script. Contracts see it as its list of characters.
#[derive(Drop)]
pub struct Word {
    text: String,
}

impl Model for Word {
    ghost use Rattle.std.specs.Prelude.{List, ℕ, chars, string_bytes};

    ghost Value = { List ℕ };

    ghost view = { λ word. chars (string_bytes word.text) };
}

impl Word {
    /// The word of these characters.
    pub fn new(alloc: Global, text: &str) -> Result<Word, AllocError>
        ensures { IfOk result (λ word. word ≡ chars text.now) }
    {
        Ok(Word {
            text: String::from_str(alloc, text)?,
        })
    }

    /// The characters as a string.
    pub fn as_str(&self) -> &str
        ensures characters { chars result.now ≡ self.now }
        ensures bytes { result.now ≡ encode_utf8_all self.now }
    {
        self.text.as_str()
    }
}

/// Adds a character at the end of a string.
pub fn push_character(string: &mut String, c: char) -> Result<(), AllocError>
    ensures { OnOk result
        (chars (string_bytes string.new) ≡ chars (string_bytes string.old) ++ c ∷ []) }
{
    string.push(c)
}
