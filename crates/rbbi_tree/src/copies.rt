//! Copies of the words of tokens.
ghost use Rattle.std.specs.Prelude.{◌≡◌, IfOk};

use rbbi_text::Word;
use std::alloc::{AllocError, Global};

/// A copy of a word.
pub fn copy_of(alloc: Global, word: &Word) -> Result<Word, AllocError>
    ensures { IfOk result (λ copy. copy ≡ word.now) }
{
    Word::new(alloc, word.as_str())
}

/// A copy of a word that may be absent.
pub fn copy_of_option(alloc: Global, word: &Option<Word>) -> Result<Option<Word>, AllocError>
    ensures { IfOk result (λ copy. copy ≡ word.now) }
{
    match word {
        Some(word) => Ok(Some(copy_of(alloc, word)?)),
        None => Ok(None),
    }
}
