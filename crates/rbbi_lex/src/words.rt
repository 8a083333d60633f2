//! Words that a text spells.
ghost use Rattle.std.specs.Prelude.{◌≡◌, ◌≤◌, length, slice_range, IfOk};

use rbbi_text::{Word, push_character};
use std::alloc::{AllocError, Global};

/// The word that stands from one place to another.
pub(crate) fn word_between(
    alloc: Global,
    text: &[char],
    from: usize,
    to: usize,
) -> Result<Word, AllocError>
    requires forward { from ≤ to }
    requires within { to ≤ length text.now }
    ensures { IfOk result (λ word. word ≡ slice_range text.now from to) }
{
    let mut word = String::new(alloc);
    for i in from..to {
        push_character(&mut word, text[i])?;
    }
    Word::new(alloc, word.as_str())
}
