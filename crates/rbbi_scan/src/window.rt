//! Characters that were decoded, as a text of their own.
ghost use Rattle.std.specs.Prelude.{◌≡◌, ◌||◌, ◌≤◌, length, not, slice_range};
ghost use Rattle.rbbi_model.specs.Words.{IsText, most_characters};
ghost use Rattle.rbbi_scan.specs.Segments as spec;

use rbbi_text::{Chars, Steps};
use std::marker::Model;
use std::sync::ledger::Ledger;

/// Characters that were decoded, as a text of their own. Contracts see it as their list.
#[derive(Drop)]
pub(crate) struct Window<'a> {
    items: &'a [char],
}

impl<'a> Model for Window<'a> {
    ghost use Rattle.std.specs.Prelude.{List, ℕ};
    ghost use Rattle.rbbi_text.specs.Texts.{IsShortText};

    ghost Value = { List ℕ };

    ghost view = { λ window. window.items.now };

    ghost invariant = { λ window. IsShortText window.items.now };
}

impl<'a> Window<'a> {
    /// The text of these characters.
    pub(crate) fn of(items: &'a [char]) -> Window<'a>
        requires text { IsText items.now }
        requires few { length items.now ≤ most_characters }
        ensures { result ≡ items.now }
    {
        Window { items }
    }

    /// Whether the segment from one place to another is asked for: words alone may be.
    #[inline(always)]
    pub(crate) fn is_kept(&self, only_words: bool, start: u32, end: u32) -> bool
        requires order { start ≤ end }
        requires within { end ≤ length self.now }
        ensures { result ≡ (not only_words || spec.is_word (slice_range self.now start end)) }
    {
        !only_words || is_word(&self.items[start as usize..end as usize])
    }
}

/// Whether a letter or a digit is one of the characters.
fn is_word(characters: &[char]) -> bool
    ensures { result ≡ spec.is_word characters.now }
{
    characters.iter().any(|c| c.is_alphanumeric())
}

impl Chars for Window<'_> {
    ghost characters = { λ window. window };

    fn len(&self) -> u32 {
        self.items.len() as u32
    }

    #[inline(always)]
    fn char_at<L: Ledger>(&self, i: u32, steps: &mut Steps<L>) -> char {
        steps.tick();
        self.items[i as usize]
    }
}
