//! Pairs of rows to which texts lead in two tables, and these texts.
ghost use Rattle.std.specs.Prelude.{◌≡◌, ◌<◌, ◌↔◌, ℕ, IsTrue, IfOk, length};
ghost use Rattle.rbbi_model.specs.Marks.{marks_of};
ghost use Rattle.rbbi_canon.specs.inner.Letters.{AreLetters};
ghost use Rattle.rbbi_canon.specs.inner.Pairs.{AreReached, LeadsToPair};

use crate::letters::Letter;
use rbbi_table::Table;
use rbbi_text::{Word, push_character};
use std::alloc::{AllocError, Global};

/// Two rows, one of each table, to which a text leads: the letter with a number leads there from
/// the pair with the number `from`. The first pair is that of the rows 1.
#[derive(Clone, Copy)]
pub(crate) struct Pair {
    pub this: u16,
    pub that: u16,
    pub from: usize,
    pub letter: usize,
}

/// Whether two rows have the same marks.
pub(crate) fn have_same_marks(these: &Table, this: u16, those: &Table, that: u16) -> bool
    requires this { this < length these.now.rows }
    requires that { that < length those.now.rows }
    ensures { IsTrue result ↔ (marks_of these.now this ≡ marks_of those.now that) }
{
    these.valid();
    those.valid();
    let here = these.row(this);
    let there = those.row(that);
    here.accept == there.accept
        && here.fronts == there.fronts
        && these.status_list(here.list) == those.status_list(there.list)
}

/// The text that leads to the pair with this number.
pub(crate) fn word_to(
    alloc: Global,
    these: &Table,
    those: &Table,
    letters: &[Letter],
    pairs: &[Pair],
    number: usize,
) -> Result<Word, AllocError>
    requires letters { AreLetters these.now those.now letters.now }
    requires reached { AreReached these.now those.now letters.now pairs.now }
    requires number { number < length pairs.now }
    ensures { IfOk result (λ w. LeadsToPair these.now those.now pairs.now number w) }
{
    let mut reversed: Vec<char> = Vec::new(alloc);
    let mut at = number;
    while at > 0 {
        let pair = pairs[at];
        reversed.push(letters[pair.letter].character)?;
        at = pair.from;
    }
    let mut text = String::new(alloc);
    'characters: while let Some(character) = reversed.pop() {
        push_character(&mut text, character)?;
    }
    Word::new(alloc, text.as_str())
}
