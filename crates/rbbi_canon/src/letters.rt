//! Characters that stand for all others when two tables are compared.
ghost use Rattle.std.specs.Prelude.{◌≡◌, ◌<◌, ◌≤◌, ◌⊎◌, ℕ, IfOk, OnOk, length};
ghost use Rattle.rbbi_canon.specs.inner.Letters.{AreLetters, AreLettersSoFar, start_or_end};
ghost use Rattle.rbbi_canon.specs.inner.Letters.{first_character, IsConnected, StayConnected};

use crate::union_find::UnionFind;
use rbbi_table::Table;
use std::alloc::{AllocError, Global};

/// The least of the characters with these two categories, one in each of two tables.
#[derive(Clone, Copy)]
pub(crate) struct Letter {
    pub character: char,
    pub this: u16,
    pub that: u16,
}

/// Where the range with this number starts; past the last range 0x110000.
fn start_of(table: &Table, range: u32) -> u32
    ensures { result ≡ start_or_end table.now.ranges range }
{
    if range < table.ranges() {
        table.valid();
        return table.range(range).start;
    }
    0x11_0000
}

/// Adds the first character from a start on, unless the letters connect its categories already.
fn add_letter(
    these: &Table,
    those: &Table,
    start: u32,
    sets: &mut UnionFind,
    letters: &mut Vec<Letter>,
) -> Result<(), AllocError>
    requires { AreLettersSoFar these.now those.now sets.old letters.old.items }
    ensures letters { OnOk result (AreLettersSoFar these.now those.now sets.new letters.new.items) }
    ensures stay { OnOk result (StayConnected sets.old sets.new) }
    ensures connected { OnOk result
        (IsConnected these.now those.now sets.new (first_character start)) }
{
    these.valid();
    those.valid();
    let character = char::from_u32(start).unwrap_or('\u{E000}');
    let this = these.category(character);
    let that = those.category(character);
    let other = these.categories() as usize + that as usize;
    if !sets.are_joined(this as usize, other) {
        letters.push(Letter {
            character,
            this,
            that,
        })?;
        sets.join(this as usize, other);
    }
    Ok(())
}

/// Characters that stand for all others: whatever is the same for the two categories of each of
/// them is the same for those of every character.
///
/// The categories of both tables are the nodes of a graph, in which each character is an edge. The
/// letters are a spanning forest of it (Kruskal), so there are fewer of them than categories. Each
/// is the least character of its two categories, since starts of ranges are taken as they rise.
pub(crate) fn letters_of(
    alloc: Global,
    these: &Table,
    those: &Table,
) -> Result<Vec<Letter>, AllocError>
    ensures { IfOk result (λ letters. AreLetters these.now those.now letters.items) }
{
    these.valid();
    those.valid();
    let count = these.categories() as usize + those.categories() as usize;
    let mut sets = UnionFind::new(alloc, count)?;
    let mut letters = Vec::new(alloc);
    let mut here = 0;
    let mut there = 0;
    'starts: while here < these.ranges() || there < those.ranges() {
        let this = start_of(these, here);
        let that = start_of(those, there);
        add_letter(these, those, this.min(that), &mut sets, &mut letters)?;
        if this <= that {
            here += 1;
        } else {
            there += 1;
        }
    }
    Ok(letters)
}
