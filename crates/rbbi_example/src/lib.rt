//! A caller of the libraries, for docs/library.md: how long the first segment of a text is.
#![tactic(auto)]

ghost use Rattle.std.specs.Prelude.{◌≡◌, ◌<◌, ◌≤◌, length};
ghost use Rattle.rbbi_model.specs.Searches.{found};

use rbbi_table::{FrontPlaces, Table};
use rbbi_text::{Chars, Steps};
use std::sync::ledger::Ledger;

/// The number of characters of the first segment of a text by a table, and 0 for the empty text.
/// `marks` is made for a table with as many look-ahead rules.
pub fn first_segment<T: Chars, L: Ledger>(
    table: &Table,
    text: &T,
    marks: &mut FrontPlaces,
    steps: &mut Steps<L>,
) -> u32
    requires { marks.old ≡ table.now.slashes }
    ensures found { 0 < length (T.characters text.now) →
        result ≡ (found table.now (T.characters text.now) 0).at }
    ensures empty { length (T.characters text.now) ≡ 0 → result ≡ 0 }
{
    if text.len() == 0 {
        return 0;
    }
    table.next(text, 0, marks, steps).at
}
