//! Tables of rules that are given as text.

use rbbi_compile::compile;
use rbbi_props::PropTable;
use rbbi_table::Table;
use rbbi_text::MOST_BYTES;
use std::alloc::Global;
use std::process::Abort;

/// The rules of words: letters with one apostrophe between, tagged 200, and digits with one point
/// or comma between, tagged 100.
pub(crate) const WORDS: &str = "!!chain; !!quoted_literals_only;
$ALetter = [A-Za-z]; $Numeric = [0-9]; $Mid = [']; $MidNum = [.,];
$ALetter {200}; $Numeric {100}; $ALetter $ALetter {200}; $ALetter $Mid $ALetter {200};
$Numeric $Numeric {100}; $Numeric $MidNum $Numeric {100}; .;";

/// The table of the rules of a text, without property files.
pub(crate) fn table_of(rt: &impl Abort, alloc: Global, text: &str) -> Table {
    assert!(rt; text.len() <= MOST_BYTES);
    compile(alloc, text, &PropTable::new(alloc), false).expect(rt, text)
}
