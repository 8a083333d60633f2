//! Sessions asked and edited by hand, over texts of which all reads are counted.
ghost use Rattle.std.specs.Prelude.{◌≡◌, ◌<◌};

use crate::counted::Counted;
use crate::tables::table_of;
use rbbi_session::Session;
use rbbi_table::Table;
use rbbi_text::{Chars, PlainText, Steps};
use std::marker::Brand;
use std::process::Abort;
use std::sync::ledger::{Blank, Ledger};

/// What is done to a session, and last the place or the length of the text that it must give.
#[derive(Clone, Copy)]
enum Row {
    /// Asks for the first boundary past a place.
    Following(u32, u32),
    /// Asks the same, of a place whose answer is kept: it must read nothing.
    Kept(u32, u32),
    /// Asks the same, of a place whose answer isn't kept: it must read something.
    Read(u32, u32),
    /// Puts a string in place of so many characters from a place on.
    Replace(u32, u32, &'static str, u32),
}

/// Over 2,000 times `words `, of 12,000 characters.
const OVER_WORDS: &[&[Row]] = &[
    // A run before the edit and one after it.
    &[
        Row::Following(8, 11),
        Row::Following(11990, 11993),
        Row::Replace(6000, 0, "x", 12001),
        Row::Kept(8, 11),
        Row::Following(11991, 11994),
        Row::Kept(8, 11),
        Row::Kept(11991, 11994),
    ],
    // The whole run lies after the edit.
    &[
        Row::Following(11990, 11993),
        Row::Replace(0, 5, "", 11995),
        Row::Kept(11985, 11988),
    ],
    // The run that moves to place 0 no longer leads.
    &[
        Row::Following(8, 11),
        Row::Replace(0, 5, "", 11995),
        Row::Read(0, 1),
    ],
];

/// Does what a row says, and tells whether all is as it must be.
fn is_done<L: Ledger>(
    session: &mut Session<'_, Counted<PlainText>>,
    row: Row,
    steps: &mut Steps<L>,
) -> bool {
    let _read_before = session.text().reads();
    match row {
        Row::Following(place, wanted) => session.following(place, steps) == Some(wanted),
        Row::Kept(place, wanted) => {
            session.following(place, steps) == Some(wanted) && session.text().reads() == 0
        }
        Row::Read(place, wanted) => {
            session.following(place, steps) == Some(wanted) && session.text().reads() > 0
        }
        Row::Replace(at, remove, insert, wanted) => {
            session.replace(at, remove, insert, steps).is_ok() && session.text().len() == wanted
        }
    }
}

/// Does what the rows say, one after the other, and tells the number of the first, from 0, that
/// isn't done as it must be.
fn first_wrong<L: Ledger, R: Abort>(
    rt: &R,
    host: &HostRuntime,
    table: &Table,
    text: PlainText,
    rows: &[Row],
    blank: Blank,
) -> Option<usize>
    requires name { blank.name ≡ L.name }
    requires parts { blank.parts ≡ L.parts }
    requires some { 0 < blank.parts }
{
    let mut steps = Steps::<L>::new(host, blank);
    let session = Session::open(host.alloc(), table, Counted::new(text));
    let mut session = session.expect(rt, "a session");
    for (i, row) in rows.iter().enumerate() {
        if !is_done(&mut session, *row, &mut steps) {
            return Some(i);
        }
    }
    None
}

/// The text that is a word so many times.
pub(crate) fn repeated(rt: &impl Abort, host: &HostRuntime, word: &str, times: usize) -> PlainText {
    let letters = word.repeat(host.alloc(), times).expect(rt, word);
    PlainText::new(host.alloc(), letters.as_str()).expect(rt, word)
}

#[test]
fn kept_runs_and_edits(rt: HostRuntime) {
    let table = table_of(&rt, rt.alloc(), "[a-z]+; ' '+;");
    for rows in OVER_WORDS {
        let text = repeated(&rt, &rt, "words ", 2000);
        let wrong = first_wrong::<Brand, _>(&rt, &rt, &table, text, rows, Blank::new(1));
        assert!(rt; wrong.is_none(), "row {wrong:?}");
    }
}

/// Goes from 0 to the end of a text, and tells the number of boundaries past 0 and how many
/// characters were read.
fn go_through<L: Ledger, R: Abort>(
    rt: &R,
    host: &HostRuntime,
    table: &Table,
    text: PlainText,
    blank: Blank,
) -> (u32, u32)
    requires name { blank.name ≡ L.name }
    requires parts { blank.parts ≡ L.parts }
    requires some { 0 < blank.parts }
{
    let mut steps = Steps::<L>::new(host, blank);
    let session = Session::open(host.alloc(), table, Counted::new(text));
    let mut session = session.expect(rt, "a session");
    let mut count: u32 = 0;
    for _ in 0..session.text().len() {
        if session.next(&mut steps).is_none() {
            break;
        }
        count = count.saturating_add(1);
    }
    (count, session.text().reads())
}

/// With the rule `aa;` no pair of a text of letters `a` is safe, and its boundaries make eight
/// runs: each search reads three characters and the last one two, and none is read once more.
#[test]
fn way_without_safe_pairs(rt: HostRuntime) {
    let table = table_of(&rt, rt.alloc(), "aa;");
    let text = repeated(&rt, &rt, "aa", 2000);
    let gone = go_through::<Brand, _>(&rt, &rt, &table, text, Blank::new(1));
    assert!(rt; gone.0 == 2000 && gone.1 == 5999, "{gone:?}");
}
