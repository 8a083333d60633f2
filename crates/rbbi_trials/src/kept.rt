//! A cache asked and edited by hand: what it answers, reads and keeps.
ghost use Rattle.std.specs.Prelude.{◌≡◌, ◌<◌};
ghost use Rattle.rbbi_cache.specs.Kept.{AreTrueRuns};

use crate::counted::Counted;
use crate::questions::Question;
use crate::tables::table_of;
use crate::worked::repeated;
use rbbi_cache::Cache;
use rbbi_table::Table;
use rbbi_text::{EditErr, EditText, PlainText, Steps};
use std::marker::Brand;
use std::process::Abort;
use std::sync::ledger::{Blank, Ledger};

/// A question, the place that it must be answered by, and whether it must read.
type Row = (Question, Option<u32>, bool);

/// Over 2,000 times `words `, with the rules `[a-z]+; ' '+;`.
const OVER_WORDS: &[Row] = &[
    (Question::Following(8), Some(11), true),
    (Question::Following(8), Some(11), false),
    (Question::Following(12000), None, false),
    (Question::Preceding(11990), Some(11988), true),
    (Question::Preceding(11990), Some(11988), false),
    (Question::Preceding(0), None, false),
    (Question::Following(8), Some(11), false),
];

/// Whether the first kept run holds the place.
fn is_kept(cache: &Cache, at: u32) -> bool {
    let Some(run) = cache.kept().first() else {
        return false;
    };
    run.entries().iter().any(|entry| entry.at == at)
}

/// Asks a cache.
fn ask<L: Ledger>(
    cache: &mut Cache,
    table: &Table,
    text: &Counted<PlainText>,
    question: Question,
    steps: &mut Steps<L>,
) -> Option<u32>
    requires fit { cache.old.slashes ≡ table.now.slashes }
    requires are_true { AreTrueRuns table.now text.now.text cache.old.runs }
    ensures fit { cache.new.slashes ≡ table.now.slashes }
    ensures are_true { AreTrueRuns table.now text.now.text cache.new.runs }
{
    let found = match question {
        Question::Following(place) => cache.after(table, text, place, steps),
        Question::Preceding(place) => cache.before(table, text, place, steps),
        _ => None,
    };
    found.map(|entry| entry.at)
}

/// Whether an answer and its reads are as a row says, and the answer is kept in the first run.
fn is_right(cache: &Cache, row: Row, answer: Option<u32>, reads: u32) -> bool {
    let (_, wanted, must_read) = row;
    if answer != wanted || (reads > 0) != must_read {
        return false;
    }
    answer.is_none_or(|at| is_kept(cache, at))
}

/// Asks the questions one after the other, and tells the number of the first, from 0, that isn't
/// answered as it must be, or reads otherwise, or whose answer isn't kept in the first run.
fn first_wrong<L: Ledger, R: Abort>(
    rt: &R,
    host: &HostRuntime,
    table: &Table,
    text: &Counted<PlainText>,
    blank: Blank,
) -> Option<usize>
    requires name { blank.name ≡ L.name }
    requires parts { blank.parts ≡ L.parts }
    requires some { 0 < blank.parts }
{
    let mut steps = Steps::<L>::new(host, blank);
    let mut cache = Cache::new(host.alloc(), table).expect(rt, "a cache");
    for (i, row) in OVER_WORDS.iter().enumerate() {
        let _read_before = text.reads();
        let answer = ask(&mut cache, table, text, row.0, &mut steps);
        if !is_right(&cache, *row, answer, text.reads()) {
            return Some(i);
        }
    }
    None
}

/// Asks for the first boundary past each of the places.
fn ask_past<L: Ledger>(
    cache: &mut Cache,
    table: &Table,
    text: &PlainText,
    places: &[u32],
    steps: &mut Steps<L>,
)
    requires fit { cache.old.slashes ≡ table.now.slashes }
    requires are_true { AreTrueRuns table.now text.now cache.old.runs }
    ensures fit { cache.new.slashes ≡ table.now.slashes }
    ensures are_true { AreTrueRuns table.now text.now cache.new.runs }
{
    for place in places {
        let _found = cache.after(table, text, *place, steps);
    }
}

/// How many runs are kept after an edit, and after a question whose run extends what the edit left
/// of another run.
fn kept_after<L: Ledger>(
    rt: &HostRuntime,
    table: &Table,
    mut text: PlainText,
    blank: Blank,
) -> Result<(usize, usize), EditErr>
    requires name { blank.name ≡ L.name }
    requires parts { blank.parts ≡ L.parts }
    requires some { 0 < blank.parts }
{
    let mut steps = Steps::<L>::new(rt, blank);
    let mut cache = Cache::new(rt.alloc(), table)?;
    ask_past(&mut cache, table, &text, &[600, 8, 11], &mut steps);
    text.replace(6, 1, "")?;
    cache.edited(table, &text, 6, 1, 0, &mut steps);
    let left = cache.kept().len();
    ask_past(&mut cache, table, &text, &[10], &mut steps);
    Ok((left, cache.kept().len()))
}

#[test]
fn questions_over_words(rt: HostRuntime) {
    let table = table_of(&rt, rt.alloc(), "[a-z]+; ' '+;");
    let text = Counted::new(repeated(&rt, &rt, "words ", 2000));
    let wrong = first_wrong::<Brand, _>(&rt, &rt, &table, &text, Blank::new(1));
    assert!(rt; wrong.is_none(), "question {wrong:?}");
}

#[test]
fn runs_after_an_edit(rt: HostRuntime) {
    let table = table_of(&rt, rt.alloc(), "[a-z]+; ' '+;");
    let text = repeated(&rt, &rt, "words ", 2000);
    let kept = kept_after::<Brand>(&rt, &table, text, Blank::new(1)).expect(&rt, "an edit");
    assert!(rt; kept.0 == 2 && kept.1 == 2, "{kept:?}");
}
