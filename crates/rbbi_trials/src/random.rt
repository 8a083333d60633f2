//! Random scripts, each reply held against that of whole rescans, and the reads of each command
//! against its cost.
ghost use Rattle.std.specs.Prelude.{◌≡◌, ◌<◌};

use crate::counted::Counted;
use crate::draws::Draws;
use crate::questions::Question;
use crate::rescans::{Rescans, Wanted};
use crate::tables::{WORDS, table_of};
use rbbi_session::Session;
use rbbi_table::Table;
use rbbi_text::{Chars, Pieces, Steps};
use std::alloc::Global;
use std::marker::Brand;
use std::process::Abort;
use std::sync::ledger::{Blank, Ledger};

/// Rules, and the characters of their texts.
const RULES: &[(&str, &[char])] = &[
    ("[a-z]+; ' '+;", &['a', 'b', 'z', ' ', ' ', '-']),
    (WORDS, &['a', 'b', 'Z', '\'', '1', '2', '.', ',', ' ', '-']),
    ("a+ / b; b;", &['a', 'a', 'a', 'b', 'c']),
    (
        "$W = [a-c]; $X = [\\u0308]; $D = [12];
$W ($W | $X)* {200}; $D+ ([.] $D+)* {100};
' '+; [.] / ' ' {5}; .;",
        &['a', 'b', 'c', '1', '2', ' ', '.', '\u{308}'],
    ),
    ("a; a+b;", &['a', 'a', 'a', 'a', 'a', 'a', 'b', 'c']),
];

/// The number of scripts of each rule file, and of the commands of each script.
const SCRIPTS: u64 = 4;

const COMMANDS: u32 = 200;

/// The number of characters that a text has at first.
const LENGTH: u32 = 300;

/// The most characters that an edit may read.
const EDIT_COST: u32 = 1026;

/// A question at a place within a text of this length, at its end or past it.
fn drawn_question(draws: &mut Draws<'_>, len: u32) -> Question {
    let place = match draws.below(40) {
        0 => u32::MAX,
        1 => len,
        _ => draws.below(len.saturating_add(4)),
    };
    match draws.below(12) {
        0 => Question::First,
        1 => Question::Last,
        2 | 3 => Question::Next,
        4 | 5 => Question::Previous,
        6 | 7 => Question::Following(place),
        8 | 9 => Question::Preceding(place),
        _ => Question::IsBoundary(place),
    }
}

/// Asks a session.
fn ask<L: Ledger>(
    session: &mut Session<'_, Counted<Pieces>>,
    question: Question,
    steps: &mut Steps<L>,
) -> Option<u32> {
    match question {
        Question::First => Some(session.first()),
        Question::Last => Some(session.last(steps)),
        Question::Next => session.next(steps),
        Question::Previous => session.previous(steps),
        Question::Following(place) => session.following(place, steps),
        Question::Preceding(place) => session.preceding(place, steps),
        Question::IsBoundary(place) => Some(u32::from(session.is_boundary(place, steps))),
    }
}

/// Whether the same question, asked again, must read nothing. No run is kept for the answer 0 of
/// the last boundary before a place.
fn is_kept(question: Question, reply: Option<u32>) -> bool {
    match question {
        Question::Following(_) | Question::IsBoundary(_) => true,
        Question::Preceding(_) => reply != Some(0),
        _ => false,
    }
}

/// Asks a question, and again if its answer is kept, which must be the same and read nothing. Tells
/// whether all is as it must be: the replies, the reads, and then the cursor and its statuses.
fn is_answered<L: Ledger>(
    table: &Table,
    session: &mut Session<'_, Counted<Pieces>>,
    wanted: Wanted,
    question: Question,
    steps: &mut Steps<L>,
) -> bool {
    let reply = ask(session, question, steps);
    let reads = session.text().reads();
    if reply != wanted.answer.reply || u64::from(reads) > wanted.cost {
        return false;
    }
    if is_kept(question, reply) && ask(session, question, steps) != reply {
        return false;
    }
    session.text().reads() == 0
        && session.current() == wanted.answer.cursor
        && wanted.status < table.lists()
        && session.status_list() == table.status_list(wanted.status)
}

/// Makes a drawn edit, and tells whether all is as it must be.
fn is_edited<L: Ledger>(
    rt: &impl Abort,
    alloc: Global,
    draws: &mut Draws<'_>,
    session: &mut Session<'_, Counted<Pieces>>,
    rescans: &mut Rescans<'_>,
    steps: &mut Steps<L>,
) -> bool {
    let edit = draws.edit(rt, alloc, session.text().len());
    let insert = edit.insert.as_str();
    let wanted = rescans.replace(rt, alloc, edit.at, edit.remove, insert);
    let taken = session.replace(edit.at, edit.remove, insert, steps).is_ok();
    taken == wanted && session.text().reads() <= EDIT_COST && session.text().len() == rescans.len()
}

/// Does a drawn command, and tells whether all is as it must be.
fn is_done<L: Ledger>(
    rt: &impl Abort,
    alloc: Global,
    draws: &mut Draws<'_>,
    session: &mut Session<'_, Counted<Pieces>>,
    rescans: &mut Rescans<'_>,
    steps: &mut Steps<L>,
) -> bool {
    if draws.below(5) == 0 {
        return is_edited(rt, alloc, draws, session, rescans, steps);
    }
    let question = drawn_question(draws, session.text().len());
    let wanted = rescans.ask(rt, alloc, question, steps);
    is_answered(rescans.table, session, wanted, question, steps)
}

/// The number of the first command of a random script, from 0, that isn't done as it must be.
fn first_wrong<L: Ledger, R: Abort>(
    rt: &R,
    host: &HostRuntime,
    table: &Table,
    draws: &mut Draws<'_>,
    blank: Blank,
) -> Option<u32>
    requires name { blank.name ≡ L.name }
    requires parts { blank.parts ≡ L.parts }
    requires some { 0 < blank.parts }
{
    let alloc = host.alloc();
    let mut steps = Steps::<L>::new(host, blank);
    let letters = draws.text(rt, alloc, LENGTH);
    let text = Counted::new(Pieces::new(alloc, letters.as_str()).expect(rt, "a text"));
    let mut session = Session::open(alloc, table, text).expect(rt, "a session");
    let mut rescans = Rescans::open(rt, alloc, table, letters.as_str());
    for number in 0..COMMANDS {
        if !is_done(rt, alloc, draws, &mut session, &mut rescans, &mut steps) {
            return Some(number);
        }
    }
    None
}

#[test]
fn scripts_by_rescans(rt: HostRuntime) {
    for row in RULES {
        let table = table_of(&rt, rt.alloc(), row.0);
        for seed in 0..SCRIPTS {
            let mut draws = Draws::new(seed, row.1);
            let wrong = first_wrong::<Brand, _>(&rt, &rt, &table, &mut draws, Blank::new(1));
            assert!(rt;
                wrong.is_none(),
                "seed {seed}, command {wrong:?} of {:?}",
                row.0
            );
        }
    }
}
