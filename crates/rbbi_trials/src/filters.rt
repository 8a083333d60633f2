//! Random scripts through filters, each reply held against that of a plain list of the boundaries
//! that are reported, which is made again for each command.
ghost use Rattle.std.specs.Prelude.{◌≡◌, ◌<◌};
ghost use Rattle.rbbi_filter.specs.Closures.{AnswersEnds, Turns};

use crate::draws::Draws;
use crate::questions::{Boundary, Question, answer_on};
use crate::rescans::{Rescans, mapped, status_at};
use crate::tables::table_of;
use rbbi_filter::{Abbreviations, CharMap, Filtered, Predicate, Tailored, Tailoring};
use rbbi_script::{Command, perform_by};
use rbbi_session::{Session, Walk};
use rbbi_table::Table;
use rbbi_text::{Pieces, Steps, Word, append, append_number};
use std::alloc::{AllocError, Global};
use std::marker::Brand;
use std::process::Abort;
use std::sync::ledger::{Blank, Ledger};

/// What stands between a text and its boundaries.
#[derive(Clone, Copy)]
enum Plain<'a> {
    /// No boundary is reported after one of these.
    Hiding(&'a [&'a str]),
    /// The first of each pair is read as the second.
    Turning(&'a [(char, char)]),
}

/// Rules, the characters of their texts, and a filter, with the bytes of its file.
const FILTERS: &[(&str, &[char], Plain<'_>, &str)] = &[
    (
        "[^.]+[.]' '*; .;",
        &['M', 'r', '.', ' ', ' ', 'a', '\t'],
        Plain::Hiding(&["Mr.", "a.", "r", "a. M", "."]),
        "Mr.\na.\n# none\nr\n\na. M\n.",
    ),
    (
        ".{3};",
        &[
            ' ', ' ', ' ', ' ', ' ', ' ', ' ', ' ', ' ', ' ', ' ', ' ', ' ', ' ', ' ', ' ', ' ',
            ' ', ' ', ' ', 'a', '.', '\u{85}',
        ],
        Plain::Hiding(&["a.", ".", "a  ."]),
        "a.\n.\na  .\n",
    ),
    (
        "!!chain; [a-z]{7}; [a-z][a-z]{7}; ' '; ' '' '; .;",
        &['a', 'z', '\'', ' ', '-', '\u{1D11E}'],
        Plain::Turning(&[('\'', 'a'), ('-', ' '), ('z', '!'), ('\u{1D11E}', 'b')]),
        "0027 ; 0061\n002D;0020\n007a\t; 0021 # z\n01D11E ; 0062\n",
    ),
    (
        "a+ / b; b; a; a+c;",
        &['a', 'a', 'a', 'b', 'c', 'd'],
        Plain::Turning(&[('b', 'c'), ('c', 'b'), ('d', 'a')]),
        "0062;0063\n0063;0062\n0064;0061",
    ),
];

/// The number of scripts of each filter, of the commands of each, and of characters at first.
const SCRIPTS: u64 = 2;

const COMMANDS: u32 = 100;

const LENGTH: u32 = 150;

/// A drawn command.
fn drawn_command(rt: &impl Abort, alloc: Global, draws: &mut Draws<'_>) -> Command {
    let place = draws.below(LENGTH + 20);
    match draws.below(14) {
        0 => Command::First,
        1 => Command::Last,
        2 | 3 => Command::Next,
        4 | 5 => Command::Previous,
        6 => Command::Statuses,
        7 => Command::Breaks,
        8 | 9 => Command::Following(place),
        10 | 11 => Command::Preceding(place),
        12 => Command::Is(place),
        _ => {
            let edit = draws.edit(rt, alloc, LENGTH + 17);
            Command::Replace {
                at: edit.at,
                remove: edit.remove,
                text: Word::new(alloc, edit.insert.as_str()).expect(rt, "a word"),
            }
        }
    }
}

/// Whether a character is white space.
fn is_white_space(c: char) -> bool {
    matches!(
        c,
        '\t'..='\r' | ' ' | '\u{85}' | '\u{200E}' | '\u{200F}' | '\u{2028}' | '\u{2029}'
    )
}

/// Whether the letters end with one of these, with nothing or white space before it.
fn ends(letters: &str, list: &[&str]) -> bool {
    let letters = letters.trim_end_matches(' ');
    for member in list {
        if let Some(rest) = letters.strip_suffix(*member) {
            if rest.chars().next_back().is_none_or(is_white_space) {
                return true;
            }
        }
    }
    false
}

/// Whether the place lies within the letters, and one of these ends the at most 64 before it.
fn is_hidden(rt: &impl Abort, alloc: Global, letters: &[char], at: u32, list: &[&str]) -> bool {
    let at = at as usize;
    if at == 0 || at >= letters.len() {
        return false;
    }
    let before = mapped(rt, alloc, &letters[at.saturating_sub(64)..at], &[]);
    ends(before.as_str(), list)
}

/// A text and a cursor, of which all boundaries are found again for each command, and what stands
/// between them.
#[derive(Drop)]
struct Model<'a> {
    rescans: Rescans<'a>,
    plain: Plain<'a>,
}

/// The boundaries that are reported.
fn reported<L: Ledger>(
    rt: &impl Abort,
    alloc: Global,
    model: &Model<'_>,
    steps: &mut Steps<L>,
) -> Vec<Boundary> {
    let (list, pairs): (&[&str], &[(char, char)]) = match model.plain {
        Plain::Hiding(list) => (list, &[]),
        Plain::Turning(pairs) => (&[], pairs),
    };
    let mut reported = Vec::new(alloc);
    for boundary in &model.rescans.boundaries(rt, alloc, pairs, steps) {
        if !is_hidden(rt, alloc, &model.rescans.letters, boundary.at, list) {
            reported.push(*boundary).expect(rt, "a boundary");
        }
    }
    reported
}

/// Adds a line with the statuses of a list, joined.
fn add_statuses(reply: &mut Vec<u8>, table: &Table, status: u16) -> Result<(), AllocError> {
    if status < table.lists() {
        for (i, value) in table.status_list(status).iter().enumerate() {
            if i > 0 {
                append(b",", reply)?;
            }
            append_number(*value, reply)?;
        }
    }
    append(b"\n", reply)
}

/// Adds the lines of boundaries.
fn add_boundaries(reply: &mut Vec<u8>, table: &Table, all: &[Boundary]) -> Result<(), AllocError> {
    for boundary in all {
        append_number(boundary.at, reply)?;
        append(b" ", reply)?;
        add_statuses(reply, table, boundary.status)?;
    }
    Ok(())
}

/// What a command asks for, where it is a question.
fn question_of(command: &Command) -> Option<Question> {
    match command {
        Command::First => Some(Question::First),
        Command::Last => Some(Question::Last),
        Command::Next => Some(Question::Next),
        Command::Previous => Some(Question::Previous),
        Command::Following(place) => Some(Question::Following(*place)),
        Command::Preceding(place) => Some(Question::Preceding(*place)),
        Command::Is(place) => Some(Question::IsBoundary(*place)),
        _ => None,
    }
}

/// Adds the reply to a question.
fn add_answer(
    reply: &mut Vec<u8>,
    question: Question,
    place: Option<u32>,
) -> Result<(), AllocError> {
    match (question, place) {
        (Question::IsBoundary(_), Some(1)) => append(b"yes", reply)?,
        (Question::IsBoundary(_), _) => append(b"no", reply)?,
        (_, Some(place)) => append_number(place, reply)?,
        (_, None) => append(b"done", reply)?,
    }
    append(b"\n", reply)
}

/// Adds the reply to an edit.
fn add_edited(
    rt: &impl Abort,
    alloc: Global,
    reply: &mut Vec<u8>,
    rescans: &mut Rescans<'_>,
    edit: (u32, u32, &str),
) -> Result<(), AllocError> {
    if !rescans.replace(rt, alloc, edit.0, edit.1, edit.2) {
        return append(b"outside\n", reply);
    }
    append(b"ok ", reply)?;
    append_number(rescans.len(), reply)?;
    append(b"\n", reply)
}

/// The reply to a command, and a line with the cursor then.
fn reply<L: Ledger>(
    rt: &impl Abort,
    alloc: Global,
    model: &mut Model<'_>,
    command: &Command,
    steps: &mut Steps<L>,
) -> Result<Vec<u8>, AllocError> {
    let mut reply = Vec::new(alloc);
    let reported = reported(rt, alloc, model, steps);
    let rescans = &mut model.rescans;
    if let Some(question) = question_of(command) {
        let answer = answer_on(&reported, rescans.len(), rescans.cursor, question);
        rescans.cursor = answer.cursor;
        add_answer(&mut reply, question, answer.reply)?;
    } else if let Command::Replace { at, remove, text } = command {
        let edit = (*at, *remove, text.as_str());
        add_edited(rt, alloc, &mut reply, rescans, edit)?;
    } else if let Command::Breaks = command {
        add_boundaries(&mut reply, rescans.table, &reported)?;
    } else {
        let status = status_at(&reported, rescans.cursor);
        add_statuses(&mut reply, rescans.table, status)?;
    }
    append_number(rescans.cursor, &mut reply)?;
    append(b"\n", &mut reply)?;
    Ok(reply)
}

/// The number of the first command, from 0, to which a session replies otherwise than the model, or
/// after which its cursor is elsewhere.
fn first_other<S: Walk, L: Ledger>(
    rt: &impl Abort,
    alloc: Global,
    session: &mut S,
    model: &mut Model<'_>,
    draws: &mut Draws<'_>,
    steps: &mut Steps<L>,
) -> Option<u32> {
    for number in 0..COMMANDS {
        let command = drawn_command(rt, alloc, draws);
        let mut said = Vec::new(alloc);
        perform_by(session, &command, &mut said, steps).expect(rt, "a reply");
        perform_by(session, &Command::Current, &mut said, steps).expect(rt, "a reply");
        let wanted = reply(rt, alloc, model, &command, steps).expect(rt, "a reply");
        if said.as_slice() != wanted.as_slice() {
            return Some(number);
        }
    }
    None
}

/// The first command to which a session past abbreviations, with this predicate of them, replies
/// otherwise than the model.
fn first_other_filtered<P: Predicate + Drop, L: Ledger>(
    rt: &impl Abort,
    alloc: Global,
    text: Pieces,
    list: &Abbreviations,
    keep: P,
    model: &mut Model<'_>,
    draws: &mut Draws<'_>,
    steps: &mut Steps<L>,
) -> Option<u32>
    requires { AnswersEnds (P.can_ask keep) (P.answers keep) list.now }
{
    let session = Session::open(alloc, model.rescans.table, text).expect(rt, "a session");
    let mut session = Filtered::open(session, list, keep);
    first_other(rt, alloc, &mut session, model, draws, steps)
}

/// The first command to which a session over mapped characters, with this map of them, replies
/// otherwise than the model.
fn first_other_tailored<G: CharMap + Drop, L: Ledger>(
    rt: &impl Abort,
    alloc: Global,
    text: Pieces,
    pairs: &Tailoring,
    map: G,
    model: &mut Model<'_>,
    draws: &mut Draws<'_>,
    steps: &mut Steps<L>,
) -> Option<u32>
    requires { Turns (G.can_map map) (G.maps map) pairs.now }
{
    let session = Tailored::open(alloc, model.rescans.table, text, pairs, map);
    let mut session = session.expect(rt, "a session");
    first_other(rt, alloc, &mut session, model, draws, steps)
}

/// The number of the first command, from 0, to which the session of the model's filter, whose file
/// this is, replies otherwise than the model.
fn first_other_of_filter<L: Ledger>(
    rt: &impl Abort,
    alloc: Global,
    text: Pieces,
    file: &[u8],
    model: &mut Model<'_>,
    draws: &mut Draws<'_>,
    steps: &mut Steps<L>,
) -> Option<u32> {
    assert!(rt; file.len() < 1000);
    match model.plain {
        Plain::Hiding(_) => {
            let list = Abbreviations::read(alloc, file).expect(rt, "a list");
            let keep = |w: &[char]| list.ends(w);
            first_other_filtered(rt, alloc, text, &list, keep, model, draws, steps)
        }
        Plain::Turning(_) => {
            let pairs = Tailoring::read(alloc, file).expect(rt, "a tailoring");
            let map = |c: char| pairs.turn(c);
            first_other_tailored(rt, alloc, text, &pairs, map, model, draws, steps)
        }
    }
}

/// The number of the first command of a random script, from 0, to which the session of a filter
/// replies otherwise than the model.
fn first_other_of_script<L: Ledger, R: Abort>(
    rt: &R,
    host: &HostRuntime,
    table: &Table,
    filter: (Plain<'_>, &str),
    draws: &mut Draws<'_>,
    blank: Blank,
) -> Option<u32>
    requires name { blank.name ≡ L.name }
    requires parts { blank.parts ≡ L.parts }
    requires some { 0 < blank.parts }
{
    let alloc = host.alloc();
    let (plain, file) = (filter.0, filter.1.as_bytes());
    let mut steps = Steps::<L>::new(host, blank);
    let letters = draws.text(rt, alloc, LENGTH);
    let text = Pieces::new(alloc, letters.as_str()).expect(rt, "a text");
    let rescans = Rescans::open(rt, alloc, table, letters.as_str());
    let mut model = Model { rescans, plain };
    first_other_of_filter(rt, alloc, text, file, &mut model, draws, &mut steps)
}

#[test]
fn scripts_through_filters(rt: HostRuntime) {
    for row in FILTERS {
        let (rules, alphabet, plain, file) = *row;
        let table = table_of(&rt, rt.alloc(), rules);
        for seed in 0..SCRIPTS {
            let mut draws = Draws::new(seed, alphabet);
            let (filter, draws, blank) = ((plain, file), &mut draws, Blank::new(1));
            let other = first_other_of_script::<Brand, _>(&rt, &rt, &table, filter, draws, blank);
            assert!(rt;
                other.is_none(),
                "seed {seed}, command {other:?} of {rules:?}"
            );
        }
    }
}
