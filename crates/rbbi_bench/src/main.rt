//! Measures calls that the program `rbbi` can't show alone.
//!
//! `PART FILE ROUNDS` makes one call so many times and prints the result of the last one, so that
//! the times of two numbers of rounds give that of one call. README.md has the parts.
#![tactic(auto)]

ghost use Rattle.std.specs.Prelude.{◌≡◌, ◌<◌, ◌≤◌, length, IfSome};
ghost use Rattle.rbbi_text.specs.Bytes.{most_bytes};

mod kit;
mod parts;
mod rules;
mod sessions;

use kit::measure_kit;
use parts::{measure_categories, measure_nexts, measure_places, measure_positions};
use rbbi_file::read_table;
use rbbi_io::{Files, RealFiles, words};
use rbbi_table::Table;
use rbbi_text::{MOST_BYTES, Raw, Steps};
use rules::table_of;
use sessions::measure_session;
use std::alloc::Global;
use std::io;
use std::marker::Brand;
use std::sync::ledger::{Blank, Ledger};

/// All bytes of a file, or nothing where it can't be read.
fn read<R: std::rt::Files + Alloc>(
    alloc: Global,
    files: &mut RealFiles<'_, R>,
    name: &str,
) -> Option<Raw>
    ensures { IfSome result (λ bytes. length bytes ≤ most_bytes) }
{
    files.read(alloc, name, MOST_BYTES as u64).ok()
}

/// The number that an argument writes.
fn number_at(words: &[String], place: usize) -> Option<u32> {
    words.get(place)?.as_str().parse::<u32>().ok()
}

/// The table of a table file, or for `scan` of a rule file.
fn table_for(alloc: Global, part: &str, bytes: &[u8]) -> Option<Table>
    requires { length bytes.now ≤ most_bytes }
{
    if part == "scan" {
        return table_of(alloc, bytes);
    }
    read_table(alloc, bytes).ok()
}

/// Makes a call over a text by a table.
fn measure_by_table<L: Ledger>(
    alloc: Global,
    words: &[String],
    rounds: u32,
    table: &Table,
    text: &Raw,
    steps: &mut Steps<L>,
) -> Option<u64>
    requires { length text.now ≤ most_bytes }
{
    match words.get(0)?.as_str() {
        "nexts" => measure_nexts(alloc, table, text, words.len() > 4, rounds, steps),
        "scan" => measure_nexts(alloc, table, text, false, rounds, steps),
        "session" => measure_session(alloc, table, text, words.get(4)?.as_str(), rounds, steps),
        _ => None,
    }
}

/// Makes a call over a text by the table of a file.
fn measure_over<L: Ledger>(
    alloc: Global,
    words: &[String],
    rounds: u32,
    file: &Raw,
    text: &Raw,
    steps: &mut Steps<L>,
) -> Option<u64>
    requires file { length file.now ≤ most_bytes }
    requires text { length text.now ≤ most_bytes }
{
    let table = table_for(alloc, words.get(0)?.as_str(), file.bytes(steps))?;
    measure_by_table(alloc, words, rounds, &table, text, steps)
}

/// Makes a call over one file.
fn measure_file<L: Ledger>(
    alloc: Global,
    words: &[String],
    rounds: u32,
    file: &Raw,
    steps: &mut Steps<L>,
) -> Option<u64>
    requires { length file.now ≤ most_bytes }
{
    match words.get(0)?.as_str() {
        "categories" => measure_categories(alloc, file.bytes(steps), rounds),
        "positions" => measure_positions(alloc, file.bytes(steps), rounds),
        "places" => measure_places(alloc, file, rounds, number_at(words, 3)?, steps),
        "kit" => measure_kit(file.bytes(steps), words.get(3)?.as_str(), rounds),
        _ => None,
    }
}

/// Whether a call takes a text beside its file.
fn takes_text(part: &str) -> bool {
    matches!(part, "nexts" | "scan" | "session")
}

/// Makes the call that the arguments ask for over a file that was read.
fn measure_read<R: std::rt::Files + Alloc, L: Ledger>(
    alloc: Global,
    words: &[String],
    files: &mut RealFiles<'_, R>,
    file: &Raw,
    steps: &mut Steps<L>,
) -> Option<u64>
    requires { length file.now ≤ most_bytes }
{
    let rounds = number_at(words, 2)?;
    if !takes_text(words.get(0)?.as_str()) {
        return measure_file(alloc, words, rounds, file, steps);
    }
    let text = read(alloc, files, words.get(3)?.as_str())?;
    measure_over(alloc, words, rounds, file, &text, steps)
}

/// Reads the file that the arguments name, and makes the call that they ask for.
fn measure<R: std::rt::Files + Alloc, L: Ledger>(
    alloc: Global,
    words: &[String],
    files: &mut RealFiles<'_, R>,
    steps: &mut Steps<L>,
) -> Option<u64> {
    let file = read(alloc, files, words.get(1)?.as_str())?;
    measure_read(alloc, words, files, &file, steps)
}

/// Makes the call that the arguments ask for, with a counter of its own.
fn run<L: Ledger>(rt: &HostRuntime, words: &Vec<String>, blank: Blank) -> Option<u64>
    requires name { blank.name ≡ L.name }
    requires parts { blank.parts ≡ L.parts }
    requires some { 0 < blank.parts }
{
    let mut files = RealFiles::new(rt);
    let mut steps = Steps::<L>::new(rt, blank);
    measure(rt.alloc(), words.as_slice(), &mut files, &mut steps)
}

fn main(rt: HostRuntime) -> io::Result<()> {
    let words = words(&rt)?;
    match run::<Brand>(&rt, &words, Blank::new(1)) {
        Some(count) => println!(rt; "{count}"),
        None => println!(rt; "PART FILE ROUNDS"),
    }
}
