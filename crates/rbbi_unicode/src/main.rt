//! The program `rbbi_unicode`: property files in the form of Unicode's, from the properties that
//! the kit has, and the boundaries that the kit finds, or the definition of line breaks.
//!
//! - With no arguments: a line for each file, its name and from how many runs of code points it is
//!   made.
//! - With the name of a file: that file.
//! - With `grapheme`, `word`, `sentence` or `line`, and the path of a text: a line for each
//!   segment, the byte where it starts. With `line` a line that must be broken there says so by a
//!   second number, 100.
#![tactic(auto)]

mod files;

use files::{FILES, field, unlisted};
use rbbi_annexes::{Verdict, line_verdicts};
use rbbi_builtin::Property;
use std::io::{self, BufWriter, Write};
use std::process::ExitCode;
use std::{env, fs};
use ucd_table::UNICODE_VERSION;
use unicode_segmentation::UnicodeSegmentation;

/// What the first line of a file goes on with after its name and version.
const HEAD: &str = ", modified: it has no names
# of characters, and neighbouring ranges of one value are one range.
# Made by bin/make-unicode. The licence of the data is LICENSE-UNICODE.";

/// The name that a value with a number has in files, the first of its names.
fn value_of(property: Property, number: u32) -> &'static str {
    let names = property
        .values()
        .get(number as usize)
        .copied()
        .unwrap_or("");
    match names.split_once(' ') {
        Some((first, _)) => first,
        None => names,
    }
}

/// Writes a file: what it is, and a row for each run of a value that is listed.
fn write_file<W: Write>(out: &mut W, name: &str, property: Property) -> io::Result<()> {
    let (major, minor, update) = UNICODE_VERSION;
    writeln!(out, "# {name} of Unicode {major}.{minor}.{update}{HEAD}")?;
    let unlisted = unlisted(property);
    if !unlisted.is_empty() {
        writeln!(out, "# @missing: 0000..10FFFF; {unlisted}")?;
    }
    let field = field(property);
    let mut first = 0;
    for run in property.runs() {
        let end = run / 2048;
        let value = value_of(property, run % 2048);
        if value != unlisted && !value.is_empty() && first < end {
            let last = end - 1;
            if first == last {
                writeln!(out, "{first:04X} ; {field}{value}")?;
            } else {
                writeln!(out, "{first:04X}..{last:04X} ; {field}{value}")?;
            }
        }
        first = end;
    }
    Ok(())
}

/// Writes the start of each line of a text, in bytes, where the definition lets the line be broken.
fn write_lines<W: Write>(rt: &HostRuntime, out: &mut W, text: &str) -> io::Result<()> {
    let chars: Vec<char> = text.chars().collect(rt.alloc())?;
    let verdicts = line_verdicts(rt.alloc(), chars.as_slice())?;
    for ((start, _), verdict) in text.char_indices().zip(verdicts.iter()) {
        match *verdict {
            Verdict::MustBreak => writeln!(out, "{start} 100")?,
            Verdict::MayBreak => writeln!(out, "{start} 0")?,
            Verdict::NoBreak => {}
        }
    }
    Ok(())
}

/// Writes the start of each segment of a text, in bytes, and says whether there are such segments.
fn write_starts<W: Write>(out: &mut W, kind: &str, text: &str) -> io::Result<bool> {
    match kind {
        "grapheme" => {
            for (start, _) in text.grapheme_indices(true) {
                writeln!(out, "{start}")?;
            }
        }
        "word" => {
            for (start, _) in text.split_word_bound_indices() {
                writeln!(out, "{start}")?;
            }
        }
        "sentence" => {
            for (start, _) in text.split_sentence_bound_indices() {
                writeln!(out, "{start}")?;
            }
        }
        _ => return Ok(false),
    }
    Ok(true)
}

/// Writes what the arguments ask for. The result is whether they are valid.
fn answer<W: Write>(rt: &HostRuntime, out: &mut W, words: &[String]) -> io::Result<bool> {
    match words {
        [] => {
            for (name, property) in FILES {
                writeln!(out, "{name} {}", property.runs().len())?;
            }
            Ok(true)
        }
        [wanted] => {
            for (name, property) in FILES {
                if name == wanted.as_str() {
                    write_file(out, name, property)?;
                    return Ok(true);
                }
            }
            Ok(false)
        }
        [kind, path] => {
            let text = fs::read_to_string(rt, path.as_str())?;
            if kind.as_str() == "line" {
                write_lines(rt, out, text.as_str())?;
                return Ok(true);
            }
            write_starts(out, kind.as_str(), text.as_str())
        }
        _ => Ok(false),
    }
}

fn main(rt: HostRuntime) -> io::Result<ExitCode> {
    let words: Vec<String> = env::args(&rt)?.skip(1).collect(rt.alloc())?;
    let mut out = BufWriter::new(rt.alloc(), io::writer(&rt))?;
    let is_answered = answer(&rt, &mut out, &words)?;
    out.flush()?;
    if !is_answered {
        eprintln!(rt;
            "usage: rbbi_unicode [FILE | grapheme TEXT | word TEXT | sentence TEXT | line TEXT]"
        )?;
        return Ok(ExitCode::from(2));
    }
    Ok(ExitCode::SUCCESS)
}
