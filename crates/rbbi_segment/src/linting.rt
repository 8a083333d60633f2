//! What is found in a rule file that changes nothing or was likely meant otherwise, and why its rules
//! are needed.
ghost use Rattle.std.specs.Prelude.{◌≤◌, length};
ghost use Rattle.rbbi_text.specs.Bytes.{most_bytes};

use crate::basis::properties_of;
use crate::colors::Surroundings;
use crate::escapes::{Within, append_character};
use crate::failure::{Failure, Status};
use crate::faults::{Source, append_position, append_shown};
use crate::options::Request;
use crate::reading::{RULES_LIMIT, read};
use crate::rules::table_of_rules;
use crate::source::position_of;
use rbbi_builtin::add_asked_for;
use rbbi_compile::{read_rules, rule_text};
use rbbi_io::{Files, Sink, put_all};
use rbbi_lint::{
    Effect, Findings, Found, Habit, Hidden, Pair, Part, Piece, effect_of, lint, pieces,
};
use rbbi_props::PropTable;
use rbbi_resolve::Rules;
use rbbi_table::Table;
use rbbi_text::{Steps, append, append_number};
use std::alloc::{AllocError, Global};
use std::io::Read;
use std::sync::ledger::Ledger;

/// What is said of a place of a rule file, in characters from 0.
#[derive(Drop)]
struct Remark {
    place: u32,
    text: Vec<u8>,
}

/// What is said of a rule file, and whether something was found.
#[derive(Drop)]
struct Report {
    remarks: Vec<Remark>,
    has_findings: bool,
}

impl Report {
    fn new(alloc: Global) -> Report {
        Report {
            remarks: Vec::new(alloc),
            has_findings: false,
        }
    }

    /// Adds what was found at a place.
    fn find(&mut self, alloc: Global, place: u32, text: &[u8]) -> Result<(), AllocError> {
        let text = text.to_vec(alloc)?;
        self.has_findings = true;
        self.remarks.push(Remark { place, text })?;
        Ok(())
    }
}

/// Where a piece is shown: past the `|` and the space at its start.
fn place_of(text: &str, piece: &Piece) -> u32 {
    let mut place = piece.from;
    for c in text.chars().skip(piece.from as usize) {
        let is_joined = c == '|' || c.is_whitespace();
        if piece.to <= place || !is_joined {
            break;
        }
        place = place.saturating_add(1);
    }
    place
}

fn idle_text(part: Part) -> &'static str {
    match part {
        Part::Rule => "this rule changes nothing",
        Part::Alternative => "this alternative changes nothing",
        Part::Member => "this part of the set changes nothing",
    }
}

/// What is said of two rules that always end together.
fn together_text(alloc: Global, text: &str, pair: &Pair) -> Result<Vec<u8>, AllocError> {
    let mut out = Vec::new(alloc);
    append(b"this rule and that of line ", &mut out)?;
    append_number(position_of(text, pair.earlier).row, &mut out)?;
    append(b" always end together, with the statuses ", &mut out)?;
    append_number(pair.later_status, &mut out)?;
    append(b" and ", &mut out)?;
    append_number(pair.earlier_status, &mut out)?;
    Ok(out)
}

/// What is said of a rule whose status is never shown.
fn hidden_text(alloc: Global, text: &str, hidden: &Hidden) -> Result<Vec<u8>, AllocError> {
    let mut out = Vec::new(alloc);
    append(b"the status ", &mut out)?;
    append_number(hidden.status, &mut out)?;
    append(
        b" is never shown: where this rule ends, a rule with a greater one ends too, \
          as that of line ",
        &mut out,
    )?;
    append_number(position_of(text, hidden.other).row, &mut out)?;
    append(b" with ", &mut out)?;
    append_number(hidden.other_status, &mut out)?;
    Ok(out)
}

/// What is said of a status that directly follows an atom.
fn repeat_text(alloc: Global, count: u32) -> Result<Vec<u8>, AllocError> {
    let mut out = Vec::new(alloc);
    append(b"{", &mut out)?;
    append_number(count, &mut out)?;
    append(
        b"} is a status and repeats nothing; write a status after a space",
        &mut out,
    )?;
    Ok(out)
}

/// What is said of a habit, whatever its count.
fn habit_words(habit: Habit) -> &'static str {
    match habit {
        Habit::Repeat(_) => "this is a status and repeats nothing",
        Habit::Backspace => r"\b is a backspace (U+0008); nothing marks the edge of a word",
        Habit::Comment => r"this line is a comment, since it begins with #; the character is \#",
        Habit::AnyCharacter => r". is any character; a full stop is \. or '.'",
        Habit::TwoQuotes => r"'''' is two quotes; one is '' or \'",
        Habit::MixedRange => "this range goes on over other characters than its ends are",
    }
}

/// What is said of a habit.
fn habit_text(alloc: Global, habit: Habit) -> Result<Vec<u8>, AllocError> {
    match habit {
        Habit::Repeat(count) => repeat_text(alloc, count),
        _ => habit_words(habit).as_bytes().to_vec(alloc),
    }
}

/// What is said of a look-ahead rule that may cut later than meant.
const LATE_CUT: &[u8] = b"this rule may cut within what its rest matches: the front has several \
    lengths, and its last character may begin the rest";

/// Adds what changes nothing.
fn add_idle(
    alloc: Global,
    text: &str,
    findings: &Findings,
    report: &mut Report,
) -> Result<(), AllocError> {
    for piece in &findings.idle {
        let said = idle_text(piece.part);
        report.find(alloc, place_of(text, piece), said.as_bytes())?;
    }
    Ok(())
}

/// Adds the statuses that no output distinguishes, and those that are never shown.
fn add_endings(
    alloc: Global,
    text: &str,
    findings: &Findings,
    report: &mut Report,
) -> Result<(), AllocError> {
    for pair in &findings.together {
        let said = together_text(alloc, text, pair)?;
        report.find(alloc, pair.later, &said)?;
    }
    for hidden in &findings.hidden {
        let said = hidden_text(alloc, text, hidden)?;
        report.find(alloc, hidden.place, &said)?;
    }
    Ok(())
}

/// Adds places of which the same is said.
fn add_all(
    alloc: Global,
    places: &[u32],
    said: &[u8],
    report: &mut Report,
) -> Result<(), AllocError> {
    for place in places {
        report.find(alloc, *place, said)?;
    }
    Ok(())
}

/// Adds what means something else in other languages.
fn add_habits(alloc: Global, habits: &[Found], report: &mut Report) -> Result<(), AllocError> {
    for found in habits {
        let said = habit_text(alloc, found.habit)?;
        report.find(alloc, found.place, &said)?;
    }
    Ok(())
}

/// The report of what was found in a text.
fn report_of(alloc: Global, text: &str, findings: &Findings) -> Result<Report, AllocError> {
    let mut report = Report::new(alloc);
    let empty = b"this rule can match the empty text, which is never a segment";
    add_idle(alloc, text, findings, &mut report)?;
    add_all(
        alloc,
        findings.unused.as_slice(),
        b"no rule uses this variable",
        &mut report,
    )?;
    add_all(alloc, findings.empty.as_slice(), empty, &mut report)?;
    add_all(alloc, findings.late.as_slice(), LATE_CUT, &mut report)?;
    add_endings(alloc, text, findings, &mut report)?;
    add_habits(alloc, findings.habits.as_slice(), &mut report)?;
    report.remarks.sort_by_key(|remark| remark.place)?;
    Ok(report)
}

/// The first and the last place of a line, from 1.
fn places_in(text: &str, line: u32) -> (u32, u32) {
    let mut row = 1u32;
    let mut place = 0u32;
    let mut first = u32::MAX;
    let mut last = 0;
    for c in text.chars() {
        if row == line {
            first = first.min(place);
            last = place;
        }
        if c == '\n' {
            row = row.saturating_add(1);
        }
        place = place.saturating_add(1);
    }
    (first, last)
}

/// What is said of a rule that is left out with this effect.
fn effect_text(alloc: Global, effect: &Effect) -> Result<Vec<u8>, AllocError> {
    let mut out = Vec::new(alloc);
    match effect {
        Effect::Nothing => append(idle_text(Part::Rule).as_bytes(), &mut out)?,
        Effect::Marks(word) => {
            append(
                b"this rule is needed: without it other rules end after \"",
                &mut out,
            )?;
            for c in word.as_str().chars() {
                append_character(c, Within::Quotes, &mut out)?;
            }
            append(b"\", or with other statuses", &mut out)?;
        }
        Effect::Fault(error) => {
            append(
                b"this rule is needed: without it the file has the fault ",
                &mut out,
            )?;
            append(error.label().as_bytes(), &mut out)?;
        }
    }
    Ok(out)
}

/// The report of why the rules in a line are needed.
fn reasons_of(
    alloc: Global,
    text: &str,
    pieces: &[Piece],
    line: u32,
    table: &Table,
    props: &PropTable,
    ignored: bool,
) -> Result<Report, AllocError>
    requires { length text.now ≤ most_bytes }
{
    let mut report = Report::new(alloc);
    let (first, last) = places_in(text, line);
    for piece in pieces {
        if piece.part == Part::Rule && piece.from <= last && first <= piece.to {
            let effect = effect_of(alloc, text, table, *piece, props, ignored)?;
            let said = effect_text(alloc, &effect)?;
            let had_findings = report.has_findings;
            report.find(alloc, piece.from, &said)?;
            report.has_findings = had_findings || matches!(&effect, Effect::Nothing);
        }
    }
    Ok(report)
}

/// The lines of a report, each with the line of its place and a caret below it.
fn lines_of(alloc: Global, source: &Source<'_>, report: &Report) -> Result<Vec<u8>, AllocError> {
    let mut out = Vec::new(alloc);
    for remark in &report.remarks {
        let position = position_of(source.text, remark.place);
        append_position(source.name, &position, &mut out)?;
        append(b": ", &mut out)?;
        append(&remark.text, &mut out)?;
        append_shown(&position, source.colors, &mut out)?;
        append(b"\n", &mut out)?;
    }
    Ok(out)
}

/// The failure that no active rule stands in a line.
fn no_rule(alloc: Global) -> Failure {
    match b"segment: no active rule stands in the line of --why\n".to_vec(alloc) {
        Ok(message) => Failure::Told(Status::IsRefused, message),
        Err(_) => Failure::Memory,
    }
}

/// The report of what is found in rules.
fn found_in(
    alloc: Global,
    text: &str,
    rules: &Rules,
    table: &Table,
    props: &PropTable,
    ignored: bool,
) -> Result<Report, AllocError>
    requires { length text.now ≤ most_bytes }
{
    let findings = lint(alloc, text, rules, table, props, ignored)?;
    report_of(alloc, text, &findings)
}

/// The report of why the rules in a line are needed.
fn needed_in(
    alloc: Global,
    text: &str,
    line: u32,
    rules: &Rules,
    table: &Table,
    props: &PropTable,
    ignored: bool,
) -> Result<Report, AllocError>
    requires { length text.now ≤ most_bytes }
{
    let tried = pieces(alloc, text, rules)?;
    reasons_of(alloc, text, tried.as_slice(), line, table, props, ignored)
}

/// The report that is asked for.
fn report_asked_for(
    alloc: Global,
    text: &str,
    why: Option<u32>,
    rules: &Rules,
    table: &Table,
    props: &PropTable,
    ignored: bool,
) -> Result<Report, AllocError>
    requires { length text.now ≤ most_bytes }
{
    match why {
        None => found_in(alloc, text, rules, table, props, ignored),
        Some(line) => needed_in(alloc, text, line, rules, table, props, ignored),
    }
}

/// The report that is asked for of the text of a rule file that has this table.
fn report_on(
    alloc: Global,
    text: &str,
    why: Option<u32>,
    table: &Table,
    props: &PropTable,
    ignored: bool,
) -> Result<Report, AllocError>
    requires { length text.now ≤ most_bytes }
{
    match read_rules(alloc, text, props, ignored) {
        Ok(rules) => report_asked_for(alloc, text, why, &rules, table, props, ignored),
        Err(_) => Err(AllocError),
    }
}

/// Prints a report, and answers 0. If something was found, the run ends with `HasFindings`.
fn put_report<K: Sink>(
    alloc: Global,
    source: &Source<'_>,
    report: &Report,
    out: &mut K,
) -> Result<u32, Failure> {
    let lines = lines_of(alloc, source, report)?;
    put_all(out, &lines)?;
    if report.has_findings {
        return Err(Failure::Told(Status::HasFindings, Vec::new(alloc)));
    }
    Ok(0)
}

/// Prints what is asked for of the text of a rule file that has this table.
fn lint_text<K: Sink>(
    alloc: Global,
    request: &Request<'_>,
    source: &Source<'_>,
    why: Option<u32>,
    table: &Table,
    props: &PropTable,
    out: &mut K,
) -> Result<u32, Failure>
    requires { length source.now.text.now ≤ most_bytes }
{
    let ignored = request.ignore_dictionary;
    let report = report_on(alloc, source.text, why, table, props, ignored)?;
    if why.is_some() && report.remarks.is_empty() {
        return Err(no_rule(alloc));
    }
    put_report(alloc, source, &report, out)
}

/// Prints what is asked for of the bytes of a rule file.
fn lint_bytes<K: Sink>(
    alloc: Global,
    request: &Request<'_>,
    name: &str,
    bytes: &[u8],
    why: Option<u32>,
    surroundings: Surroundings,
    props: &mut PropTable,
    out: &mut K,
) -> Result<u32, Failure>
    requires { length bytes.now ≤ most_bytes }
{
    let faults = surroundings.fault_colors(request.color);
    let ignored = request.ignore_dictionary;
    let table = table_of_rules(alloc, name, bytes, props, ignored, faults)?;
    let Ok(text) = rule_text(bytes) else {
        return Err(Failure::Memory);
    };
    add_asked_for(alloc, text, props)?;
    let colors = surroundings.output_colors(request.color);
    let source = Source { name, text, colors };
    lint_text(alloc, request, &source, why, &table, props, out)
}

/// Prints what is asked for of the rule file of this name, over these property files.
fn lint_over<F: Files, R: Read, K: Sink, L: Ledger>(
    alloc: Global,
    request: &Request<'_>,
    name: &str,
    why: Option<u32>,
    surroundings: Surroundings,
    props: &mut PropTable,
    files: &mut F,
    input: &mut R,
    out: &mut K,
    steps: &mut Steps<L>,
) -> Result<u32, Failure> {
    let faults = surroundings.fault_colors(request.color);
    let file = read(alloc, name, RULES_LIMIT, faults, files, input)?;
    let bytes = file.bytes(steps);
    lint_bytes(alloc, request, name, bytes, why, surroundings, props, out)
}

/// Prints what is found in the rule file of this name, or why the rules in a line are needed, and
/// answers 0, the number of sequences that were replaced.
///
/// If something is found, the run ends with `HasFindings`.
pub(crate) fn lint_file<F: Files, R: Read, K: Sink, L: Ledger>(
    alloc: Global,
    request: &Request<'_>,
    name: &str,
    why: Option<u32>,
    surroundings: Surroundings,
    files: &mut F,
    input: &mut R,
    out: &mut K,
    steps: &mut Steps<L>,
) -> Result<u32, Failure> {
    let faults = surroundings.fault_colors(request.color);
    let given = request.properties.as_slice();
    let mut props = properties_of(alloc, given, faults, files, input, steps)?;
    lint_over(
        alloc,
        request,
        name,
        why,
        surroundings,
        &mut props,
        files,
        input,
        out,
        steps,
    )
}
