//! Which rules make the segments of a text, and why there is a boundary at a place, or none.
ghost use Rattle.std.specs.Prelude.{◌≡◌, ◌<◌, ◌≤◌, length};
ghost use Rattle.rbbi_text.specs.Bytes.{most_bytes};
ghost use Rattle.rbbi_model.specs.Rules.{AreLawful};
ghost use Rattle.rbbi_resolve.specs.RuleLists.{rules_of};

use crate::basis::properties_of;
use crate::colors::{Colors, Surroundings};
use crate::escapes::append_name;
use crate::failure::{Failure, Status};
use crate::options::{Asked, Basis, Layout, Request};
use crate::quoted::{Style, put_characters, put_line, put_waiting};
use crate::reading::{RULES_LIMIT, read, read_text};
use crate::rules::table_of_rules;
use crate::segments::{Extent, Progress, Receive, Segment, Span, hand_window};
use rbbi_builtin::add_asked_for;
use rbbi_compile::{read_rules, rule_text};
use rbbi_explain::{Explainer, Explanation, Origin, Part, Reason, RuleText, rule_texts};
use rbbi_io::{Files, Sink, WriteErr, put_all, put_when_full};
use rbbi_props::PropTable;
use rbbi_resolve::Rules;
use rbbi_segment_tables::{Kind, built_in};
use rbbi_table::{FrontPlaces, Table};
use rbbi_text::{Chars, MOST_BYTES, PlainText, Steps, Unit, append, append_number};
use std::alloc::{AllocError, Global};
use std::io::Read;
use std::sync::ledger::Ledger;

const NO_RULES: &[u8] = b"error: --explain goes with --by or --rules: a table file doesn't have \
    the rules that it was made of\n";

/// The rules of a file.
#[derive(Drop)]
struct Known<'a> {
    /// The name of the file.
    name: &'a str,
    explainer: Explainer,
    texts: Vec<RuleText>,
}

/// Explains the segments that are asked for.
#[derive(Drop)]
struct Explaining<'a> {
    alloc: Global,
    known: Known<'a>,
    asked: Asked,
    style: Style,
    unit: Unit,
    /// Whether the segment was met that ends at the place that is asked for, or has it inside.
    is_met: bool,
    /// The bytes that wait.
    made: Vec<u8>,
}

/// The table of a rule file, and what explains its segments.
#[derive(Drop)]
struct Ruled<'a> {
    table: Table,
    receiver: Explaining<'a>,
}

/// What is known of rules of this text.
fn known_by<'a>(
    alloc: Global,
    name: &'a str,
    text: &str,
    rules: &Rules,
) -> Result<Known<'a>, Failure>
    requires short { length text.now ≤ most_bytes }
    requires lawful { AreLawful (rules_of rules.now) }
{
    let Ok(explainer) = Explainer::new(alloc, rules) else {
        return Err(Failure::Memory);
    };
    let texts = rule_texts(alloc, text, rules)?;
    Ok(Known {
        name,
        explainer,
        texts,
    })
}

/// What is known of the rules of a text that has a table, so that it has no fault, and no more than
/// 1,000 categories.
fn known_of<'a>(
    alloc: Global,
    name: &'a str,
    text: &str,
    properties: &mut PropTable,
    ignore_dictionary: bool,
) -> Result<Known<'a>, Failure>
    requires { length text.now ≤ most_bytes }
{
    add_asked_for(alloc, text, properties)?;
    match read_rules(alloc, text, properties, ignore_dictionary) {
        Ok(rules) => known_by(alloc, name, text, &rules),
        Err(_) => Err(Failure::Memory),
    }
}

/// The same of the bytes of a file that has a table.
fn known_in<'a>(
    alloc: Global,
    name: &'a str,
    bytes: &[u8],
    properties: &mut PropTable,
    ignore_dictionary: bool,
) -> Result<Known<'a>, Failure>
    requires { length bytes.now ≤ most_bytes }
{
    match rule_text(bytes) {
        Ok(text) => known_of(alloc, name, text, properties, ignore_dictionary),
        Err(_) => Err(Failure::Memory),
    }
}

/// What explains by what is known of rules.
fn receiver_of<'a>(
    alloc: Global,
    request: &Request<'_>,
    asked: Asked,
    colors: Colors,
    known: Known<'a>,
) -> Explaining<'a> {
    Explaining {
        alloc,
        known,
        asked,
        style: Style {
            layout: Layout::Text,
            wanted: request.wanted,
            colors,
        },
        unit: request.unit,
        is_met: false,
        made: Vec::new(alloc),
    }
}

/// The table of the bytes of a rule file, and what explains its segments.
fn ruled_by<'a>(
    alloc: Global,
    name: &'a str,
    bytes: &[u8],
    request: &Request<'_>,
    asked: Asked,
    surroundings: Surroundings,
    properties: &mut PropTable,
) -> Result<Ruled<'a>, Failure>
    requires { length bytes.now ≤ most_bytes }
{
    let faults = surroundings.fault_colors(request.color);
    let colors = surroundings.output_colors(request.color);
    let ignored = request.ignore_dictionary;
    let table = table_of_rules(alloc, name, bytes, properties, ignored, faults)?;
    let known = known_in(alloc, name, bytes, properties, ignored)?;
    Ok(Ruled {
        table,
        receiver: receiver_of(alloc, request, asked, colors, known),
    })
}

/// The name and the text of the rules that a built-in table is made of.
fn annex_rules(kind: Kind) -> (&'static str, &'static str) {
    match kind {
        Kind::Grapheme => ("grapheme.rules", rbbi_annex_rules::graphemes()),
        Kind::Word => ("word.rules", rbbi_annex_rules::words()),
        Kind::Sentence => ("sentence.rules", rbbi_annex_rules::sentences()),
        Kind::Line | Kind::LineStrict => ("line.rules", rbbi_annex_rules::lines()),
        Kind::LineNormal => ("line-normal.rules", rbbi_annex_rules::lines_normal()),
        Kind::LineLoose => ("line-loose.rules", rbbi_annex_rules::lines_loose()),
        Kind::LineCj => ("line-cj.rules", rbbi_annex_rules::lines_cj()),
        Kind::LineNormalCj => ("line-normal-cj.rules", rbbi_annex_rules::lines_normal_cj()),
        Kind::LineLooseCj => ("line-loose-cj.rules", rbbi_annex_rules::lines_loose_cj()),
    }
}

/// What is known of the rules that a built-in table is made of.
fn known_of_annex(alloc: Global, kind: Kind) -> Result<Known<'static>, Failure> {
    let (name, text) = annex_rules(kind);
    if text.len() > MOST_BYTES {
        return Err(Failure::Memory);
    }
    let mut properties = PropTable::new(alloc);
    known_of(alloc, name, text, &mut properties, false)
}

/// A built-in table, and what explains its segments.
fn ruled_by_annex<'a>(
    alloc: Global,
    kind: Kind,
    request: &Request<'_>,
    asked: Asked,
    surroundings: Surroundings,
) -> Result<Ruled<'a>, Failure> {
    let colors = surroundings.output_colors(request.color);
    let table = built_in(alloc, kind)?;
    let known = known_of_annex(alloc, kind)?;
    Ok(Ruled {
        table,
        receiver: receiver_of(alloc, request, asked, colors, known),
    })
}

/// The same for the rule file of this name, over these property files.
fn read_over<'a, F: Files, R: Read, L: Ledger>(
    alloc: Global,
    name: &'a str,
    request: &Request<'_>,
    asked: Asked,
    surroundings: Surroundings,
    properties: &mut PropTable,
    files: &mut F,
    input: &mut R,
    steps: &mut Steps<L>,
) -> Result<Ruled<'a>, Failure> {
    let faults = surroundings.fault_colors(request.color);
    let raw = read(alloc, name, RULES_LIMIT, faults, files, input)?;
    let bytes = raw.bytes(steps);
    ruled_by(alloc, name, bytes, request, asked, surroundings, properties)
}

/// The same over the property files that are asked for.
fn read_ruled<'a, F: Files, R: Read, L: Ledger>(
    alloc: Global,
    name: &'a str,
    request: &Request<'_>,
    asked: Asked,
    surroundings: Surroundings,
    files: &mut F,
    input: &mut R,
    steps: &mut Steps<L>,
) -> Result<Ruled<'a>, Failure> {
    let faults = surroundings.fault_colors(request.color);
    let given = request.properties.as_slice();
    let mut properties = properties_of(alloc, given, faults, files, input, steps)?;
    read_over(
        alloc,
        name,
        request,
        asked,
        surroundings,
        &mut properties,
        files,
        input,
        steps,
    )
}

/// A segment or a part of one in a text that is held whole.
#[derive(Clone, Copy)]
struct Piece {
    start: u32,
    end: u32,
    start_offset: u32,
    end_offset: u32,
    status: u32,
}

impl Piece {
    /// The piece that is this segment.
    fn of(span: Span, segment: Segment) -> Piece {
        Piece {
            start: span.from,
            end: span.to,
            start_offset: u32::try_from(segment.start_offset).unwrap_or(u32::MAX),
            end_offset: u32::try_from(segment.end_offset).unwrap_or(u32::MAX),
            status: segment.status,
        }
    }

    /// Where it stands.
    fn span(&self) -> Span
        ensures { result ≡ record { from = self.now.start; to = self.now.end } }
    {
        Span {
            from: self.start,
            to: self.end,
        }
    }
}

/// How much of the unit the characters between two places take; 0 if they aren't in order within
/// the text.
fn units(text: &PlainText, unit: Unit, from: u32, to: u32) -> u32 {
    if from <= to && to <= text.len() {
        text.units_between(unit, from, to)
    } else {
        0
    }
}

/// Whether a place of the unit lies between two characters of a segment.
fn is_between_characters(text: &PlainText, unit: Unit, segment: Piece, place: u32) -> bool {
    let mut offset = segment.start_offset;
    for at in segment.start..segment.end {
        if offset >= place {
            break;
        }
        offset = offset.saturating_add(units(text, unit, at, at + 1));
    }
    offset == place
}

/// The status that the origins come to.
fn status_of(origins: &[Origin]) -> u32 {
    match origins.first() {
        Some(origin) => origin.status,
        None => 0,
    }
}

impl Known<'_> {
    /// Appends the file and the line of a rule.
    fn append_place(&self, rule: u32, made: &mut Vec<u8>) -> Result<(), AllocError> {
        append_name(self.name, made)?;
        if let Some(found) = self.texts.get(rule as usize) {
            append(b":", made)?;
            append_number(found.line, made)?;
            if !found.note.is_empty() {
                append(b" (", made)?;
                append_name(found.note.as_str(), made)?;
                append(b")", made)?;
            }
        }
        Ok(())
    }

    /// Appends the text of a rule.
    fn append_text(&self, rule: u32, made: &mut Vec<u8>) -> Result<(), AllocError> {
        append(b": ", made)?;
        if let Some(found) = self.texts.get(rule as usize) {
            append_name(found.text.as_str(), made)?;
        }
        Ok(())
    }
}

impl Explaining<'_> {
    /// Whether something is to be said of a segment.
    fn is_asked_for<L: Ledger>(
        &self,
        text: &PlainText,
        span: Span,
        segment: Piece,
        steps: &mut Steps<L>,
    ) -> bool
        requires some { span.from < span.to }
        requires within { span.to ≤ length text.now }
    {
        match self.asked {
            Asked::All => self.style.wanted.has(text, span, segment.status, steps),
            Asked::At(place) => segment.start_offset < place && place <= segment.end_offset,
        }
    }

    /// Appends why there is a boundary at the place that is asked for, or that there is none.
    fn append_answer(
        &mut self,
        place: u32,
        text: &PlainText,
        segment: Piece,
        reason: Reason,
    ) -> Result<(), AllocError> {
        let made = &mut self.made;
        append_number(place, made)?;
        if place != segment.end_offset {
            append(b" is no boundary: it is inside of the segment from ", made)?;
            append_number(segment.start_offset, made)?;
            append(b" to ", made)?;
            append_number(segment.end_offset, made)?;
            if !is_between_characters(text, self.unit, segment, place) {
                append(b", and of a character", made)?;
            }
            return append(b"\n", made);
        }
        append(b" is a boundary: ", made)?;
        match reason {
            Reason::LongestMatch => append(b"the longest match from ", made)?,
            Reason::Cut { .. } => append(b"a look-ahead rule cuts the match from ", made)?,
            Reason::OneCharacter => append(b"no rule matches from ", made)?,
        }
        append_number(segment.start_offset, made)?;
        match reason {
            Reason::LongestMatch => append(b" ends there\n", made),
            Reason::Cut { .. } => append(b" there\n", made),
            Reason::OneCharacter => append(b" on\n", made),
        }
    }

    /// Whether a part is to be shown: with a place, only those that have it inside, unless it is
    /// the end of the segment.
    fn shows(&self, segment: Piece, part: Piece) -> bool {
        match self.asked {
            Asked::At(place) if place != segment.end_offset => {
                part.start_offset < place && place < part.end_offset
            }
            _ => true,
        }
    }

    /// Prints the line of a part, whose characters a rule took.
    fn put_part<K: Sink, L: Ledger>(
        &mut self,
        text: &PlainText,
        part: Piece,
        rule: u32,
        out: &mut K,
        steps: &mut Steps<L>,
    ) -> Result<(), WriteErr>
        requires some { part.start < part.end }
        requires within { part.end ≤ length text.now }
    {
        append(b"  ", &mut self.made)?;
        append_number(part.start_offset, &mut self.made)?;
        append(b" ", &mut self.made)?;
        append_number(part.end_offset, &mut self.made)?;
        append(b" \"", &mut self.made)?;
        put_characters(
            self.style.layout,
            text,
            part.span(),
            out,
            &mut self.made,
            steps,
        )?;
        append(b"\" by ", &mut self.made)?;
        self.known.append_place(rule, &mut self.made)?;
        self.known.append_text(rule, &mut self.made)?;
        append(b"\n", &mut self.made)?;
        put_when_full(out, &mut self.made)
    }

    /// Prints the lines of the parts of a segment.
    fn put_parts<K: Sink, L: Ledger>(
        &mut self,
        text: &PlainText,
        segment: Piece,
        parts: &[Part],
        out: &mut K,
        steps: &mut Steps<L>,
    ) -> Result<(), WriteErr> {
        let mut at = segment.start;
        let mut offset = segment.start_offset;
        for part in parts {
            let Part { rule, start, end } = *part;
            if start >= end || end > text.len() {
                continue;
            }
            offset = offset.saturating_add(units(text, self.unit, at, start));
            at = start;
            let shown = Piece {
                start,
                end,
                start_offset: offset,
                end_offset: offset.saturating_add(units(text, self.unit, start, end)),
                status: segment.status,
            };
            if self.shows(segment, shown) {
                self.put_part(text, shown, rule, out, steps)?;
            }
        }
        Ok(())
    }

    /// Appends why the segment ends where it does, unless it is the longest match.
    fn append_reason(
        &mut self,
        text: &PlainText,
        segment: Piece,
        reason: Reason,
    ) -> Result<(), AllocError> {
        let made = &mut self.made;
        match reason {
            Reason::LongestMatch => Ok(()),
            Reason::OneCharacter => append(b"  no rule matches: one character is taken\n", made),
            Reason::Cut { rule, complete } => {
                let rest = units(text, self.unit, segment.end, complete);
                append(b"  cut at ", made)?;
                append_number(segment.end_offset, made)?;
                append(b", the last end of the front of ", made)?;
                self.known.append_place(rule, made)?;
                append(b" before it is complete at ", made)?;
                append_number(segment.end_offset.saturating_add(rest), made)?;
                append(b"\n", made)
            }
        }
    }

    /// Appends the line of a rule from which a status comes. A rule that took no part is shown.
    fn append_origin(
        &mut self,
        text: &PlainText,
        segment: Piece,
        origin: Origin,
        last: Option<u32>,
    ) -> Result<(), AllocError> {
        let made = &mut self.made;
        let before = units(text, self.unit, segment.start, origin.start);
        append(b"  status ", made)?;
        append_number(origin.status, made)?;
        append(b" by ", made)?;
        self.known.append_place(origin.rule, made)?;
        append(b", from ", made)?;
        append_number(segment.start_offset.saturating_add(before), made)?;
        if last != Some(origin.rule) {
            self.known.append_text(origin.rule, made)?;
        }
        append(b"\n", made)
    }

    /// Appends from where the statuses come.
    fn append_origins(
        &mut self,
        text: &PlainText,
        segment: Piece,
        explanation: &Explanation,
    ) -> Result<(), AllocError> {
        let last = explanation.parts.last().map(|part| part.rule);
        for origin in &explanation.origins {
            self.append_origin(text, segment, *origin, last)?;
        }
        if last.is_some() && explanation.origins.is_empty() {
            append(
                b"  status 0: no rule that ends there has a number\n",
                &mut self.made,
            )?;
        }
        let status = status_of(explanation.origins.as_slice());
        if explanation.end == segment.end && status == segment.status {
            return Ok(());
        }
        append(
            b"  internal disagreement: by the rules it ends after character ",
            &mut self.made,
        )?;
        append_number(explanation.end, &mut self.made)?;
        append(b" with the status ", &mut self.made)?;
        append_number(status, &mut self.made)?;
        append(b"\n", &mut self.made)
    }
}

impl Receive for Explaining<'_> {
    fn take<K: Sink, L: Ledger>(
        &mut self,
        text: &PlainText,
        span: Span,
        segment: Segment,
        out: &mut K,
        steps: &mut Steps<L>,
    ) -> Result<(), WriteErr> {
        let taken = segment;
        let segment = Piece::of(span, taken);
        if !self.is_asked_for(text, span, segment, steps) {
            return Ok(());
        }
        self.is_met = true;
        let explainer = &mut self.known.explainer;
        let found = explainer.explain(self.alloc, text, span.from, span.to, steps)?;
        let mut is_whole = true;
        if let Asked::At(place) = self.asked {
            self.append_answer(place, text, segment, found.reason)?;
            is_whole = place == segment.end_offset;
        }
        put_line(self.style, text, span, taken, out, &mut self.made, steps)?;
        self.put_parts(text, segment, found.parts.as_slice(), out, steps)?;
        if is_whole {
            self.append_reason(text, segment, found.reason)?;
            self.append_origins(text, segment, &found)?;
        }
        put_when_full(out, &mut self.made)
    }

    fn pause<K: Sink>(&mut self, out: &mut K) -> Result<(), WriteErr> {
        put_waiting(out, &mut self.made)
    }

    fn end<K: Sink>(&mut self, out: &mut K) -> Result<(), WriteErr> {
        put_all(out, &self.made)
    }
}

/// The failure that the text ends before a place.
fn past_the_end(alloc: Global, place: u32, end: u32) -> Failure {
    match format!(in alloc; "error: --explain {place}: the text ends at {end}\n") {
        Ok(text) => match text.as_bytes().to_vec(alloc) {
            Ok(bytes) => Failure::Told(Status::IsRefused, bytes),
            Err(_) => Failure::Memory,
        },
        Err(_) => Failure::Memory,
    }
}

/// Explains all segments of a text by a table.
fn explain_all<K: Sink, L: Ledger>(
    alloc: Global,
    table: &Table,
    text: &PlainText,
    receiver: &mut Explaining<'_>,
    out: &mut K,
    steps: &mut Steps<L>,
) -> Result<(), Failure> {
    let unit = receiver.unit;
    let mut marks = FrontPlaces::new(alloc, table)?;
    let start = Progress::START;
    let extent = Extent {
        is_whole: true,
        is_last: true,
        limit: u32::MAX,
    };
    let _progress = hand_window(
        table, &None, text, unit, extent, &mut marks, start, receiver, out, steps,
    )?;
    receiver.end(out)?;
    Ok(())
}

/// Explains a text.
fn explain_text<K: Sink, L: Ledger>(
    alloc: Global,
    ruled: &mut Ruled<'_>,
    text: &PlainText,
    out: &mut K,
    steps: &mut Steps<L>,
) -> Result<(), Failure> {
    let receiver = &mut ruled.receiver;
    explain_all(alloc, &ruled.table, text, receiver, out, steps)?;
    let Explaining {
        unit,
        asked,
        is_met,
        ..
    } = receiver;
    answer_rest(alloc, text, *unit, *asked, *is_met, out)
}

/// Explains the text that a request names. It answers how many sequences of its bytes were
/// replaced.
fn explain_named<F: Files, R: Read, K: Sink, L: Ledger>(
    alloc: Global,
    request: &Request<'_>,
    surroundings: Surroundings,
    ruled: &mut Ruled<'_>,
    files: &mut F,
    input: &mut R,
    out: &mut K,
    steps: &mut Steps<L>,
) -> Result<u32, Failure> {
    let name = *request.names.first().unwrap_or(&"-");
    let faults = surroundings.fault_colors(request.color);
    let (text, replaced) = read_text(alloc, name, request.is_lossy, faults, files, input, steps)?;
    explain_text(alloc, ruled, &text, out, steps)?;
    Ok(replaced)
}

/// The failure that this line reports.
fn told(alloc: Global, line: &[u8]) -> Failure {
    match line.to_vec(alloc) {
        Ok(line) => Failure::Told(Status::IsRefused, line),
        Err(_) => Failure::Memory,
    }
}

/// What explains by the table that a request names.
fn ruled_of<'a, F: Files, R: Read, L: Ledger>(
    alloc: Global,
    request: &Request<'a>,
    asked: Asked,
    surroundings: Surroundings,
    files: &mut F,
    input: &mut R,
    steps: &mut Steps<L>,
) -> Result<Ruled<'a>, Failure> {
    match request.basis {
        Basis::BuiltIn(kind) => ruled_by_annex(alloc, kind, request, asked, surroundings),
        Basis::Rules(name) => read_ruled(
            alloc,
            name,
            request,
            asked,
            surroundings,
            files,
            input,
            steps,
        ),
        Basis::Table(_) => Err(told(alloc, NO_RULES)),
    }
}

/// Says which rules make each segment of the text that a request names, or what
/// is at a place. It answers how many sequences of the text's bytes were replaced.
pub(crate) fn explain<F: Files, R: Read, K: Sink, L: Ledger>(
    alloc: Global,
    request: &Request<'_>,
    asked: Asked,
    surroundings: Surroundings,
    files: &mut F,
    input: &mut R,
    out: &mut K,
    steps: &mut Steps<L>,
) -> Result<u32, Failure> {
    let mut ruled = ruled_of(alloc, request, asked, surroundings, files, input, steps)?;
    explain_named(
        alloc,
        request,
        surroundings,
        &mut ruled,
        files,
        input,
        out,
        steps,
    )
}

/// Answers a place that no segment has inside or ends at: the start of the text, or none.
fn answer_rest<K: Sink>(
    alloc: Global,
    text: &PlainText,
    unit: Unit,
    asked: Asked,
    is_met: bool,
    out: &mut K,
) -> Result<(), Failure> {
    match asked {
        Asked::At(0) => {
            put_all(out, b"0 is a boundary: the text begins there\n")?;
            Ok(())
        }
        Asked::At(place) if !is_met => {
            let end = units(text, unit, 0, text.len());
            Err(past_the_end(alloc, place, end))
        }
        _ => Ok(()),
    }
}
