//! The segments of the texts that are named, in the format that is asked for.
ghost use Rattle.std.specs.Prelude.{◌≡◌, ◌++◌, ℕ, List, [], Option, IfSome, OnOk, chars, codes};
ghost use Rattle.rbbi_io.specs.Sinks.{Takes};
ghost use Rattle.rbbi_model.specs.Boundaries.{Boundary};
ghost use Rattle.rbbi_model.specs.Words.{IsText};
ghost use Rattle.rbbi_segment.specs.Contents.{IsTextGiven};
ghost use Rattle.rbbi_segment.specs.Headings.{arrows, gap, heading};
ghost use Rattle.rbbi_segment.specs.Lines.{lines, lines_in};
ghost use Rattle.rbbi_segment.specs.Runs.{AreTakenInTurn, Manner, TakesHeaded, TakesText};
ghost use Rattle.rbbi_segment.specs.Runs.{colors_of, heading_of, printed};
ghost use Rattle.rbbi_segment.specs.Segments.{segments};
ghost use Rattle.rbbi_segment.specs.Tables.{GivesBreaks};

use crate::colors::{Colors, Surroundings};
use crate::escapes::{Within, append_characters, append_name};
use crate::failure::Failure;
use crate::filters::searches_texts;
use crate::marked::Marked;
use crate::options::{Format, Layout, Request};
use crate::quoted::{Quoted, Style};
use crate::streaming::{Origin, hand_over};
use crate::system::System;
use crate::tally::Tally;
use crate::wrapped::Wrapped;
use rbbi_filter::Filter;
use rbbi_io::{Sink, put_all};
use rbbi_table::Table;
use rbbi_text::{Steps, Unit, append};
use std::alloc::{AllocError, Global};
use std::io::Read;
use std::sync::ledger::Ledger;

/// By what texts are segmented.
#[derive(Drop)]
pub(crate) struct Means {
    pub(crate) table: Table,
    pub(crate) filter: Option<Filter>,
}

/// Prints by itself each segment of a text by a table that is asked for, with offsets in the unit.
/// It answers how many sequences of its bytes were replaced.
fn put_lines<R: Read, K: Sink, L: Ledger>(
    origin: Origin<'_>,
    style: Style,
    means: &Means,
    reader: &mut R,
    unit: Unit,
    out: &mut K,
    steps: &mut Steps<L>,
) -> Result<u32, Failure>
    ensures { OnOk result ((x : List ℕ) × IsTextGiven origin.entry.is_lossy
        (R.remaining reader.old) x (R.remaining reader.new) × IsText x
        × Takes (K.taken out.old) (K.taken out.new)
        (lines style x (segments unit means.now.filter means.now.table x))) }
{
    let made = Vec::new(origin.alloc);
    let mut receiver = Quoted { style, made };
    hand_over(
        origin,
        &means.table,
        &means.filter,
        reader,
        unit,
        &mut receiver,
        out,
        steps,
    )
}

/// Prints the segments of a text by a table and a filter, in the format that is asked for. It
/// answers how many sequences of its bytes were replaced.
fn put_segments<R: Read, K: Sink, L: Ledger>(
    origin: Origin<'_>,
    request: &Request<'_>,
    means: &Means,
    reader: &mut R,
    colors: Colors,
    out: &mut K,
    steps: &mut Steps<L>,
) -> Result<u32, Failure>
    ensures { OnOk result ((x : List ℕ) × IsTextGiven origin.entry.is_lossy
        (R.remaining reader.old) x (R.remaining reader.new) × IsText x
        × IfSome (lines_in request.now.format request.now.wanted colors
        x (segments request.now.unit means.now.filter means.now.table x))
        (Takes (K.taken out.old) (K.taken out.new))) }
{
    let alloc = origin.alloc;
    let Means { table, filter } = means;
    let unit = request.unit;
    let chars = Unit::Chars;
    let wanted = request.wanted;
    match request.format {
        Format::Each(layout) => {
            let style = Style {
                layout,
                wanted,
                colors,
            };
            put_lines(origin, style, means, reader, unit, out, steps)
        }
        Format::Marked(mark) => {
            let mut receiver = Marked {
                mark,
                wanted,
                colors,
                was_asked_for: false,
                made: Vec::new(alloc),
            };
            hand_over(
                origin,
                table,
                filter,
                reader,
                chars,
                &mut receiver,
                out,
                steps,
            )
        }
        Format::Lines(width) => {
            let mut receiver = Wrapped::new(alloc, width);
            hand_over(
                origin,
                table,
                filter,
                reader,
                chars,
                &mut receiver,
                out,
                steps,
            )
        }
        Format::Count => {
            let mut receiver = Tally::new(alloc, wanted);
            hand_over(
                origin,
                table,
                filter,
                reader,
                chars,
                &mut receiver,
                out,
                steps,
            )
        }
    }
}

/// Prints the segments of the text that a reader gives. It answers how many sequences of its bytes
/// were replaced.
fn put_text<R: Read, K: Sink, L: Ledger>(
    origin: Origin<'_>,
    request: &Request<'_>,
    means: &Means,
    reader: &mut R,
    colors: Colors,
    out: &mut K,
    steps: &mut Steps<L>,
) -> Result<u32, Failure>
    ensures { (breaks : List ℕ → List Boundary) → GivesBreaks means.now.table breaks
        → let manner : Manner = record
        { breaks = breaks; filter = means.now.filter; colors = colors } in
        OnOk result ((x : List ℕ) × IsTextGiven origin.entry.is_lossy
        (R.remaining reader.old) x (R.remaining reader.new)
        × IfSome (printed request.now manner x) (Takes (K.taken out.old) (K.taken out.new))) }
{
    searches_texts(&means.filter);
    put_segments(origin, request, means, reader, colors, out, steps)
}

/// Appends a name between arrows.
fn append_arrows(name: &str, made: &mut Vec<u8>) -> Result<(), AllocError>
    ensures { OnOk result (made.new.items ≡ made.old.items ++ arrows name.now) }
{
    append(b"==> ", made)?;
    append_name(name, made)?;
    append(b" <==", made)
}

/// Appends a name between arrows in a line, after an empty line if it isn't the first.
fn append_line(is_first: bool, name: &str, made: &mut Vec<u8>) -> Result<(), AllocError>
    ensures { OnOk result (made.new.items ≡ made.old.items
        ++ (gap is_first ++ (arrows name.now ++ codes "\n"))) }
{
    if !is_first {
        append(b"\n", made)?;
    }
    append_arrows(name, made)?;
    append(b"\n", made)
}

/// Appends what heads the segments of a text: its name, after an empty line if it isn't the first.
/// In JSON it is an object, and with NUL at the ends of segments it ends so too, and no line is
/// empty.
fn append_heading(
    format: Format<'_>,
    is_first: bool,
    name: &str,
    made: &mut Vec<u8>,
) -> Result<(), AllocError>
    ensures { OnOk result (made.new.items ≡ made.old.items
        ++ heading format.entry is_first name.now) }
{
    match format {
        Format::Each(Layout::Json) => {
            append(b"{\"file\":\"", made)?;
            append_characters(name, Within::Json, made)?;
            append(b"\"}\n", made)
        }
        Format::Each(Layout::Null) => {
            append_arrows(name, made)?;
            append(b"\0", made)
        }
        Format::Each(Layout::Text | Layout::Plain)
        | Format::Marked(_)
        | Format::Lines(_)
        | Format::Count => append_line(is_first, name, made),
    }
}

/// Prints the heading of a text, if that is asked for.
fn put_heading<K: Sink>(
    alloc: Global,
    request: &Request<'_>,
    is_first: bool,
    name: &str,
    out: &mut K,
) -> Result<(), Failure>
    ensures { OnOk result (Takes (K.taken out.old) (K.taken out.new)
        (heading_of request.now is_first name.now)) }
{
    if !request.has_headings {
        return Ok(());
    }
    let mut made = Vec::new(alloc);
    append_heading(request.format, is_first, name, &mut made)?;
    put_all(out, &made)?;
    Ok(())
}

/// Prints the segments of the text that a reader gives, after its heading. It answers how many
/// sequences of its bytes were replaced.
fn put_headed<R: Read, K: Sink, L: Ledger>(
    origin: Origin<'_>,
    request: &Request<'_>,
    is_first: bool,
    means: &Means,
    reader: &mut R,
    colors: Colors,
    out: &mut K,
    steps: &mut Steps<L>,
) -> Result<u32, Failure>
    ensures { (breaks : List ℕ → List Boundary) → GivesBreaks means.now.table breaks
        → let manner : Manner = record
        { breaks = breaks; filter = means.now.filter; colors = colors } in
        OnOk result ((x : List ℕ) × IsTextGiven origin.entry.is_lossy
        (R.remaining reader.old) x (R.remaining reader.new)
        × TakesHeaded request.now manner is_first origin.entry.name.now x
        (K.taken out.old) (K.taken out.new)) }
{
    put_heading(origin.alloc, request, is_first, origin.name, out)?;
    put_text(origin, request, means, reader, colors, out, steps)
}

/// Prints the segments of the text with this name, or of the standard input if it is `-`, after its
/// heading. It answers how many sequences of its bytes were replaced. Nothing is printed of a text
/// that can't be opened.
fn put_named<S: System, R: Read, K: Sink, L: Ledger>(
    origin: Origin<'_>,
    request: &Request<'_>,
    is_first: bool,
    means: &Means,
    system: &S,
    input: &mut R,
    colors: Colors,
    out: &mut K,
    steps: &mut Steps<L>,
) -> Result<u32, Failure>
    requires { origin.is_lossy ≡ request.now.is_lossy }
    ensures { (breaks : List ℕ → List Boundary) → GivesBreaks means.now.table breaks
        → let manner : Manner = record
        { breaks = breaks; filter = means.now.filter; colors = colors } in
        OnOk result (TakesText request.now manner (S.contents system.now) is_first
        origin.entry.name.now
        (record { taken = K.taken out.old; left = R.remaining input.old })
        (record { taken = K.taken out.new; left = R.remaining input.new })) }
{
    if origin.name == "-" {
        return put_headed(origin, request, is_first, means, input, colors, out, steps);
    }
    match system.open(origin.name) {
        Ok(mut reader) => put_headed(
            origin,
            request,
            is_first,
            means,
            &mut reader,
            colors,
            out,
            steps,
        ),
        Err(fault) => Err(origin.unread(Some(fault))),
    }
}

/// Prints the segments of the texts that are named, one text after the other, each with its heading
/// if that is asked for. Appends of each how many sequences of its bytes were replaced.
fn put_each<S: System, R: Read, K: Sink, L: Ledger>(
    origin: Origin<'_>,
    request: &Request<'_>,
    means: &Means,
    system: &S,
    input: &mut R,
    colors: Colors,
    out: &mut K,
    replaced: &mut Vec<u32>,
    steps: &mut Steps<L>,
) -> Result<(), Failure>
    requires lossy { origin.is_lossy ≡ request.now.is_lossy }
    requires none { replaced.old.items ≡ [] }
    ensures { (breaks : List ℕ → List Boundary) → GivesBreaks means.now.table breaks
        → let manner : Manner = record
        { breaks = breaks; filter = means.now.filter; colors = colors } in
        OnOk result (AreTakenInTurn (TakesText request.now manner (S.contents system.now))
        (record { taken = K.taken out.old; left = R.remaining input.old })
        request.now.names.items
        (record { taken = K.taken out.new; left = R.remaining input.new })) }
{
    for name in &request.names {
        let is_first = replaced.is_empty();
        let origin = Origin { name, ..origin };
        let count = put_named(
            origin, request, is_first, means, system, input, colors, out, steps,
        )?;
        replaced.push(count)?;
    }
    Ok(())
}

/// Prints the segments of the texts that are named, one text after the other, each with its heading
/// if that is asked for. It answers of each how many sequences of its bytes were replaced.
pub(crate) fn put_texts<S: System, R: Read, K: Sink, L: Ledger>(
    alloc: Global,
    request: &Request<'_>,
    surroundings: Surroundings,
    means: &Means,
    system: &S,
    input: &mut R,
    out: &mut K,
    steps: &mut Steps<L>,
) -> Result<Vec<u32>, Failure>
    ensures { (breaks : List ℕ → List Boundary) → GivesBreaks means.now.table breaks
        → let manner : Manner = record {
          breaks = breaks;
          filter = means.now.filter;
          colors = colors_of request.now surroundings;
        } in
        OnOk result (AreTakenInTurn (TakesText request.now manner (S.contents system.now))
        (record { taken = K.taken out.old; left = R.remaining input.old })
        request.now.names.items
        (record { taken = K.taken out.new; left = R.remaining input.new })) }
{
    let origin = Origin {
        alloc,
        name: "-",
        colors: surroundings.fault_colors(request.color),
        sizes: surroundings.sizes,
        is_lossy: request.is_lossy,
    };
    let colors = surroundings.output_colors(request.color);
    let mut replaced = Vec::new(alloc);
    put_each(
        origin,
        request,
        means,
        system,
        input,
        colors,
        out,
        &mut replaced,
        steps,
    )?;
    Ok(replaced)
}
