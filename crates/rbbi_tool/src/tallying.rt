//! What `tally` tells, as it is written.
ghost use Rattle.std.specs.Prelude.{◌≡◌, map, OnOk};
ghost use Rattle.std.specs.List.{flat_map};
ghost use Rattle.rbbi_text.specs.Appending.{Appends};
ghost use Rattle.rbbi_text.specs.Steps.{RisesUpTo};
ghost use Rattle.rbbi_script.specs.Meaning.{meaning};
ghost use Rattle.rbbi_tally.specs.Tallies.{boundaries_of};
ghost use Rattle.rbbi_tool.specs.Command.Tally.{count_line, text_after};
ghost use Rattle.rbbi_tool.specs.Steps.{counting_cost, tally_cost};
ghost use Rattle.rbbi_tool.specs.inner.Puts.{Puts};
ghost use Rattle.rbbi_tool.specs.inner.Tallying.{lines_of, command_lines, tally_lines};

use rbbi_io::{Sink, WriteErr, put_all, put_when_full};
use rbbi_script::{Command, Commands, Said, say};
use rbbi_table::Table;
use rbbi_tally::{Tally, ValueCount};
use rbbi_text::{Chars, EditErr, Pieces, Steps, append, append_number};
use std::alloc::{AllocError, Global};
use std::sync::ledger::Ledger;

/// Appends the line of a value and its count, or a prefix of it where memory runs out.
fn say_count(pair: ValueCount, made: &mut Vec<u8>) -> Result<(), AllocError>
    ensures { Appends made.old.items (count_line pair) result made.new.items }
{
    append_number(pair.value, made)?;
    append(b" ", made)?;
    append_number(pair.count, made)?;
    append(b"\n", made)
}

/// Appends the lines of values and their counts, or a prefix of these where memory runs out.
fn say_each(counts: &[ValueCount], made: &mut Vec<u8>) -> Result<(), AllocError>
    ensures { Appends made.old.items (flat_map count_line counts.now) result made.new.items }
{
    for pair in counts {
        say_count(*pair, made)?;
    }
    Ok(())
}

/// Appends the lines of a text's counts, or a prefix of these where memory runs out.
fn say_counts(
    alloc: Global,
    tally: &Tally<'_, Pieces>,
    made: &mut Vec<u8>,
) -> Result<(), AllocError>
    ensures { Appends made.old.items (lines_of (boundaries_of tally.now)) result made.new.items }
{
    append(b"segments ", made)?;
    append_number(tally.segments(), made)?;
    append(b"\n", made)?;
    let counts = tally.each(alloc)?;
    say_each(&counts, made)
}

/// Performs a command on the counts if it is an edit, and appends its reply and, where it is
/// accepted, the counts after it; of other commands, nothing. Where memory runs out, a prefix of
/// that is appended.
fn tell<L: Ledger>(
    alloc: Global,
    tally: &mut Tally<'_, Pieces>,
    command: &Command,
    made: &mut Vec<u8>,
    steps: &mut Steps<L>,
) -> Result<(), AllocError>
    ensures told { Appends made.old.items
        (command_lines tally.old.table tally.old.text (meaning command.now))
        result made.new.items }
    ensures table { tally.new.table ≡ tally.old.table }
    ensures text { OnOk result
        (tally.new.text ≡ text_after tally.old.text (meaning command.now)) }
    ensures cost { RisesUpTo
        (counting_cost tally.old.table tally.old.text (meaning command.now))
        steps.old steps.new }
{
    let Command::Replace { at, remove, text } = command else {
        return Ok(());
    };
    match tally.replace(*at, *remove, text.as_str(), steps) {
        Ok(()) => {
            say(Said::Edited(tally.text().len()), made)?;
            say_counts(alloc, tally, made)
        }
        Err(EditErr::Outside) => say(Said::Outside, made),
        Err(EditErr::TooLong) => say(Said::TooLong, made),
        Err(EditErr::Memory) => Err(AllocError),
    }
}

/// Writes the counts of a text by a table, and what is reported of commands, in pieces.
pub(crate) fn put_tally<K: Sink, L: Ledger>(
    alloc: Global,
    table: &Table,
    text: Pieces,
    commands: &Commands,
    out: &mut K,
    steps: &mut Steps<L>,
) -> Result<(), WriteErr>
    ensures { Puts (tally_lines table.now text (map meaning commands.now))
        (tally_cost table.now text (map meaning commands.now)) result
        (K.taken out.old) (K.taken out.new) (K.faults out.old) (K.faults out.new)
        steps.old steps.new }
{
    let mut tally = Tally::open(alloc, table, text, steps)?;
    let mut made = Vec::new(alloc);
    say_counts(alloc, &tally, &mut made)?;
    for i in 0..commands.len() {
        tell(alloc, &mut tally, commands.get(i), &mut made, steps)?;
        put_when_full(out, &mut made)?;
    }
    put_all(out, &made)?;
    Ok(())
}
