//! What a request comes to, as it is written.
ghost use Rattle.std.specs.Prelude.{◌≡◌, ◌≤◌, ◌⊎◌, OnSome};
ghost use Rattle.rbbi_text.specs.Steps.{RisesUpTo};
ghost use Rattle.rbbi_io.specs.Counts.{Rose, GoesOn, EachGoesOn, EachStays};
ghost use Rattle.rbbi_io.specs.Answers.{WhereTold};
ghost use Rattle.rbbi_io.specs.Sinks.{Takes, TakesFront};
ghost use Rattle.rbbi_command.specs.Delivery.{HoldsFile, FileFailed, MakesWrite, OthersUncounted};
ghost use Rattle.rbbi_command.specs.Delivery.{EachHoldsOrIsOutputFile};
ghost use Rattle.rbbi_tool.specs.inner.Prepared.{bytes_of, cost_of, outcome_of, rest_of};
ghost use Rattle.rbbi_tool.specs.declared.prepared.Lines.TheVariants.{Boundaries, Replies, Counts};
ghost use Rattle.rbbi_tool.specs.inner.Puts.{Puts};

use crate::boundaries::put_boundaries;
use crate::prepared::{BoundaryLines, CountLines, Lines, Prepared, ReplyLines};
use crate::replies::put_replies;
use crate::tallying::put_tally;
use rbbi_command::deliver;
use rbbi_io::{Files, Sink, WriteErr};
use rbbi_text::Steps;
use std::alloc::Global;
use std::sync::ledger::Ledger;

/// Makes the lines of boundaries, and writes them while they are made.
fn put_boundary_lines<K: Sink, L: Ledger>(
    alloc: Global,
    lines: &BoundaryLines,
    out: &mut K,
    steps: &mut Steps<L>,
) -> Result<(), WriteErr>
    ensures { Puts (bytes_of (Boundaries lines.now)) (cost_of (Boundaries lines.now)) result
        (K.taken out.old) (K.taken out.new) (K.faults out.old) (K.faults out.new)
        steps.old steps.new }
{
    put_boundaries(
        alloc,
        &lines.table,
        &lines.text,
        lines.unit,
        &lines.filter,
        out,
        steps,
    )
}

/// Makes the lines of replies, and writes them while they are made.
fn put_reply_lines<K: Sink, L: Ledger>(
    alloc: Global,
    lines: ReplyLines,
    out: &mut K,
    steps: &mut Steps<L>,
) -> Result<(), WriteErr>
    ensures { Puts (bytes_of (Replies lines)) (cost_of (Replies lines)) result
        (K.taken out.old) (K.taken out.new) (K.faults out.old) (K.faults out.new)
        steps.old steps.new }
{
    let ReplyLines {
        table,
        text,
        unit,
        filter,
        commands,
    } = lines;
    put_replies(alloc, &table, text, unit, &filter, &commands, out, steps)
}

/// Makes the lines of counts, and writes them while they are made.
fn put_count_lines<K: Sink, L: Ledger>(
    alloc: Global,
    lines: CountLines,
    out: &mut K,
    steps: &mut Steps<L>,
) -> Result<(), WriteErr>
    ensures { Puts (bytes_of (Counts lines)) (cost_of (Counts lines)) result
        (K.taken out.old) (K.taken out.new) (K.faults out.old) (K.faults out.new)
        steps.old steps.new }
{
    let CountLines {
        table,
        text,
        commands,
    } = lines;
    put_tally(alloc, &table, text, &commands, out, steps)
}

/// Makes lines, and writes them while they are made.
fn put_lines<K: Sink, L: Ledger>(
    alloc: Global,
    lines: Lines,
    out: &mut K,
    steps: &mut Steps<L>,
) -> Result<(), WriteErr>
    ensures { Puts (bytes_of lines)
        (cost_of lines) result
        (K.taken out.old) (K.taken out.new) (K.faults out.old) (K.faults out.new)
        steps.old steps.new }
{
    match lines {
        Lines::Boundaries(boundaries) => put_boundary_lines(alloc, &boundaries, out, steps),
        Lines::Replies(replies) => put_reply_lines(alloc, replies, out, steps),
        Lines::Counts(counts) => put_count_lines(alloc, counts, out, steps),
    }
}

/// Writes what a request comes to: its file, if it has one, and then its bytes. The result is the
/// exit status: that of the output, 7 where the write or a put failed, or 8 where memory ran out.
pub(crate) fn emit<F: Files, K: Sink, L: Ledger>(
    alloc: Global,
    prepared: Prepared,
    files: &mut F,
    out: &mut K,
    steps: &mut Steps<L>,
) -> u8
    requires { (outcome_of prepared).status ≤ 6 }
    ensures status { (result ≡ (outcome_of prepared).status) ⊎ ((result ≡ 7) ⊎ (result ≡ 8)) }
    ensures taken { result ≤ 6
        → Takes (K.taken out.old) (K.taken out.new) (outcome_of prepared).bytes }
    ensures held { result ≤ 6 → WhereTold (F.contents files.old) (F.contents files.new)
        (HoldsFile (outcome_of prepared).file) }
    ensures failed { result ≡ 7 → Rose (K.faults out.old) (K.faults out.new)
        ⊎ FileFailed (outcome_of prepared).file
        (F.failed_writes files.old) (F.failed_writes files.new) }
    ensures front { TakesFront (K.taken out.old) (K.taken out.new) (outcome_of prepared).bytes }
    ensures file_first { (K.taken out.new ≡ K.taken out.old)
        ⊎ WhereTold (F.contents files.old) (F.contents files.new)
        (HoldsFile (outcome_of prepared).file) }
    ensures contents { WhereTold (F.contents files.old) (F.contents files.new)
        (EachHoldsOrIsOutputFile (outcome_of prepared).file
        (F.failed_writes files.old) (F.failed_writes files.new)) }
    ensures call { MakesWrite F.write_gives (outcome_of prepared).file files.old files.new }
    ensures others { OnSome (F.contents files.old) (OthersUncounted (outcome_of prepared).file
        (F.failed_writes files.old) (F.failed_writes files.new)) }
    ensures reads { EachStays (F.failed_reads files.old) (F.failed_reads files.new) }
    ensures writes { EachGoesOn (F.failed_writes files.old) (F.failed_writes files.new) }
    ensures faults { GoesOn (K.faults out.old) (K.faults out.new) }
    ensures steps { RisesUpTo (rest_of prepared) steps.old steps.new }
{
    match prepared {
        Prepared::Ready(output) => deliver(&output, files, out),
        Prepared::Waiting(lines) => match put_lines(alloc, lines, out, steps) {
            Ok(()) => 0,
            Err(WriteErr::Failed) => 7,
            Err(WriteErr::Memory) => 8,
        },
    }
}
