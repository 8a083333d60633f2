//! The lines of replies, as they are written.
ghost use Rattle.std.specs.Prelude.{map};
ghost use Rattle.rbbi_model.specs.Scripts.{opened};
ghost use Rattle.rbbi_model.specs.Lines.{all_reply_lines};
ghost use Rattle.rbbi_script.specs.Meaning.{meaning};
ghost use Rattle.rbbi_script.specs.Performing.{replies_of, replies_in};
ghost use Rattle.rbbi_filter.specs.Closures.{AnswersEnds, Turns};
ghost use Rattle.rbbi_filter.specs.declared.filter.Filter.TheVariants.{Suppressing, Turning};
ghost use Rattle.rbbi_filter.specs.FilterSessions.{filter_kind};
ghost use Rattle.rbbi_tool.specs.Filters.{kind_in};
ghost use Rattle.rbbi_tool.specs.Steps.{replies_cost};
ghost use Rattle.rbbi_tool.specs.inner.Prepared.{costs_of};
ghost use Rattle.rbbi_tool.specs.inner.Puts.{Puts, PutsReplies};

use rbbi_filter::{Abbreviations, CharMap, Filter, Filtered, Predicate, Tailored, Tailoring};
use rbbi_io::{Sink, WriteErr, put_all, put_when_full};
use rbbi_script::{Commands, perform_by};
use rbbi_session::{Session, UnitSession, Walk};
use rbbi_table::Table;
use rbbi_text::{Pieces, Steps, Unit};
use std::alloc::Global;
use std::sync::ledger::Ledger;

/// Writes the lines of the replies to all commands, in pieces.
fn put_replies_of<S: Walk, K: Sink, L: Ledger>(
    alloc: Global,
    session: &mut S,
    commands: &Commands,
    out: &mut K,
    steps: &mut Steps<L>,
) -> Result<(), WriteErr>
    ensures { Puts (all_reply_lines (replies_of S.view session.old (map meaning commands.now)))
        (costs_of S.view session.old (map meaning commands.now)) result (K.taken out.old)
        (K.taken out.new) (K.faults out.old) (K.faults out.new) steps.old steps.new }
{
    S::laws();
    let mut made = Vec::new(alloc);
    for i in 0..commands.len() {
        perform_by(session, commands.get(i), &mut made, steps)?;
        put_when_full(out, &mut made)?;
    }
    put_all(out, &made)?;
    Ok(())
}

/// Writes the lines of the replies to all commands over a text, by a table, in a unit or through a
/// filter, in pieces.
pub(crate) fn put_replies<K: Sink, L: Ledger>(
    alloc: Global,
    table: &Table,
    text: Pieces,
    unit: Unit,
    filter: &Option<Filter>,
    commands: &Commands,
    out: &mut K,
    steps: &mut Steps<L>,
) -> Result<(), WriteErr>
    ensures { Puts (all_reply_lines (replies_in (kind_in filter.now unit table.now) (opened text)
        (map meaning commands.now)))
        (replies_cost filter.now unit table.now text (map meaning commands.now)) result
        (K.taken out.old) (K.taken out.new) (K.faults out.old) (K.faults out.new)
        steps.old steps.new }
{
    match filter {
        None => {
            let mut session = UnitSession::open(alloc, table, text, unit)?;
            put_replies_of(alloc, &mut session, commands, out, steps)
        }
        Some(filter) => put_replies_through(alloc, table, text, filter, commands, out, steps),
    }
}

/// Writes the lines of the replies to all commands over a text, by the boundaries by a table that
/// are reported through a filter, in pieces.
fn put_replies_through<K: Sink, L: Ledger>(
    alloc: Global,
    table: &Table,
    text: Pieces,
    filter: &Filter,
    commands: &Commands,
    out: &mut K,
    steps: &mut Steps<L>,
) -> Result<(), WriteErr>
    ensures { PutsReplies (filter_kind filter.now table.now) text (map meaning commands.now)
        result (K.taken out.old) (K.taken out.new) (K.faults out.old) (K.faults out.new)
        steps.old steps.new }
{
    match filter {
        Filter::Suppressing(list) => {
            let keep = |w: &[char]| list.ends(w);
            put_filtered_replies(alloc, table, text, list, keep, commands, out, steps)
        }
        Filter::Turning(pairs) => {
            let turning = |c: char| pairs.turn(c);
            put_tailored_replies(alloc, table, text, pairs, turning, commands, out, steps)
        }
    }
}

/// Writes the lines of the replies to all commands over a text, by those of its boundaries by a
/// table that `keep` doesn't hide: those after no abbreviation, in pieces.
fn put_filtered_replies<P: Predicate + Drop, K: Sink, L: Ledger>(
    alloc: Global,
    table: &Table,
    text: Pieces,
    list: &Abbreviations,
    keep: P,
    commands: &Commands,
    out: &mut K,
    steps: &mut Steps<L>,
) -> Result<(), WriteErr>
    requires { AnswersEnds (P.can_ask keep) (P.answers keep) list.now }
    ensures { PutsReplies (filter_kind (Suppressing list.now) table.now) text
        (map meaning commands.now) result (K.taken out.old) (K.taken out.new)
        (K.faults out.old) (K.faults out.new) steps.old steps.new }
{
    let session = Session::open(alloc, table, text)?;
    let mut session = Filtered::open(session, list, keep);
    put_replies_of(alloc, &mut session, commands, out, steps)
}

/// Writes the lines of the replies to all commands over a text, by the boundaries by a table of the
/// text as `turning` maps its characters: by these pairs, in pieces.
fn put_tailored_replies<G: CharMap + Drop, K: Sink, L: Ledger>(
    alloc: Global,
    table: &Table,
    text: Pieces,
    pairs: &Tailoring,
    turning: G,
    commands: &Commands,
    out: &mut K,
    steps: &mut Steps<L>,
) -> Result<(), WriteErr>
    requires { Turns (G.can_map turning) (G.maps turning) pairs.now }
    ensures { PutsReplies (filter_kind (Turning pairs.now) table.now) text
        (map meaning commands.now) result (K.taken out.old) (K.taken out.new)
        (K.faults out.old) (K.faults out.new) steps.old steps.new }
{
    let mut session = Tailored::open(alloc, table, text, pairs, turning)?;
    put_replies_of(alloc, &mut session, commands, out, steps)
}
