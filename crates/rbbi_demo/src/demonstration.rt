//! The demonstration as a whole.
ghost use Rattle.std.specs.Prelude.{◌≡◌, ◌≤◌, length, IfOk};
ghost use Rattle.rbbi_session.specs.Sessions.{boundaries_of};
ghost use Rattle.rbbi_demo.specs.Summaries.{IsSummary, AreTableBoundaries};

use crate::edit::{ask, edit};
use crate::generator::Generator;
use crate::summary::Summary;
use crate::text::drawn;
use rbbi_session::Session;
use rbbi_table::Table;
use rbbi_text::{Chars, Pieces, Steps};
use std::alloc::{AllocError, Global};
use std::sync::ledger::Ledger;

/// Goes from the first boundary to each next one, and counts them.
fn count_boundaries<L: Ledger>(session: &mut Session<'_, Pieces>, steps: &mut Steps<L>) -> u64
    ensures { result ≡ length (boundaries_of session.old) }
{
    let mut count = 0;
    let mut place = Some(session.first());
    while let Some(_at) = place {
        count += 1;
        place = session.next(steps);
    }
    count
}

/// Runs the demonstration of a number from 1 to 1,000,000 over a table: draws a text of so many
/// characters, makes an edit for each hundred of them and asks for the boundaries round a place
/// after each, and counts the boundaries of the last text.
pub fn demo<L: Ledger>(
    alloc: Global,
    table: &Table,
    count: u32,
    steps: &mut Steps<L>,
) -> Result<Summary, AllocError>
    requires { count ≤ 1000000 }
    ensures { IfOk result (IsSummary (AreTableBoundaries table.now) count) }
{
    let mut generator = Generator::new(count);
    let text = drawn(alloc, &mut generator, count)?;
    let mut session = Session::open(alloc, table, text)?;
    let edits = count / 100;
    let mut sum = 0;
    for _made in 0..edits {
        edit(&mut session, &mut generator, steps)?;
        sum += ask(&mut session, &mut generator, steps);
    }
    Ok(Summary {
        chars: session.text().len(),
        edits,
        boundaries: count_boundaries(&mut session, steps),
        sum,
    })
}
