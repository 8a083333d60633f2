//! Searches in a text from any place on, as if that were a boundary.

use rbbi_table::{FrontPlaces, Table};
use rbbi_text::{Chars, PlainText, Steps};
use std::alloc::Global;
use std::process::Abort;
use std::sync::ledger::Ledger;

/// A search.
#[derive(Clone, Copy)]
pub(crate) struct Search {
    /// Where it begins.
    pub(crate) from: u32,
    /// The boundary that it finds, and the number of its status list.
    pub(crate) at: u32,
    pub(crate) status: u16,
    /// The place after the last character that it reads.
    pub(crate) end: u32,
}

/// The searches from a place on, each from the boundary that the one before it found, to the end of
/// the text.
pub(crate) fn searches<L: Ledger>(
    rt: &impl Abort,
    alloc: Global,
    table: &Table,
    text: &PlainText,
    from: u32,
    steps: &mut Steps<L>,
) -> Vec<Search> {
    let mut marks = FrontPlaces::new(alloc, table).expect(rt, "places of fronts");
    let mut all = Vec::new(alloc);
    let mut at = from;
    for _ in 0..text.len() {
        if at >= text.len() {
            break;
        }
        let found = table.next(text, at, &mut marks, steps);
        let search = Search {
            from: at,
            at: found.at,
            status: found.status,
            end: found.look.min(text.len()),
        };
        all.push(search).expect(rt, "a search");
        at = found.at;
    }
    all
}
