//! What a request comes to, before anything is written.

use rbbi_command::Output;
use rbbi_filter::Filter;
use rbbi_script::Commands;
use rbbi_table::Table;
use rbbi_text::{FileText, Pieces, Unit};

/// What a request comes to, which determines all that is written.
#[derive(Drop)]
pub(crate) enum Prepared {
    /// An output that is made.
    Ready(Output),
    /// Lines that are still to be made.
    Waiting(Lines),
}

/// Lines that are made while they are written.
#[derive(Drop)]
pub(crate) enum Lines {
    Boundaries(BoundaryLines),
    Replies(ReplyLines),
    Counts(CountLines),
}

/// The lines of the boundaries of a text by a table, in a unit or through a filter.
#[derive(Drop)]
pub(crate) struct BoundaryLines {
    pub(crate) table: Table,
    pub(crate) text: FileText,
    pub(crate) unit: Unit,
    pub(crate) filter: Option<Filter>,
}

/// The lines of the replies to the commands of a script, over a text, by a table, in a unit or
/// through a filter.
#[derive(Drop)]
pub(crate) struct ReplyLines {
    pub(crate) table: Table,
    pub(crate) text: Pieces,
    pub(crate) unit: Unit,
    pub(crate) filter: Option<Filter>,
    pub(crate) commands: Commands,
}

/// The lines of the counts of a text by a table, before and after the edits of a script.
#[derive(Drop)]
pub(crate) struct CountLines {
    pub(crate) table: Table,
    pub(crate) text: Pieces,
    pub(crate) commands: Commands,
}
