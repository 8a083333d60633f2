//! A text with the counts of its segments.
ghost use Rattle.std.specs.Prelude.{◌≡◌, ◌+◌, ◌≤◌, ◌<◌, length, chars, IfOk};
ghost use Rattle.rbbi_text.specs.Steps.{RisesUpTo};
ghost use Rattle.rbbi_tally.specs.Counts.{count, segment_count, AreCounts};
ghost use Rattle.rbbi_tally.specs.Costs.{opening_cost};
ghost use Rattle.rbbi_tally.specs.Tallies.{boundaries_of, EditAnswers, EditReads};

use crate::commit::commit;
use crate::counts::{Counts, count_of, total, values_of};
use crate::edit::Edit;
use crate::keeping::Counted;
use crate::open::segments_of;
use crate::search::search_again;
use crate::spot::{first_reaching, place_at};
use rbbi_session::Holds;
use rbbi_table::Table;
use rbbi_text::{EditErr, EditText, Steps, check_edit};
use std::alloc::{AllocError, Global};
use std::marker::Model;
use std::sync::ledger::Ledger;

/// A text with a table of break rules, and how many of its segments have each status. A segment
/// lies between two neighbouring boundaries, and has the statuses of the later one.
///
/// The boundaries are kept by pieces of at most 2,048, each with its status list and with how far
/// the search from there looked. So an edit searches from the first boundary whose search looked
/// past the edit's place, up to where the boundaries are old ones moved. It moves the segments of
/// the pieces that it touches, and one number for each piece after. It takes eight bytes a
/// boundary, and room for 512 further ones with each 1,536. Room for what an edit may find stays
/// with the tally: eight bytes for each character of the longest rest of the text that an edit
/// had, and up to twice that once it has grown.
pub type Tally<'a, T> = TallyBy<&'a Table, T>;

/// A [`Tally`] by a table that is borrowed or shared.
#[derive(Drop)]
pub struct TallyBy<H: Holds, T: EditText> {
    table: H,
    counted: Box<Counted<T>>,
}

impl<H: Holds, T: EditText> Model for TallyBy<H, T> {
    ghost use Rattle.rbbi_tally.specs.Tallies.{Tally};

    ghost Value = { Tally };

    ghost use Rattle.rbbi_tally.specs.inner.Tallied.{IsTallied};

    ghost view = { λ tally. record {
      table = H.table_of tally.table;
      text = T.characters tally.counted.value.text;
    } };

    ghost invariant = { λ tally. let counted = tally.counted.value in
        IsTallied (H.table_of tally.table) (T.characters counted.text) counted.pieces.items
        counted.counts.items counted.marks };
}

impl<H: Holds + Drop, T: EditText + Drop> TallyBy<H, T> {
    /// The counts of a text. After the refusal the text is dropped.
    ///
    /// It searches from each boundary once, and so reads each character about once.
    pub fn open<L: Ledger>(
        alloc: Global,
        table: H,
        text: T,
        steps: &mut Steps<L>,
    ) -> Result<TallyBy<H, T>, AllocError>
        ensures opened { IfOk result (λ tally. (tally.table ≡ H.table_of table)
            × (tally.text ≡ T.characters text)) }
        ensures reads { RisesUpTo (opening_cost (H.table_of table) (T.characters text))
            steps.old steps.new }
    {
        let opened = segments_of(alloc, table.table(), &text, steps)?;
        let counted = Counted {
            text,
            pieces: opened.pieces,
            counts: opened.counts,
            marks: opened.marks,
            room: Vec::new(alloc),
            alloc,
        };
        match Box::new(alloc, counted) {
            Ok(counted) => Ok(TallyBy { table, counted }),
            Err(_) => Err(AllocError),
        }
    }
}

impl<H: Holds, T: EditText> TallyBy<H, T> {
    /// Puts the characters of `insert` in place of `remove` characters from `at` on, and counts
    /// again what that touches.
    ///
    /// Refuses `Outside` if the text has fewer than `at + remove` characters, and otherwise
    /// `TooLong` if it would have more than 16,777,216 characters. After a refusal, also for
    /// memory, text and counts are as before, and nothing was read. All memory that can be refused
    /// is taken before the text is edited: room for all boundaries that the new text can have,
    /// which later edits use again.
    pub fn replace<L: Ledger>(
        &mut self,
        at: u32,
        remove: u32,
        insert: &str,
        steps: &mut Steps<L>,
    ) -> Result<(), EditErr>
        ensures edited { EditAnswers self.old at remove (chars insert.now) result self.new }
        ensures reads { EditReads self.old at remove (chars insert.now) result
            steps.old steps.new }
    {
        let table = self.table.table();
        table.valid();
        let counted = &mut *self.counted;
        let end = counted.text.len();
        let inserted = check_edit(end as usize, at, remove, insert)?;
        let edit = Edit {
            at,
            removed: remove,
            inserted,
        };
        let first = first_reaching(&counted.pieces, at);
        let start = place_at(&counted.pieces, first, end);
        // From `start` on the new text has at most one boundary a character, and one more.
        counted.room.clear();
        counted
            .room
            .reserve((end - remove + inserted - start) as usize)?;
        counted.pieces.reserve(1)?;
        counted.text.replace(at, remove, insert)?;
        let met = search_again(
            table,
            &counted.text,
            &counted.pieces,
            first,
            start,
            edit,
            end,
            &mut counted.room,
            &mut counted.counts,
            &mut counted.marks,
            steps,
        );
        commit(
            counted.alloc,
            &mut counted.pieces,
            &mut counted.room,
            start,
            first,
            met.spot,
            edit,
        );
        Ok(())
    }

    /// How many segments the text has: the number of its boundaries less 1.
    pub fn segments(&self) -> u32
        ensures { result ≡ segment_count (boundaries_of self.now) }
    {
        let table = self.table.table();
        table.valid();
        let counted = &*self.counted;
        let _short = counted.text.len();
        total(&counted.counts)
    }

    /// How many segments have a value as the largest of their statuses.
    pub fn count(&self, value: u32) -> u32
        ensures { result ≡ count (boundaries_of self.now) value }
    {
        let table = self.table.table();
        table.valid();
        let counted = &*self.counted;
        let _short = counted.text.len();
        count_of(table, &counted.counts, value)
    }

    /// The values that some segment has as the largest of its statuses, by rising values, each with
    /// the number of these segments.
    pub fn each(&self, alloc: Global) -> Result<Counts, AllocError>
        ensures { IfOk result (λ counts. AreCounts (boundaries_of self.now) counts.items) }
    {
        let table = self.table.table();
        table.valid();
        let counted = &*self.counted;
        let _short = counted.text.len();
        values_of(alloc, table, &counted.counts)
    }

    /// The text as it is now.
    pub fn text(&self) -> &T
        ensures { T.characters result.now ≡ self.now.text }
    {
        &self.counted.text
    }
}
