//! A session that looks for boundaries in a text whose characters are turned by a map.
ghost use Rattle.std.specs.Prelude.{◌≡◌, IfOk, MatchResult};
ghost use Rattle.rbbi_filter.specs.Closures.{Turns};
ghost use Rattle.rbbi_filter.specs.declared.filter.Filter.TheVariants.{Turning};
ghost use Rattle.rbbi_filter.specs.FilterSessions.{IsOpened};

use crate::maps::TurnsBy;
use crate::moves::Moves;
use crate::seen::Seen;
use crate::through::Through;
use crate::{CharMap, Maps, Tailoring};
use rbbi_cache::Cache;
use rbbi_session::{Holds, SessionBy, character_count};
use rbbi_table::Table;
use rbbi_text::{Chars, EditErr, EditText, Steps};
use std::alloc::{AllocError, Global};
use std::marker::Model;
use std::sync::ledger::Ledger;

/// A session that answers by the boundaries of its text as a map turns the characters: by that of
/// some pairs. Each answer is the one that a scan of the mapped text gives, at the costs that
/// `rbbi_session::Session` has over that text.
pub type Tailored<'a, T, G> = Through<Turned<&'a Table, T, TurnsBy<'a, G>>>;

/// A text as it is, and boundaries that were found in the text as it is turned.
#[derive(Drop)]
pub struct Turned<H: Holds, T: EditText, M: Maps> {
    table: H,
    text: T,
    held: M,
    /// Where the cursor is.
    at: u32,
    /// The number of the status list of the boundary at the cursor.
    status: u16,
    /// Boundaries that were found.
    cache: Cache,
}

impl<H: Holds, T: EditText, M: Maps> Model for Turned<H, T, M> {
    ghost use Rattle.rbbi_filter.specs.FilterSessions.{FilterSession};
    ghost use Rattle.rbbi_filter.specs.declared.filter.Filter.TheVariants.{Turning};
    ghost use Rattle.rbbi_session.specs.Scans.{IsConsistent};
    ghost use Rattle.rbbi_filter.specs.Pairs.{turned};

    ghost Value = { FilterSession };

    ghost view = { λ turning. record {
      filter = Turning (M.pairs_of turning.held);
      table = H.table_of turning.table;
      state = record { text = T.characters turning.text; cursor = turning.at };
      runs = turning.cache.runs;
    } };

    ghost invariant = { λ turning. IsConsistent (H.table_of turning.table)
        (turned (M.pairs_of turning.held) (T.characters turning.text))
        turning.at turning.status turning.cache.runs turning.cache.slashes };
}

impl<H: Holds + Drop, T: EditText + Drop, M: Maps + Drop> Through<Turned<H, T, M>> {
    /// A session over a text through the pairs that are held, with the cursor at 0. After the
    /// refusal the text is dropped.
    pub fn by(
        alloc: Global,
        table: H,
        text: T,
        held: M,
    ) -> Result<Through<Turned<H, T, M>>, AllocError>
        ensures { IfOk result (λ session. IsOpened (Turning (M.pairs_of held))
            (H.table_of table) (T.characters text) session) }
    {
        table.table().valid();
        let cache = Cache::new(alloc, table.table())?;
        Ok(Through {
            moves: Turned {
                table,
                text,
                held,
                at: 0,
                status: 0,
                cache,
            },
        })
    }

    /// From a session to one through the pairs that are held, over the same text, with the cursor
    /// at 0. After the refusal for memory the session is given back as it was.
    pub fn of(
        alloc: Global,
        session: SessionBy<H, T>,
        held: M,
    ) -> Result<Through<Turned<H, T, M>>, SessionBy<H, T>>
        ensures { MatchResult result (IsOpened (Turning (M.pairs_of held)) session.table
            session.state.text) (λ former. former ≡ session) }
    {
        session.holder().table().valid();
        let Ok(cache) = Cache::new(alloc, session.holder().table()) else {
            return Err(session);
        };
        let (table, text) = session.into_parts();
        Ok(Through {
            moves: Turned {
                table,
                text,
                held,
                at: 0,
                status: 0,
                cache,
            },
        })
    }
}

impl<'a, T: EditText + Drop, G: CharMap + Drop> Through<Turned<&'a Table, T, TurnsBy<'a, G>>> {
    /// A session over a text, with the cursor at 0. `map` turns characters as these pairs say.
    /// After the refusal the text is dropped.
    pub fn open(
        alloc: Global,
        table: &'a Table,
        text: T,
        pairs: &'a Tailoring,
        map: G,
    ) -> Result<Tailored<'a, T, G>, AllocError>
        requires { Turns (G.can_map map) (G.maps map) pairs.now }
        ensures { IfOk result (λ session.
            IsOpened (Turning pairs.now) table.now (T.characters text) session) }
    {
        Through::by(alloc, table, text, TurnsBy::new(pairs, map))
    }
}

impl<H: Holds, T: EditText, M: Maps> Moves for Turned<H, T, M> {
    type Text = T;

    ghost session = { λ turning. turning };

    fn text(&self) -> &T {
        &self.text
    }

    fn current(&self) -> u32 {
        self.at
    }

    fn status_list(&self) -> &[u32] {
        self.table.table().status_list(self.status)
    }

    fn to_start(&mut self) {
        self.table.table().valid();
        self.at = 0;
        self.status = 0;
    }

    fn to_end<L: Ledger>(&mut self, steps: &mut Steps<L>) -> u32 {
        let len = self.text.len();
        if len == 0 {
            self.to_start();
            return 0;
        }
        self.past(len - 1, steps)
    }

    fn past<L: Ledger>(&mut self, o: u32, steps: &mut Steps<L>) -> u32 {
        let table = self.table.table();
        table.valid();
        let text = Seen::new(&self.text, &self.held);
        let Some(entry) = self.cache.after(table, &text, o, steps) else {
            return self.at;
        };
        self.at = entry.at;
        self.status = entry.status;
        entry.at
    }

    fn before<L: Ledger>(&mut self, o: u32, steps: &mut Steps<L>) -> u32 {
        let table = self.table.table();
        table.valid();
        let text = Seen::new(&self.text, &self.held);
        let Some(entry) = self.cache.before(table, &text, o, steps) else {
            return self.at;
        };
        self.at = entry.at;
        self.status = entry.status;
        entry.at
    }

    fn replace<L: Ledger>(
        &mut self,
        at: u32,
        remove: u32,
        insert: &str,
        steps: &mut Steps<L>,
    ) -> Result<(), EditErr> {
        // That the text is short enough for the cache is known of its length.
        let _short = self.text.len();
        self.text.replace(at, remove, insert)?;
        let inserted = character_count(insert);
        let table = self.table.table();
        table.valid();
        let text = Seen::new(&self.text, &self.held);
        self.cache.edited(table, &text, at, remove, inserted, steps);
        self.at = 0;
        self.status = 0;
        Ok(())
    }

    fn runs_are_true(&self) {
        let _text = &self.text;
    }
}
