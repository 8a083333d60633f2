//! What a session keeps, in a box that lends neither its allocator nor its text for a change.
//!
//! Questions go through these calls, and none of them is passed an allocator. So by the types no
//! question takes memory but what a call on the text's characters might, and only `replace` changes
//! the text.
ghost use Rattle.std.specs.Prelude.{◌≡◌, ◌^◌, ◌<◌, chars, length, Some, IfOk};
ghost use Rattle.rbbi_model.specs.Answers.{first_after, last_before};
ghost use Rattle.rbbi_model.specs.Costs.{forward_cost, preceding_cost, characters_read};
ghost use Rattle.rbbi_model.specs.Scripts.{opened};
ghost use Rattle.rbbi_text.specs.Steps.{RisesUpTo};
ghost use Rattle.rbbi_session.specs.Sessions.{boundaries_of, MovesTo, EditAnswers, HasTrueRuns};
ghost use Rattle.rbbi_session.specs.Questions.{Past, Back};
ghost use Rattle.rbbi_session.specs.Asking.{IsAsked, EditReads};
ghost use Rattle.rbbi_session.specs.inner.Keeping.{IsKeptBy, IsKeptAtStart, kept_session};

use crate::boundary::{Boundary, start};
use rbbi_cache::Cache;
use rbbi_table::Table;
use rbbi_text::{EditErr, EditText, Near, Steps};
use std::alloc::{AllocError, Global};
use std::marker::Model;
use std::sync::ledger::Ledger;

/// A text, a boundary of it, and boundaries that were found.
#[derive(Drop)]
struct Body<T: EditText> {
    text: T,
    /// The boundary at the cursor.
    here: Boundary,
    /// Boundaries that were found.
    cache: Cache,
}

/// What a session keeps beside its table: its text, its cursor and the boundaries that it found.
#[derive(Drop)]
pub(crate) struct Kept<T: EditText> {
    body: Box<Body<T>>,
}

impl<T: EditText> Model for Kept<T> {
    ghost use Rattle.rbbi_session.specs.inner.Keeping.{Kept};

    ghost Value = { Kept };

    ghost view = { λ kept. record {
      state = record {
        text = T.characters kept.body.value.text;
        cursor = kept.body.value.here.at;
      };
      list = kept.body.value.here.status;
      runs = kept.body.value.cache.runs;
      slashes = kept.body.value.cache.slashes;
    } };
}

impl<T: EditText + Drop> Kept<T> {
    /// What a session over a text keeps, at its start. After the refusal the text is dropped.
    pub(crate) fn new(alloc: Global, table: &Table, text: T) -> Result<Kept<T>, AllocError>
        ensures { IfOk result (λ kept. IsKeptAtStart table.now (T.characters text) kept) }
    {
        let cache = Cache::new(alloc, table)?;
        let here = start(table);
        match Box::new(alloc, Body { text, here, cache }) {
            Ok(body) => Ok(Kept { body }),
            Err(_) => Err(AllocError),
        }
    }
}

impl<T: EditText> Kept<T> {
    /// The text.
    pub(crate) fn text(&self) -> &T
        ensures { T.characters result.now ≡ self.now.state.text }
    {
        &self.body.text
    }

    /// The text alone. It takes no memory.
    pub(crate) fn into_text(self) -> T
        ensures { T.characters result ≡ self.state.text }
    {
        let Body {
            text,
            here: _,
            cache: _,
        } = Box::into_inner(self.body);
        text
    }

    /// The boundary at the cursor.
    pub(crate) fn here(&self) -> Boundary
        ensures at { result.at ≡ self.now.state.cursor }
        ensures list { result.status ≡ self.now.list }
    {
        self.body.here
    }

    /// Puts the cursor at a boundary.
    pub(crate) fn stand_at(&mut self, boundary: Boundary)
        ensures state { self.new.state
            ≡ record { text = self.old.state.text; cursor = boundary.at } }
        ensures list { self.new.list ≡ boundary.status }
        ensures runs { self.new.runs ≡ self.old.runs }
        ensures slashes { self.new.slashes ≡ self.old.slashes }
    {
        self.body.here = boundary;
    }

    /// Puts the cursor at 0.
    pub(crate) fn to_start(&mut self, table: &Table)
        requires by { IsKeptBy table.now self.old }
        ensures by { IsKeptBy table.now self.new }
        ensures state { self.new.state ≡ opened self.old.state.text }
        ensures runs { self.new.runs ≡ self.old.runs }
    {
        self.stand_at(start(table));
    }

    /// Goes to the first boundary past `i`, which lies within the text.
    pub(crate) fn after<L: Ledger>(&mut self, table: &Table, i: u32, steps: &mut Steps<L>) -> u32
        requires by { IsKeptBy table.now self.old }
        requires within { i < length self.old.state.text }
        ensures by { IsKeptBy table.now self.new }
        ensures first { first_after (boundaries_of (kept_session table.now self.old)) i ≡ Some result }
        ensures moved { MovesTo (kept_session table.now self.old) result
            (kept_session table.now self.new) }
        ensures reads { IsAsked (kept_session table.now self.old) (Past i)
            (forward_cost table.now self.old.state.text i) (kept_session table.now self.new)
            steps.old steps.new }
    {
        table.valid();
        let body = &mut *self.body;
        let Some(entry) = body.cache.after(table, &body.text, i, steps) else {
            return body.here.at;
        };
        body.here = Boundary {
            at: entry.at,
            status: entry.status,
        };
        entry.at
    }

    /// Goes to the last boundary before `o`, which isn't 0.
    pub(crate) fn before<L: Ledger>(&mut self, table: &Table, o: u32, steps: &mut Steps<L>) -> u32
        requires by { IsKeptBy table.now self.old }
        requires some { 0 < o }
        ensures by { IsKeptBy table.now self.new }
        ensures last { last_before (boundaries_of (kept_session table.now self.old)) o ≡ Some result }
        ensures moved { MovesTo (kept_session table.now self.old) result
            (kept_session table.now self.new) }
        ensures reads { IsAsked (kept_session table.now self.old) (Back o)
            (preceding_cost table.now self.old.state.text o) (kept_session table.now self.new)
            steps.old steps.new }
    {
        table.valid();
        let body = &mut *self.body;
        let Some(entry) = body.cache.before(table, &body.text, o, steps) else {
            return body.here.at;
        };
        body.here = Boundary {
            at: entry.at,
            status: entry.status,
        };
        entry.at
    }

    /// Goes to the first boundary past the cursor by one search, which isn't kept.
    pub(crate) fn search_on<L: Ledger>(&mut self, table: &Table, steps: &mut Steps<L>) -> u32
        requires by { IsKeptBy table.now self.old }
        requires within { self.old.state.cursor < length self.old.state.text }
        ensures by { IsKeptBy table.now self.new }
        ensures first { first_after (boundaries_of (kept_session table.now self.old))
            self.old.state.cursor ≡ Some result }
        ensures moved { MovesTo (kept_session table.now self.old) result
            (kept_session table.now self.new) }
        ensures read { RisesUpTo
            (characters_read table.now self.old.state.text self.old.state.cursor)
            steps.old steps.new }
    {
        table.valid();
        let body = &mut *self.body;
        let from = body.here.at;
        let near = Near::new(&body.text, from);
        let found = body.cache.search(table, &near, from, steps);
        body.here = Boundary {
            at: found.at,
            status: found.status,
        };
        found.at
    }

    /// Puts the characters of `insert` in place of `remove` characters from `at` on, and the cursor
    /// at 0. After a refusal all is as before.
    pub(crate) fn replace<L: Ledger>(
        &mut self,
        table: &Table,
        at: u32,
        remove: u32,
        insert: &str,
        steps: &mut Steps<L>,
    ) -> Result<(), EditErr>
        requires by { IsKeptBy table.now self.old }
        ensures by { IsKeptBy table.now self.new }
        ensures edited { EditAnswers (kept_session table.now self.old) at remove (chars insert.now)
            result (kept_session table.now self.new) }
        ensures reads { EditReads (kept_session table.now self.old) at remove (chars insert.now)
            result (kept_session table.now self.new) steps.old steps.new }
        ensures are_true { HasTrueRuns (kept_session table.now self.new) }
    {
        let body = &mut *self.body;
        // That the text is short enough for the cache is known of its length.
        let _short = body.text.len();
        body.text.replace(at, remove, insert)?;
        let inserted = character_count(insert);
        body.cache
            .edited(table, &body.text, at, remove, inserted, steps);
        body.here = start(table);
        Ok(())
    }
}

/// The number of characters of a string, at most 2^32 - 1.
pub fn character_count(text: &str) -> u32
    requires { length (chars text.now) < 2 ^ 32 }
    ensures { result ≡ length (chars text.now) }
{
    text.chars().count() as u32
}
