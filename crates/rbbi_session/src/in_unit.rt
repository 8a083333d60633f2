//! A session whose places count a unit.
ghost use Rattle.std.specs.Prelude.{◌≡◌, ◌+◌, length, IfOk, IsTrue, if◌then◌else◌, nat_lt};
ghost use Rattle.rbbi_model.specs.Cover.{IsPlaceOf};
ghost use Rattle.rbbi_model.specs.Units.{offset_of};
ghost use Rattle.rbbi_model.specs.UnitAnswers.{place_before};
ghost use Rattle.rbbi_session.specs.Sessions.{HasTrueRuns};
ghost use Rattle.rbbi_session.specs.UnitSessions.{IsOpenedBy};
ghost use Rattle.rbbi_session.specs.Walks.{reported, Cover, CountsCharacters};
ghost use Rattle.rbbi_text.specs.Indexes.{IsIndex};
ghost use Rattle.rbbi_session.specs.KnownPlaces.{IsKnown};
ghost use Rattle.rbbi_session.specs.inner.UnitPlaces.{IsPlaceUpTo, IsPlaceFrom, StandsAt};

use crate::Holds;
use crate::known::Known;
use crate::session::SessionBy;
use crate::walk::ByCharacters;
use rbbi_table::Table;
use rbbi_text::{Chars, Index, Unit, UnitText};
use std::alloc::{AllocError, Global};
use std::marker::Model;

/// How far past the place that is remembered a number may lie without being remembered itself.
const FEW: u32 = 32;

/// A session whose places, numbers and lengths count a unit: characters, UTF-8 bytes or UTF-16
/// units. A number inside of a character is no boundary.
///
/// Its questions and edits are those of a [`Walk`](crate::Walk). It asks a session over the same
/// text, by characters: each answer is that session's, with offsets for places. No call takes
/// memory but those that make one, and `replace`.
#[derive(Drop)]
pub struct InUnit<W: ByCharacters> {
    /// The session by characters. A caller that goes on with it directly puts its cursor back.
    pub asked: W,
    /// The unit of places.
    pub unit: Unit,
    /// Where the cursor lies in the unit.
    pub offset: u32,
    /// A place that the latest numbers were near to.
    pub near: Known,
}

/// A [`Session`](crate::Session) in a unit.
pub type UnitSession<'a, T> = UnitSessionBy<&'a Table, T>;

/// A [`UnitSession`] by a table that is borrowed or shared.
pub type UnitSessionBy<H, T> = InUnit<SessionBy<H, T>>;

impl<W: ByCharacters> Model for InUnit<W> {
    ghost use Rattle.std.specs.Prelude.{◌≡◌};
    ghost use Rattle.rbbi_model.specs.Units.{offset_of};
    ghost use Rattle.rbbi_session.specs.UnitSessions.{InUnit};
    ghost use Rattle.rbbi_session.specs.KnownPlaces.{IsKnown};

    ghost Value = { InUnit W };

    ghost view = { λ session. record { unit = session.unit; asked = session.asked } };

    ghost invariant = { λ session. let state = W.view.state session.asked in
        (session.offset ≡ offset_of session.unit state.text state.cursor)
        × IsKnown session.unit state.text session.near };
}

impl<H: Holds + Drop, T: UnitText + Drop> InUnit<SessionBy<H, T>> {
    /// A session over a text, with the cursor at 0. After the refusal the text is dropped.
    pub fn open(
        alloc: Global,
        table: H,
        text: T,
        unit: Unit,
    ) -> Result<InUnit<SessionBy<H, T>>, AllocError>
        ensures { IfOk result (λ session.
            IsOpenedBy unit (H.table_of table) (T.characters text) session) }
    {
        let mut text = text;
        text.make_ready(unit);
        let asked = SessionBy::open(alloc, table, text)?;
        Ok(InUnit {
            asked,
            unit,
            offset: 0,
            near: Known { at: 0, offset: 0 },
        })
    }
}

impl<H: Holds, T: UnitText> InUnit<SessionBy<H, T>> {
    /// That each kept run is true of the text as it is now. Callers' proofs don't see what a
    /// session keeps to itself, and this call shows it to them at any moment; it does nothing when
    /// it runs.
    pub fn runs_are_true(&self)
        ensures { HasTrueRuns self.now.asked }
    {
        self.asked.runs_are_true();
    }
}

impl<W: ByCharacters> InUnit<W>
where
    W::Text: UnitText,
{
    /// By a unit, from a session by characters, with its cursor. It takes no memory.
    pub fn new(asked: W, unit: Unit) -> InUnit<W>
        ensures { result ≡ record { unit = unit; asked = asked } }
    {
        let start = Known { at: 0, offset: 0 };
        let offset = start.offset_of_cursor(&asked, unit);
        InUnit {
            asked,
            unit,
            offset,
            near: start,
        }
    }

    /// The unit of places.
    pub fn unit(&self) -> Unit
        ensures { result ≡ self.now.unit }
    {
        self.unit
    }

    /// The place at a number, or the last one before it. It is remembered if it lies at the number,
    /// unless the number is a little past the place that is remembered.
    pub(crate) fn index(&mut self, o: u32) -> Index
        ensures index { IsIndex self.old.unit (W.view.state self.old.asked).text o result }
        ensures same { self.new ≡ self.old }
    {
        let near = self.near;
        let index = self
            .asked
            .text()
            .index_from(self.unit, near.at, near.offset, o);
        if index.whole && (o < near.offset || o - near.offset > FEW) {
            self.near = Known {
                at: index.at,
                offset: o,
            };
        }
        index
    }

    /// The cursor, and its offset.
    pub(crate) fn here(&self) -> Known
        ensures stands { StandsAt W.view self.now.asked }
        ensures known { IsKnown self.now.unit (W.view.state self.now.asked).text result }
    {
        W::laws();
        W::counts_characters();
        Known {
            at: self.asked.current(),
            offset: self.offset,
        }
    }

    /// A place whose offset is known: the one that a number named, or else the cursor.
    pub(crate) fn known(&self, named: Index, o: u32) -> Known
        requires { IsTrue named.whole → IsKnown self.now.unit (W.view.state self.now.asked).text
            (record { at = named.at; offset = o }) }
        ensures stands { StandsAt W.view self.now.asked }
        ensures known { IsKnown self.now.unit (W.view.state self.now.asked).text result }
    {
        let here = self.here();
        if named.whole {
            return Known {
                at: named.at,
                offset: o,
            };
        }
        here
    }

    /// The last place that doesn't lie past a number, and whether it lies there; a place past the
    /// text's end where the number is.
    pub(crate) fn last_place_up_to(&mut self, o: u32) -> Index
        ensures place { let x = (W.view.state self.old.asked).text in result.at
            ≡ (if nat_lt (offset_of self.old.unit x (length x)) o then length x + 1
            else place_before self.old.unit x o) }
        ensures past { IsPlaceUpTo self.old.unit (W.view.state self.old.asked).text o result.at }
        ensures known { IsTrue result.whole → IsKnown self.old.unit
            (W.view.state self.old.asked).text (record { at = result.at; offset = o }) }
        ensures same { self.new ≡ self.old }
    {
        let len = self.asked.text().len();
        let index = self.index(o);
        if index.whole {
            return index;
        }
        if index.at < len {
            return index;
        }
        Index {
            at: len + 1,
            whole: false,
        }
    }

    /// The first place that doesn't lie before a number, and whether it lies there; a place past
    /// the text's end where the number is.
    pub(crate) fn first_place_from(&mut self, o: u32) -> Index
        ensures place { IsPlaceFrom self.old.unit (W.view.state self.old.asked).text o result }
        ensures same { self.new ≡ self.old }
    {
        // That places are small is known of the text's length.
        let _short = self.asked.text().len();
        let index = self.index(o);
        if index.whole {
            return index;
        }
        Index {
            at: index.at + 1,
            whole: false,
        }
    }
}
