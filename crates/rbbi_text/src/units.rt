//! Texts whose places are found, or counted on, in other units than characters.
ghost use Rattle.std.specs.Prelude.{◌≡◌, ◌+◌, ◌^◌, ◌<◌, ◌≤◌, length};
ghost use Rattle.rbbi_model.specs.Units.{offset_of};
ghost use Rattle.rbbi_text.specs.Indexes.{IsIndex};

use crate::{Chars, EditText, Unit};

/// The place at an offset, or the last one before it.
#[derive(Clone, Copy, PartialEq, Eq)]
pub struct Index {
    /// The greatest place that doesn't lie past the offset, in characters from 0.
    pub at: u32,
    /// Whether the place lies at the offset. Otherwise the offset is inside of a character.
    pub whole: bool,
}

/// A text that knows where its places lie in each unit. Only `make_ready` takes memory, and no call
/// gives a character.
pub trait UnitText: EditText {
    /// Where a place lies: how much of the unit the characters before it take together.
    fn offset(&self, unit: Unit, i: u32) -> u32
        requires { i ≤ length (Self.characters self.now) }
        ensures { result ≡ offset_of unit (Self.characters self.now) i };

    /// Where a place lies, by another place and where that lies: few characters between them may be
    /// counted. By default it is `offset`.
    fn offset_from(&self, unit: Unit, from: u32, offset: u32, i: u32) -> u32
        requires from { from ≤ length (Self.characters self.now) }
        requires offset { offset ≡ offset_of unit (Self.characters self.now) from }
        requires within { i ≤ length (Self.characters self.now) }
        ensures { result ≡ offset_of unit (Self.characters self.now) i }
    {
        self.offset(unit, i)
    }

    /// Makes a text that keeps milestones ready to find places in a unit without long walks, as far
    /// as memory suffices. Places are right without it, and after edits too.
    fn make_ready(&mut self, unit: Unit)
        ensures { Self.characters self.new ≡ Self.characters self.old };

    /// The place at an offset, or the last place before it.
    fn index(&self, unit: Unit, o: u32) -> Index
        ensures { IsIndex unit (Self.characters self.now) o result };

    /// The place at an offset, or the last place before it, by a place before it and where that
    /// lies: few characters between them may be counted. By default it is `index`.
    fn index_from(&self, unit: Unit, from: u32, offset: u32, o: u32) -> Index
        requires from { from ≤ length (Self.characters self.now) }
        requires offset { offset ≡ offset_of unit (Self.characters self.now) from }
        ensures { IsIndex unit (Self.characters self.now) o result }
    {
        self.index(unit, o)
    }
}

/// A text in one flat list, which is gone through from its start to its end.
pub trait FlatText: Chars {
    /// How much of a unit the characters from one place to another take together. It gives none of
    /// them, and goes over them at most once.
    fn units_between(&self, unit: Unit, from: u32, to: u32) -> u32
        requires forward { from ≤ to }
        requires within { to ≤ length (Self.characters self.now) }
        ensures sum { offset_of unit (Self.characters self.now) from + result
            ≡ offset_of unit (Self.characters self.now) to }
        ensures small { offset_of unit (Self.characters self.now) to < 2 ^ 32 };
}
