//! Places whose offsets are known, and the offset of the cursor by them.
ghost use Rattle.std.specs.Prelude.{◌≡◌, None, Some, MatchOption};
ghost use Rattle.rbbi_model.specs.Units.{offset_of};
ghost use Rattle.rbbi_session.specs.KnownPlaces.{IsKnown};

use crate::ByCharacters;
use rbbi_text::{Unit, UnitText};

/// A place of a text whose offset is known. Offsets near it are found from it, and not from the
/// text's start.
#[derive(Clone, Copy)]
pub struct Known {
    /// The place, in characters from 0.
    pub at: u32,
    /// Where it lies in the unit.
    pub offset: u32,
}

impl Known {
    /// Where the cursor of a session by characters lies: counted from this place, where it is near.
    #[inline(always)]
    pub(crate) fn offset_of_cursor<W: ByCharacters>(self, asked: &W, unit: Unit) -> u32
    where
        W::Text: UnitText,
        requires { IsKnown unit (W.view.state asked.now).text self }
        ensures { let state = W.view.state asked.now in
            result ≡ offset_of unit state.text state.cursor }
    {
        W::laws();
        W::counts_characters();
        asked
            .text()
            .offset_from(unit, self.at, self.offset, asked.current())
    }
}

/// The offset of a place, where one was found.
pub(crate) fn offset_found(place: Option<u32>, offset: u32) -> Option<u32>
    ensures { MatchOption place (result ≡ None) (λ _. result ≡ Some offset) }
{
    match place {
        Some(_) => Some(offset),
        None => None,
    }
}
