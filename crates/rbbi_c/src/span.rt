//! The places at the ends of an edit, whose numbers count a unit.
ghost use Rattle.std.specs.Prelude.{MatchResult};
ghost use Rattle.rbbi_c.specs.inner.Removing.{IsSpan, IsNotRemoved};

use rbbi_session::UnitEditErr;
use rbbi_text::{Chars, Pieces, Unit, UnitText};

/// What an edit removes of a text, in characters.
#[derive(Clone, Copy)]
pub(crate) struct Span {
    pub(crate) first: u32,
    pub(crate) end: u32,
}

/// Where an edit begins and ends, or why it is refused.
pub(crate) fn span_of(text: &Pieces, unit: Unit, at: u32, remove: u32) -> Result<Span, UnitEditErr>
    ensures { MatchResult result (IsSpan unit text.now at remove)
        (IsNotRemoved unit text.now at remove) }
{
    let units = text.offset(unit, text.len());
    if at > units || remove > units - at {
        return Err(UnitEditErr::Outside);
    }
    let first = text.index(unit, at);
    if !first.whole {
        return Err(UnitEditErr::Inside);
    }
    let end = text.index(unit, at + remove);
    if !end.whole {
        return Err(UnitEditErr::Inside);
    }
    Ok(Span {
        first: first.at,
        end: end.at,
    })
}
