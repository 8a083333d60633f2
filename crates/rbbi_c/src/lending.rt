//! Sessions in handles, which a call works on in place.
ghost use Rattle.std.specs.Prelude.{◌≡◌, None, Some, MatchOption};
ghost use Rattle.std.specs.Borrow.{sem};
ghost use Rattle.rbbi_c.specs.declared.held.Held.TheVariants.{Session};
ghost use Rattle.rbbi_c.specs.Holding.{session_in};
ghost use Rattle.rbbi_c.specs.inner.Lending.{LendsSession};

use crate::desk::Desk;
use crate::held::Held;

/// The session that is held, if it is one.
#[inline(always)]
pub(crate) fn lend(held: &mut Held) -> Option<&mut Desk>
    ensures* lends { sem 𝓛 (LendsSession held.entry result) }
    ensures session { MatchOption result (session_in (Some held.old) ≡ None)
        (λ desk. held.old ≡ Session desk.now) }
{
    match held {
        Held::Session(desk) => Some(desk),
        Held::Properties(_) | Held::Table(_) | Held::Filtered(_) | Held::Tally(_) | Held::Scan(_) =>
            None,
    }
}
