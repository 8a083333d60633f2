//! Sessions through a filter in handles, which a call works on in place.
ghost use Rattle.std.specs.Prelude.{◌≡◌, None, Some, MatchOption};
ghost use Rattle.std.specs.Borrow.{sem};
ghost use Rattle.rbbi_c.specs.declared.held.Held.TheVariants.{Filtered};
ghost use Rattle.rbbi_c.specs.Holding.{filtered_in, unserved_code};
ghost use Rattle.rbbi_c.specs.inner.FilterLending.{LendsFiltered};

use crate::codes;
use crate::filter_desk::FilterDesk;
use crate::held::Held;

/// The session through a filter that is held, if it is one.
pub(crate) fn lend_filtered(held: &mut Held) -> Option<&mut FilterDesk>
    ensures* lends { sem 𝓛 (LendsFiltered held.entry result) }
    ensures session { MatchOption result (filtered_in (Some held.old) ≡ None)
        (λ desk. held.old ≡ Filtered desk.now) }
{
    match held {
        Held::Filtered(desk) => Some(desk),
        _ => None,
    }
}

/// The code for a call that asks for a session, where it serves none that is held.
pub(crate) fn unserved_by(held: &Held) -> u32
    ensures { result ≡ unserved_code (Some held.now) }
{
    match held {
        Held::Filtered(_) => codes::FILTERED,
        _ => codes::HANDLE,
    }
}
