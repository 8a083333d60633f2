//! Scratch space of a search.
ghost use Rattle.std.specs.Prelude.{◌≡◌, ℕ, ◌^◌, ◌<◌, ◌≤◌, length, slice_index, if◌then◌else◌};
ghost use Rattle.std.specs.Prelude.{IfOk};
ghost use Rattle.rbbi_model.specs.Places.{has_bit};

use crate::Table;
use std::alloc::{AllocError, Global};
use std::marker::Model;

/// For each look-ahead rule of a table, the last place of a search at which its front ended. It is
/// made once and serves any number of searches. Contracts see it as the number of look-ahead rules
/// that it is for.
///
/// What an earlier search left in it is never read: in a valid table a search that completes a
/// look-ahead rule has passed an end of its front before. So nothing is cleared between searches.
#[derive(Drop)]
pub struct FrontPlaces {
    pub(crate) places: Vec<u32>,
}

impl Model for FrontPlaces {
    ghost use Rattle.std.specs.Prelude.{ℕ, length};

    ghost Value = { ℕ };

    ghost view = { λ marks. length marks.places.items };
}

impl FrontPlaces {
    /// Space for searches in this table, and in each with as many look-ahead rules.
    pub fn new(alloc: Global, table: &Table) -> Result<FrontPlaces, AllocError>
        ensures { IfOk result (λ marks. marks ≡ table.now.slashes) }
    {
        let places = vec![in alloc; 0; table.slashes() as usize]?;
        Ok(FrontPlaces { places })
    }
}

/// Sets the place of each look-ahead rule whose bit is in the front mask.
pub(crate) fn note(places: &mut [u32], fronts: u32, at: u32)
    requires fronts { fronts < 2 ^ length places.old }
    requires few { length places.old ≤ 32 }
    ensures { (k : ℕ) → k < length places.new → slice_index places.new k
        ≡ (if has_bit fronts k then at else slice_index places.old k) }
{
    let mut rest = fronts;
    while rest != 0 {
        let slash = rest.trailing_zeros();
        places[slash as usize] = at;
        rest &= !(1 << slash);
    }
}
