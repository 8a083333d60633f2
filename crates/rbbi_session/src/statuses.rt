//! The greatest of some statuses.
ghost use Rattle.std.specs.Prelude.{◌≡◌};
ghost use Rattle.rbbi_model.specs.Places.{largest};

/// The greatest of some statuses, or 0 where there is none.
pub fn greatest(statuses: &[u32]) -> u32
    ensures { result ≡ largest statuses.now }
{
    let mut greatest = 0;
    for status in statuses {
        greatest = greatest.max(*status);
    }
    greatest
}
