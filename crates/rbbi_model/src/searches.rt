//! Laws of searches and of the boundaries by a table.

ghost use Rattle.std.specs.Prelude.{ℕ, ◌<◌, ◌≤◌, List, length};
ghost use Rattle.rbbi_model.specs.Tables.{Table};
ghost use Rattle.rbbi_model.specs.Searches.{next_boundary};

/// The next boundary by a table, valid or not, is greater than the start and at most the text's
/// length.
pub fn next_boundary_is_past_the_start()
    ensures { (table : Table) (x : List ℕ) (s : ℕ) → s < length x →
        (s < (next_boundary table x s).at) × ((next_boundary table x s).at ≤ length x) }
{}
