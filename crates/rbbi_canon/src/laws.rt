//! Canonical tables and marks.
ghost use Rattle.rbbi_canon.specs.Laws.{CanonicalTablesTellMarks};

/// The canonical tables of two tables are the same exactly if both tables have the same marks after
/// every text that isn't empty. So a table has one canonical table.
pub fn canonical_tables_tell_marks()
    ensures { CanonicalTablesTellMarks }
{}
