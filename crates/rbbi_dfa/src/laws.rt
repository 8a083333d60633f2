//! Laws of compiled tables.
ghost use Rattle.rbbi_dfa.specs.NeededRows.{RowsAreNeeded, ValidTablesHaveRows};
ghost use Rattle.rbbi_dfa.specs.HaveCanonical.{CompiledTablesHaveCanonical};

use rbbi_model::marks_are_unique;

/// A least table for the rules has more rows than a number from 2 on exactly where the rules
/// distinguish so many words that each lead somewhere. So `build` refuses `TooManyRows` exactly if
/// the least table has more than 4,095 rows. Valid tables have what the law asks of a table's
/// parts.
pub fn rows_are_needed()
    ensures needed { RowsAreNeeded }
    ensures valid { ValidTablesHaveRows }
{
    marks_are_unique();
}

/// Each table that is compiled from lawful rules has a canonical one: it is least, each category
/// holds a code point, and surrogates lead to row 0.
pub fn compiled_tables_have_canonical()
    ensures { CompiledTablesHaveCanonical }
{
    marks_are_unique();
}
