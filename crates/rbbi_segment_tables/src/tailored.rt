//! The table files for lines as CSS and ICU tailor them: rules/README.md says how.
ghost use Rattle.std.specs.Prelude.{◌≤◌, length};
ghost use Rattle.rbbi_model.specs.TableFile.{IsSpelling};
ghost use Rattle.rbbi_model.specs.Tables.{Table};
ghost use Rattle.rbbi_model.specs.ValidTables.{IsValidTable};
ghost use Rattle.rbbi_text.specs.Bytes.{most_bytes};
ghost use Rattle.rbbi_annexes.specs.Breaks.{SpellTable};
ghost use Rattle.rbbi_segment_tables.specs.BuiltIn.{IsBuiltIn};
ghost use Rattle.rbbi_segment_tables.specs.declared.loading.Kind.TheVariants.{LineStrict, LineNormal};
ghost use Rattle.rbbi_segment_tables.specs.declared.loading.Kind.TheVariants.{LineLoose, LineCj};
ghost use Rattle.rbbi_segment_tables.specs.declared.loading.Kind.TheVariants.{LineNormalCj, LineLooseCj};

use crate::{line, line_cj, line_loose, line_loose_cj, line_normal, line_normal_cj};

/// The bytes of the table file for strict lines, which are those of UAX #14.
pub(crate) fn strict() -> &'static [u8]
    ensures valid { SpellTable result.now }
    ensures short { length result.now ≤ most_bytes }
    ensures built { (table : Table) → IsValidTable table → IsSpelling result.now table
        → IsBuiltIn LineStrict table }
{
    line::LINE
}

/// The bytes of the table file for normal lines.
pub(crate) fn normal() -> &'static [u8]
    ensures valid { SpellTable result.now }
    ensures short { length result.now ≤ most_bytes }
    ensures built { (table : Table) → IsValidTable table → IsSpelling result.now table
        → IsBuiltIn LineNormal table }
{
    line_normal::LINE_NORMAL
}

/// The bytes of the table file for loose lines.
pub(crate) fn loose() -> &'static [u8]
    ensures valid { SpellTable result.now }
    ensures short { length result.now ≤ most_bytes }
    ensures built { (table : Table) → IsValidTable table → IsSpelling result.now table
        → IsBuiltIn LineLoose table }
{
    line_loose::LINE_LOOSE
}

/// The bytes of the table file for strict lines of Chinese and Japanese.
pub(crate) fn cj() -> &'static [u8]
    ensures valid { SpellTable result.now }
    ensures short { length result.now ≤ most_bytes }
    ensures built { (table : Table) → IsValidTable table → IsSpelling result.now table
        → IsBuiltIn LineCj table }
{
    line_cj::LINE_CJ
}

/// The bytes of the table file for normal lines of Chinese and Japanese.
pub(crate) fn normal_cj() -> &'static [u8]
    ensures valid { SpellTable result.now }
    ensures short { length result.now ≤ most_bytes }
    ensures built { (table : Table) → IsValidTable table → IsSpelling result.now table
        → IsBuiltIn LineNormalCj table }
{
    line_normal_cj::LINE_NORMAL_CJ
}

/// The bytes of the table file for loose lines of Chinese and Japanese.
pub(crate) fn loose_cj() -> &'static [u8]
    ensures valid { SpellTable result.now }
    ensures short { length result.now ≤ most_bytes }
    ensures built { (table : Table) → IsValidTable table → IsSpelling result.now table
        → IsBuiltIn LineLooseCj table }
{
    line_loose_cj::LINE_LOOSE_CJ
}
