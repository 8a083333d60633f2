//! What holds of table files, and of the answers of reading one.
ghost use Rattle.rbbi_file.specs.Laws.{HaveOneAnswer, SpellOneTable};

/// Bytes have one answer, unless memory runs out: the table that they spell, or the first fault.
pub fn one_answer()
    ensures { HaveOneAnswer }
{}

/// That a list of bytes is a spelling of one valid table at most, whatever the version.
pub fn spellings_tell_the_table()
    ensures { SpellOneTable }
{}
