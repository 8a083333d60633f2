//! Laws of compiled tables.

ghost use Rattle.std.specs.Prelude.{◌≡◌, ℕ, List};
ghost use Rattle.rbbi_model.specs.Rules.{Rule};
ghost use Rattle.rbbi_model.specs.Tables.{Table};
ghost use Rattle.rbbi_model.specs.ValidTables.{IsValidTable};
ghost use Rattle.rbbi_model.specs.Marks.{Marks, AreMarks, HasSameMarks};
ghost use Rattle.rbbi_model.specs.Compiled.{GivesBoundaries};

/// A valid table whose rows are marked as the rules say gives the boundaries by the rules, in every
/// text.
pub fn same_marks_give_the_boundaries()
    ensures { (table : Table) (rules : List Rule) → IsValidTable table → HasSameMarks table rules →
        GivesBoundaries table rules }
{}

/// The marks of rules after a word are determined.
pub fn marks_are_unique()
    ensures { (rules : List Rule) (w : List ℕ) (these those : Marks) →
        AreMarks rules w these → AreMarks rules w those → these ≡ those }
{}
