//! Laws of summaries. The functions carry no code: each states a law as its contract.
ghost use Rattle.std.specs.Prelude.{◌≡◌, ℕ};
ghost use Rattle.rbbi_model.specs.Rules.{Rule};
ghost use Rattle.rbbi_model.specs.Boundaries.{AreBoundaries};
ghost use Rattle.rbbi_model.specs.Tables.{Table};
ghost use Rattle.rbbi_model.specs.Compiled.{GivesBoundaries};
ghost use Rattle.rbbi_demo.specs.declared.summary.Summary.{Summary};
ghost use Rattle.rbbi_demo.specs.Summaries.{IsSummary, AreTableBoundaries};
ghost use Rattle.std.specs.Prelude.{List};

/// A table that gives the boundaries by rules gives the summaries by them too.
pub fn table_summaries_are_those_of_the_rules()
    ensures { (table : Table) (rules : List Rule) → GivesBoundaries table rules →
        (count : ℕ) (summary : Summary) → IsSummary (AreTableBoundaries table) count summary →
        IsSummary (AreBoundaries rules) count summary }
{}

/// A number has at most one summary by rules.
pub fn summaries_are_unique()
    ensures { (rules : List Rule) (count : ℕ) (one other : Summary) →
        IsSummary (AreBoundaries rules) count one →
        IsSummary (AreBoundaries rules) count other → one ≡ other }
{}
