//! Laws of answers and of the replies to a script, by any unit.

ghost use Rattle.std.specs.Prelude.{◌≡◌, ℕ, List};
ghost use Rattle.rbbi_model.specs.Rules.{Rule};
ghost use Rattle.rbbi_model.specs.Tables.{Table};
ghost use Rattle.rbbi_model.specs.Answers.{Reply};
ghost use Rattle.std.specs.List.{AllByRecursion};
ghost use Rattle.rbbi_model.specs.Words.{IsText};
ghost use Rattle.rbbi_model.specs.Compiled.{GivesBoundaries};
ghost use Rattle.rbbi_model.specs.declared.unit.Unit.{Unit as TextUnit};
ghost use Rattle.rbbi_model.specs.Scripts.{Command, InsertsText};
ghost use Rattle.rbbi_model.specs.Plays.{AreReplies, table_replies};

/// The replies to a script over the boundaries by rules are determined.
pub fn replies_are_unique()
    ensures { (rules : List Rule) (unit : TextUnit) (x : List ℕ) (commands : List Command)
        (these those : List Reply) → AreReplies rules unit x commands these
        → AreReplies rules unit x commands those → these ≡ those }
{}

/// A table that gives the boundaries by rules gives the replies by them too, whatever is edited.
pub fn table_replies_are_those_of_the_rules()
    ensures { (table : Table) (rules : List Rule) → GivesBoundaries table rules →
        (unit : TextUnit) (x : List ℕ) (commands : List Command) → IsText x →
        AllByRecursion InsertsText commands →
        AreReplies rules unit x commands (table_replies table unit x commands) }
{}
