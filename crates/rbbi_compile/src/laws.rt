//! What holds of the answers of compiling.
ghost use Rattle.std.specs.Prelude.{ℕ, Bool, List};
ghost use Rattle.rbbi_props.specs.Rows.{File};
ghost use Rattle.rbbi_compile.specs.Laws.{HasOneAnswer};

/// Law: a text means one list of rules at most, and has one fault at most, and not both. It is
/// there for proofs, and does nothing when it runs.
pub fn one_table_or_fault()
    ensures { (files : List File) (ignored : Bool) (x : List ℕ) → HasOneAnswer files ignored x }
{
    rbbi_lex::tokens_are_unique();
    rbbi_lex::faults_are_unique();
    rbbi_lex::tokens_exclude_faults();
    rbbi_tree::at_most_one_reading();
    rbbi_tree::at_most_one_refusal();
    rbbi_tree::file_excludes_fault();
    rbbi_resolve::at_most_one_meaning();
}
