//! Laws of what the program answers. The functions carry no code: each states a law as its
//! contract.
ghost use Rattle.std.specs.Prelude.{ℕ, List};
ghost use Rattle.rbbi_tool.specs.Causes.{HasOneOutcome};
ghost use Rattle.rbbi_tool.specs.Laws.{FilesTellMarks};

/// To words over files that tell what they hold there is one outcome: one status, one text, and one
/// file. Where `same` tells that two rule files differ, the status is one, and the text may be any
/// after which they do.
pub fn outcomes_are_unique()
    ensures { (words : List (List ℕ)) (held : List ℕ → List ℕ) → HasOneOutcome words held }
{
    rbbi_model::boundaries_are_unique();
    rbbi_compile::one_table_or_fault();
    rbbi_file::spellings_tell_the_table();
    rbbi_file::one_answer();
    rbbi_model::replies_are_unique();
    rbbi_script::one_script();
    rbbi_filter::one_abbreviations();
    rbbi_filter::one_tailoring();
    rbbi_demo::summaries_are_unique();
    rbbi_conform::one_tests();
    rbbi_conform::one_verdict();
    rbbi_model::marks_are_unique();
    rbbi_dfa::compiled_tables_have_canonical();
    rbbi_canon::canonical_tables_tell_marks();
}

/// The files that `compile` writes of two rule files hold the same bytes exactly where `same` tells
/// that they are the same: where both have the same marks after every text that isn't empty.
pub fn files_tell_marks()
    ensures { FilesTellMarks }
{
    rbbi_model::marks_are_unique();
    rbbi_file::spellings_tell_the_table();
    rbbi_dfa::compiled_tables_have_canonical();
    rbbi_canon::canonical_tables_tell_marks();
}
