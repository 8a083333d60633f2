//! The boundaries of UAX #29 and of UAX #14: what it means that a table gives them, and how a table
//! is shown to. And a plain program that computes the line breaks.
//!
//! The rules of UAX #29 are those of the library `unicode_segmentation`; those of UAX #14 are
//! defined here. The functions on them carry no code: they state laws of the definitions as their
//! contracts.
#![tactic(auto)]

mod lines;

ghost use Rattle.std.specs.Prelude.{true};
ghost use Rattle.unicode_segmentation.specs.Grapheme.{is_grapheme_break};
ghost use Rattle.unicode_segmentation.specs.Sentence.{is_sentence_break};
ghost use Rattle.unicode_segmentation.specs.Word.{is_word_break};
ghost use Rattle.rbbi_annexes.specs.Breaks.{BreaksAreEnds};
ghost use Rattle.rbbi_annexes.specs.LineBoundaries.{MustBreaksHaveStatus100};

pub use lines::{Verdict, line_verdicts};

/// The places at which the annex breaks a text are its start and the ends of the clusters, words or
/// sentences into which `unicode_segmentation` cuts it.
pub fn breaks_are_the_ends_of_segments()
    ensures graphemes { BreaksAreEnds (is_grapheme_break true) }
    ensures words { BreaksAreEnds is_word_break }
    ensures sentences { BreaksAreEnds is_sentence_break }
{}

/// Inside a text a line must be broken exactly where one ends that has status 100.
pub fn lines_must_be_broken_at_status_100()
    ensures { MustBreaksHaveStatus100 }
{}
