//! Table files of rules/ over Unicode 18.0, as `bin/make-tables` makes them. The licence of the
//! data is unicode/LICENSE-UNICODE.
#![tactic(auto)]

mod grapheme;
mod line;
mod line_cj;
mod line_loose;
mod line_loose_cj;
mod line_normal;
mod line_normal_cj;
mod loading;
mod sentence;
mod tailored;
mod word;

ghost use Rattle.std.specs.Prelude.{◌≤◌, length, true};
ghost use Rattle.unicode_segmentation.specs.Grapheme.{is_grapheme_break};
ghost use Rattle.unicode_segmentation.specs.Sentence.{is_sentence_break};
ghost use Rattle.unicode_segmentation.specs.Word.{is_word_break};
ghost use Rattle.rbbi_text.specs.Bytes.{most_bytes};
ghost use Rattle.rbbi_model.specs.TableFile.{IsSpelling};
ghost use Rattle.rbbi_model.specs.Tables.{Table};
ghost use Rattle.rbbi_model.specs.ValidTables.{IsValidTable};
ghost use Rattle.rbbi_annexes.specs.Breaks.{SpellTable, SpellBreaksBy};
ghost use Rattle.rbbi_annexes.specs.LineBoundaries.{is_line_break, line_status};
ghost use Rattle.rbbi_annexes.specs.Statuses.{grapheme_status, word_status, sentence_status};
ghost use Rattle.rbbi_annexes.specs.Statuses.{SpellBoundaries};
ghost use Rattle.rbbi_segment_tables.specs.BuiltIn.{IsBuiltIn};
ghost use Rattle.rbbi_segment_tables.specs.declared.loading.Kind.TheVariants.{Grapheme, Word};
ghost use Rattle.rbbi_segment_tables.specs.declared.loading.Kind.TheVariants.{Sentence, Line};

pub use loading::{Kind, built_in};

/// The bytes of the table file for grapheme clusters (UAX #29).
///
/// They spell a valid table. The boundaries of each text by it are exactly the places at which the
/// annex breaks the text, and their statuses are all 0.
pub fn graphemes() -> &'static [u8]
    ensures places { SpellBreaksBy result.now (is_grapheme_break true) }
    ensures statuses { SpellBoundaries result.now (is_grapheme_break true) grapheme_status }
    ensures built { (table : Table) → IsValidTable table → IsSpelling result.now table
        → IsBuiltIn Grapheme table }
    ensures valid { SpellTable result.now }
    ensures short { length result.now ≤ most_bytes }
{
    grapheme::GRAPHEME
}

/// The bytes of the table file for words (UAX #29).
///
/// They spell a valid table. The boundaries of each text by it are exactly the places at which the
/// annex breaks the text, each with the status of the word that ends there: that of its last
/// character that has a kind, so `a_` has the status of `a`.
pub fn words() -> &'static [u8]
    ensures places { SpellBreaksBy result.now is_word_break }
    ensures statuses { SpellBoundaries result.now is_word_break word_status }
    ensures built { (table : Table) → IsValidTable table → IsSpelling result.now table
        → IsBuiltIn Word table }
    ensures valid { SpellTable result.now }
    ensures short { length result.now ≤ most_bytes }
{
    word::WORD
}

/// The bytes of the table file for sentences (UAX #29).
///
/// They spell a valid table. The boundaries of each text by it are exactly the places at which the
/// annex breaks the text, each with the status of the sentence that ends there: 0 if a terminator
/// ends it, and else 100.
pub fn sentences() -> &'static [u8]
    ensures places { SpellBreaksBy result.now is_sentence_break }
    ensures statuses { SpellBoundaries result.now is_sentence_break sentence_status }
    ensures built { (table : Table) → IsValidTable table → IsSpelling result.now table
        → IsBuiltIn Sentence table }
    ensures valid { SpellTable result.now }
    ensures short { length result.now ≤ most_bytes }
{
    sentence::SENTENCE
}

/// The bytes of the table file for lines (UAX #14).
///
/// They spell a valid table. The boundaries of each text by it are exactly its start and the places
/// at which the annex says that a line must or may be broken, each with the status of the line that
/// ends there: 100 if its last character is one after which a line must be broken, and else 0.
pub fn lines() -> &'static [u8]
    ensures places { SpellBreaksBy result.now is_line_break }
    ensures statuses { SpellBoundaries result.now is_line_break line_status }
    ensures built { (table : Table) → IsValidTable table → IsSpelling result.now table
        → IsBuiltIn Line table }
    ensures valid { SpellTable result.now }
    ensures short { length result.now ≤ most_bytes }
{
    line::LINE
}
