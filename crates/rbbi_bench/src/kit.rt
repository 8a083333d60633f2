//! The segments of UAX #29 as the kit's `unicode_segmentation` finds them.
ghost use Rattle.std.specs.Prelude.{◌≤◌, length};
ghost use Rattle.rbbi_text.specs.Bytes.{most_bytes};

use rbbi_compile::rule_text;
use unicode_segmentation::UnicodeSegmentation;

/// How many graphemes, words or sentences a text has, or nothing for another kind.
fn count_of(text: &str, kind: &str) -> Option<u64> {
    let count = match kind {
        "grapheme" => text.graphemes(true).count(),
        "word" => text.split_word_bounds().count(),
        "sentence" => text.split_sentence_bounds().count(),
        _ => return None,
    };
    Some(count as u64)
}

/// Counts the segments of a file's text by the kit's iterators, so many times over.
pub(crate) fn measure_kit(bytes: &[u8], kind: &str, rounds: u32) -> Option<u64>
    requires { length bytes.now ≤ most_bytes }
{
    let text = rule_text(bytes).ok()?;
    let mut count = 0;
    for _ in 0..rounds {
        count = count_of(text, kind)?;
    }
    Some(count)
}
