//! The rule files of the built-in tables, for `segment --explain`: rules/ of the repository, which
//! `bin/make-tables` puts here. `bin/make-tables --check` tells whether the built-in tables are those
//! of these texts.
#![tactic(auto)]

mod grapheme;
mod line;
mod line_cj;
mod line_loose;
mod line_loose_cj;
mod line_normal;
mod line_normal_cj;
mod sentence;
mod word;

/// The rules for grapheme clusters (UAX #29), `rules/grapheme.rules`.
pub fn graphemes() -> &'static str {
    grapheme::GRAPHEME
}

/// The rules for words (UAX #29), `rules/word.rules`.
pub fn words() -> &'static str {
    word::WORD
}

/// The rules for sentences (UAX #29), `rules/sentence.rules`.
pub fn sentences() -> &'static str {
    sentence::SENTENCE
}

/// The rules for lines (UAX #14), `rules/line.rules`.
pub fn lines() -> &'static str {
    line::LINE
}

/// The rules for strict lines of Chinese and Japanese (CSS Text 3), `rules/line-cj.rules`.
pub fn lines_cj() -> &'static str {
    line_cj::LINE_CJ
}

/// The rules for normal lines (CSS Text 3), `rules/line-normal.rules`.
pub fn lines_normal() -> &'static str {
    line_normal::LINE_NORMAL
}

/// The rules for normal lines of Chinese and Japanese (CSS Text 3), `rules/line-normal-cj.rules`.
pub fn lines_normal_cj() -> &'static str {
    line_normal_cj::LINE_NORMAL_CJ
}

/// The rules for loose lines (CSS Text 3), `rules/line-loose.rules`.
pub fn lines_loose() -> &'static str {
    line_loose::LINE_LOOSE
}

/// The rules for loose lines of Chinese and Japanese (CSS Text 3), `rules/line-loose-cj.rules`.
pub fn lines_loose_cj() -> &'static str {
    line_loose_cj::LINE_LOOSE_CJ
}
