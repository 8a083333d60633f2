//! Texts, words and the bytes of files, and a counter of the characters and bytes that are read.
//!
//! A text is seen as its list of characters, a file as its list of bytes. Characters come from
//! [`Chars::char_at`] alone and bytes from [`Raw::bytes`] alone, and both count what they give.
#![tactic(auto)]

mod appending;
mod ascii;
mod bytes;
mod chars;
mod counter;
mod error;
mod excerpt;
mod file_text;
mod line_parts;
mod line_values;
mod measure;
mod milestones;
mod near;
mod numbers;
mod piece;
mod pieces;
mod places;
mod plain;
mod raw;
mod steps;
mod units;
mod word;

pub use appending::{append, append_number};
pub use ascii::AsciiText;
pub use bytes::{MOST_BYTES, count_characters, utf8_text, without_mark};
pub use chars::{Chars, EditText};
pub use counter::Counter;
pub use error::{EditErr, LinesErr, RawErr, TextErr};
pub use excerpt::Excerpt;
pub use file_text::{FileText, Form};
pub use line_parts::{before_byte, is_blank, is_skipped, place_or_len, trim, trim_start};
pub use line_values::{Line, LineValue, Values, read_lines};
pub use near::Near;
pub use numbers::{decimal, hexadecimal, number_of_characters};
pub use pieces::Pieces;
pub use plain::{PlainText, check_edit};
pub use raw::Raw;
pub use rbbi_model::Unit;
pub use steps::Steps;
pub use units::{FlatText, Index, UnitText};
pub use word::{Word, push_character};
