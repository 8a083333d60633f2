//! The text that the bytes of a file spell.
ghost use Rattle.std.specs.Prelude.{◌≡◌, ◌≤◌, length, IsUtf8, MatchResult};
ghost use Rattle.std.specs.Str.{chars};
ghost use Rattle.rbbi_text.specs.Bytes.{most_bytes, IsNotUtf8At, without_mark};

/// The most bytes that are read at once: more than any file that is taken has. So each place, byte
/// and line fits a `u32`.
pub const MOST_BYTES: usize = 100_663_296;

/// The bytes as a text, or the first byte past the longest prefix that is UTF-8, from 0.
pub fn utf8_text(bytes: &[u8]) -> Result<&str, u32>
    requires { length bytes.now ≤ most_bytes }
    ensures { MatchResult result
        (λ text. IsUtf8 bytes.now × (text.now ≡ bytes.now))
        (IsNotUtf8At bytes.now) }
{
    match simdutf8::compat::from_utf8(bytes) {
        Ok(text) => Ok(text),
        Err(fault) => Err(fault.valid_up_to() as u32),
    }
}

/// The text without the one U+FEFF at its start, if it begins with one. A second one stays. Its
/// lines are those of `str::lines`: a line ends at LF, one CR before the LF isn't part of it, and
/// an empty rest after the last LF is none.
pub fn without_mark(text: &str) -> &str
    ensures text { result.now ≡ without_mark text.now }
    ensures no_longer { length result.now ≤ length text.now }
{
    text.strip_prefix('\u{FEFF}').unwrap_or(text)
}

/// The number of characters of a text.
pub fn count_characters(text: &str) -> u32
    requires { length text.now ≤ most_bytes }
    ensures { result ≡ length (chars text.now) }
{
    text.chars().count() as u32
}
