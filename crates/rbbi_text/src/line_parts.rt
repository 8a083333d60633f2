//! Parts of a line of a file, as bytes.
ghost use Rattle.std.specs.Prelude.{◌≡◌, ◌==◌, ◌≤◌, length};
ghost use Rattle.std.specs.List.{before_first, list_all, position_or_len};
ghost use Rattle.rbbi_text.specs.LineParts as spec;

/// The first place of the byte, and the length where it has none.
pub fn place_or_len(text: &[u8], byte: u8) -> usize
    ensures place { result ≡ position_or_len (λ b. b == byte) text.now }
    ensures bound { result ≤ length text.now }
{
    for (place, found) in text.iter().enumerate() {
        if *found == byte {
            return place;
        }
    }
    text.len()
}

/// What stands before the first of this byte, and all where there is none.
pub fn before_byte(text: &[u8], byte: u8) -> &[u8]
    ensures bytes { result.now ≡ before_first (λ b. b == byte) text.now }
    ensures no_longer { length result.now ≤ length text.now }
{
    &text[..place_or_len(text, byte)]
}

/// Whether a byte is a space or a tab.
pub fn is_blank(byte: u8) -> bool
    ensures { result ≡ spec.is_blank byte }
{
    byte == b' ' || byte == b'\t'
}

/// Whether nothing but spaces and tabs stands before the first `#` of a line.
pub fn is_skipped(line: &[u8]) -> bool
    ensures { result ≡ spec.is_skipped line.now }
{
    are_blank(before_byte(line, b'#'))
}

fn are_blank(text: &[u8]) -> bool
    ensures { result ≡ list_all spec.is_blank text.now }
{
    text.iter().all(|byte| is_blank(*byte))
}

/// The text without the spaces and tabs at its start.
pub fn trim_start(text: &[u8]) -> &[u8]
    ensures { result.now ≡ spec.trim_start text.now }
{
    let mut start = 0;
    while start < text.len() && is_blank(text[start]) {
        start += 1;
    }
    &text[start..]
}

/// The text without the spaces and tabs at its end.
fn trim_end(text: &[u8]) -> &[u8]
    ensures { result.now ≡ spec.trim_end text.now }
{
    let mut end = text.len();
    while end > 0 && is_blank(text[end - 1]) {
        end -= 1;
    }
    &text[..end]
}

/// The text without the spaces and tabs round it.
pub fn trim(text: &[u8]) -> &[u8]
    ensures { result.now ≡ spec.trim text.now }
{
    trim_end(trim_start(text))
}
