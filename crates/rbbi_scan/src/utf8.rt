//! Texts in UTF-8.
ghost use Rattle.std.specs.Prelude.{◌≡◌, ◌+◌, ◌<◌, ◌≤◌, length, take, drop, IsTrue, IsUtf8};
ghost use Rattle.std.specs.Str.{IsAscii};
ghost use Rattle.rbbi_model.specs.declared.unit.Unit.TheVariants.{Utf8};
ghost use Rattle.rbbi_model.specs.Words.{most_characters};
ghost use Rattle.rbbi_scan.specs.Spelled.{BeginWithNone};
ghost use Rattle.rbbi_scan.specs.Decoded.{IsDecoded};

use crate::source::{Decoded, Source};

/// So many bytes are decoded at once where all are ASCII.
const BLOCK: usize = 64;

/// So many bytes are checked and decoded one by one where some aren't, before it is asked again. One
/// character of another script among many of ASCII costs no more than a block.
const CHECKED: usize = 64;

/// The bytes of a text.
#[derive(Drop)]
pub(crate) struct Utf8Text<'a> {
    pub(crate) bytes: &'a [u8],
}

/// Whether all bytes are ASCII. It reads them all, so that many are compared at once.
fn is_ascii(bytes: &[u8]) -> bool
    ensures { IsTrue result → IsAscii bytes.now }
{
    let mut greatest = 0u8;
    for byte in bytes {
        greatest = greatest.max(*byte);
    }
    greatest < 128
}

/// The text of so many bytes.
fn front_up_to(bytes: &[u8], end: usize) -> &str
    requires within { end ≤ length bytes.now }
    requires utf8 { IsUtf8 (take end bytes.now) }
    ensures text { result.now ≡ take end bytes.now }
{
    unsafe { std::str::from_utf8_unchecked(&bytes[..end]) }
}

/// The longest text that the first so many bytes begin with; at least four of them are looked at.
fn front_of(bytes: &[u8], most: usize) -> &str
    ensures front { result.now ≡ take (length result.now) bytes.now }
    ensures none { length result.now ≡ 0 → BeginWithNone Utf8 bytes.now }
{
    let block = &bytes[..bytes.len().min(most.max(4))];
    match simdutf8::compat::from_utf8(block) {
        Ok(text) => text,
        Err(fault) => front_up_to(block, fault.valid_up_to()),
    }
}

/// Decodes so many bytes after what was decoded, which are ASCII.
fn decode_ascii(
    bytes: &[u8],
    len: usize,
    chars: &mut [char],
    ends: &mut [u32],
    decoded: Decoded,
) -> Decoded
    requires room { length ends.old ≡ length chars.old }
    requires few { length chars.old ≤ most_characters }
    requires decoded { IsDecoded Utf8 bytes.now chars.old ends.old decoded.count decoded.used }
    requires fit { decoded.count + len ≤ length chars.old }
    requires within { decoded.used + len ≤ length bytes.now }
    requires ascii { IsAscii (take len (drop decoded.used bytes.now)) }
    ensures decoded { IsDecoded Utf8 bytes.now chars.new ends.new result.count result.used }
    ensures progress { result.used ≡ decoded.used + len }
{
    let (count, used) = (decoded.count, decoded.used);
    for k in 0..len {
        chars[count + k] = bytes[used + k] as char;
        ends[count + k] = (used + k + 1) as u32;
    }
    Decoded {
        count: count + len,
        used: used + len,
    }
}

/// Decodes a text after what was decoded, as far as there is room.
fn decode_text(
    bytes: &[u8],
    text: &str,
    chars: &mut [char],
    ends: &mut [u32],
    decoded: Decoded,
) -> Decoded
    requires room { length ends.old ≡ length chars.old }
    requires few { length chars.old ≤ most_characters }
    requires decoded { IsDecoded Utf8 bytes.now chars.old ends.old decoded.count decoded.used }
    requires text { text.now ≡ take (length text.now) (drop decoded.used bytes.now) }
    ensures decoded { IsDecoded Utf8 bytes.now chars.new ends.new result.count result.used }
    ensures progress { 0 < length text.now → decoded.count < length chars.old →
        decoded.used < result.used }
{
    let mut left = text.chars();
    let mut now = decoded;
    while now.count < chars.len() {
        let Some(c) = left.next() else {
            return now;
        };
        let used = now.used + c.len_utf8();
        chars[now.count] = c;
        ends[now.count] = used as u32;
        now = Decoded {
            count: now.count + 1,
            used,
        };
    }
    now
}

impl Source for Utf8Text<'_> {
    ghost unit = { Utf8 };

    ghost units = { λ source. source.bytes.now };

    fn len(&self) -> usize {
        self.bytes.len()
    }

    fn decode(&self, from: usize, chars: &mut [char], ends: &mut [u32]) -> Decoded {
        let bytes = &self.bytes[from..];
        let mut decoded = Decoded::NONE;
        while decoded.count < chars.len() && decoded.used < bytes.len() {
            let rest = &bytes[decoded.used..];
            let len = BLOCK.min(rest.len()).min(chars.len() - decoded.count);
            if is_ascii(&rest[..len]) {
                decoded = decode_ascii(bytes, len, chars, ends, decoded);
                continue;
            }
            let text = front_of(rest, CHECKED);
            if text.is_empty() {
                return decoded;
            }
            decoded = decode_text(bytes, text, chars, ends, decoded);
        }
        decoded
    }
}
