//! Texts in UTF-16.
ghost use Rattle.std.specs.Prelude.{◌≡◌, ◌+◌, ◌<◌, ◌≤◌, ◌++◌, length, drop, MatchOption, IsSomeAnd};
ghost use Rattle.std.specs.Char.{InScalarRange};
ghost use Rattle.std.specs.Char.Escape.{encode_utf16};
ghost use Rattle.rbbi_model.specs.declared.unit.Unit.TheVariants.{Utf16};
ghost use Rattle.rbbi_model.specs.Words.{IsCharacter};
ghost use Rattle.rbbi_scan.specs.Spelled.{BeginWithNone};

use crate::source::{Decoded, Source};

/// The units of a text.
#[derive(Drop)]
pub(crate) struct Utf16Text<'a> {
    pub(crate) units: &'a [u16],
}

/// A character, and where the next one begins.
#[derive(Clone, Copy)]
struct Next {
    c: char,
    at: usize,
}

/// The character of a code, and where the next one begins.
fn char_of(code: u32, at: usize) -> Option<Next>
    requires { InScalarRange code }
    ensures { IsSomeAnd result (λ next. (next.c ≡ code) × (next.at ≡ at)) }
{
    match char::from_u32(code) {
        Some(c) => Some(Next { c, at }),
        None => None,
    }
}

/// The character whose units begin at a place, or none at a surrogate that is alone.
fn char_at(units: &[u16], at: usize) -> Option<Next>
    requires { at < length units.now }
    ensures { MatchOption result (BeginWithNone Utf16 (drop at units.now)) (λ next.
        IsCharacter next.c × (next.at ≡ at + length (encode_utf16 next.c))
        × (drop at units.now ≡ encode_utf16 next.c ++ drop next.at units.now)) }
{
    let high = u32::from(units[at]);
    if high < 0xD800 {
        return char_of(high, at + 1);
    }
    if 0xE000 <= high {
        return char_of(high, at + 1);
    }
    if 0xDC00 <= high {
        return None;
    }
    if units.len() - at < 2 {
        return None;
    }
    let low = u32::from(units[at + 1]);
    if low < 0xDC00 {
        return None;
    }
    if 0xE000 <= low {
        return None;
    }
    char_of(0x10000 + (high - 0xD800) * 0x400 + (low - 0xDC00), at + 2)
}

impl Source for Utf16Text<'_> {
    ghost unit = { Utf16 };

    ghost units = { λ source. source.units.now };

    fn len(&self) -> usize {
        self.units.len()
    }

    fn decode(&self, from: usize, chars: &mut [char], ends: &mut [u32]) -> Decoded {
        let units = &self.units[from..];
        let mut decoded = Decoded::NONE;
        while decoded.count < chars.len() && decoded.used < units.len() {
            let next = match char_at(units, decoded.used) {
                Some(next) => next,
                None => return decoded,
            };
            chars[decoded.count] = next.c;
            ends[decoded.count] = next.at as u32;
            decoded = Decoded {
                count: decoded.count + 1,
                used: next.at,
            };
        }
        decoded
    }
}
