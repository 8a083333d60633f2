//! The characters before a boundary, by which it may be suppressed.
ghost use Rattle.std.specs.Prelude.{◌≡◌, ◌≤◌, length, drop};
ghost use Rattle.rbbi_text.specs.Steps.{RisesUpTo};
ghost use Rattle.rbbi_filter.specs.Abbreviations as spec;
ghost use Rattle.rbbi_filter.specs.Abbreviations.{window_size};
ghost use Rattle.rbbi_filter.specs.inner.Windows.{IsEnough};

use crate::Lists;
use rbbi_text::{Chars, Steps};
use std::sync::ledger::Ledger;

/// How many characters before a boundary are looked at.
pub(crate) const SIZE: usize = 64;

/// Reads the characters before a place, from the last one on, into the window's end: those without
/// the spaces at their end, as many as tell whether an abbreviation of at most `longest` characters
/// stands there. The answer is where they begin in the window.
fn read_before<T: Chars, L: Ledger>(
    text: &T,
    at: u32,
    longest: usize,
    window: &mut [char; SIZE],
    steps: &mut Steps<L>,
) -> usize
    requires { at ≤ length (T.characters text.now) }
    ensures within { result ≤ window_size }
    ensures enough { IsEnough longest (spec.window (T.characters text.now) at)
        (drop result window.new) }
    ensures read { RisesUpTo window_size steps.old steps.new }
{
    let low = at.saturating_sub(SIZE as u32);
    let mut place = at;
    let mut first = SIZE;
    while place > low && SIZE - first <= longest {
        place -= 1;
        let c = text.char_at(place, steps);
        if first < SIZE || c != ' ' {
            first -= 1;
            window[first] = c;
        }
    }
    first
}

/// Whether a boundary isn't reported since an abbreviation stands before it: it is neither the
/// text's start nor its end, and the characters before it, at most 64, end with one. These are read
/// at most once.
pub(crate) fn is_suppressed<T: Chars, A: Lists, L: Ledger>(
    text: &T,
    at: u32,
    held: &A,
    steps: &mut Steps<L>,
) -> bool
    requires { at ≤ length (T.characters text.now) }
    ensures exact { result ≡ spec.is_suppressed (A.list_of held.now) (T.characters text.now) at }
    ensures cost { RisesUpTo window_size steps.old steps.new }
{
    if at == 0 || at == text.len() {
        return false;
    }
    let mut window = ['\0'; SIZE];
    let first = read_before(text, at, held.list().longest(), &mut window, steps);
    held.ends(&window[first..])
}
