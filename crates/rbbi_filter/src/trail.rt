//! The characters before a place that goes on through a text.
ghost use Rattle.std.specs.Prelude.{◌≡◌, ◌-◌, ◌≤◌, ℕ, List, length, min};
ghost use Rattle.rbbi_text.specs.Steps.{RisesUpTo};
ghost use Rattle.rbbi_filter.specs.Abbreviations.{window, window_size};
ghost use Rattle.rbbi_filter.specs.inner.Trails.{IsTrail};

use crate::window::SIZE;
use rbbi_text::{Chars, Near, Steps};
use std::sync::ledger::Ledger;

/// The last 64 characters before a place, or all of them if there are fewer.
#[derive(Drop)]
pub(crate) struct Trail {
    at: u32,
    /// The last one stands last.
    chars: [char; SIZE],
}

impl Trail {
    /// None, before the start of any text.
    pub(crate) fn start() -> Trail
        ensures at { result.at ≡ 0 }
        ensures is { (x : List ℕ) → IsTrail x result }
    {
        Trail {
            at: 0,
            chars: ['\0'; SIZE],
        }
    }

    /// Goes on to a place of the text. It reads only characters that come after the place before.
    pub(crate) fn go_on<T: Chars, L: Ledger>(&mut self, text: &T, at: u32, steps: &mut Steps<L>)
        requires order { self.old.at ≤ at }
        requires within { at ≤ length (T.characters text.now) }
        requires is { IsTrail (T.characters text.now) self.old }
        ensures at { self.new.at ≡ at }
        ensures is { IsTrail (T.characters text.now) self.new }
        ensures read { RisesUpTo (min window_size (at - self.old.at)) steps.old steps.new }
    {
        let near = Near::new(text, at);
        let count = SIZE.min((at - self.at) as usize);
        let chars = &mut self.chars;
        for k in 0..SIZE {
            chars[k] = if k + count < SIZE {
                chars[k + count]
            } else {
                near.char_at(at - (SIZE - k) as u32, steps)
            };
        }
        self.at = at;
    }

    /// The characters.
    pub(crate) fn chars(&self) -> &[char]
        ensures { (x : List ℕ) → IsTrail x self.now → self.now.at ≤ length x →
            result.now ≡ window x self.now.at }
    {
        &self.chars[SIZE - SIZE.min(self.at as usize)..]
    }
}
