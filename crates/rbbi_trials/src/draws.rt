//! Numbers, texts and edits that are drawn by a fixed seed.

use std::alloc::Global;
use std::process::Abort;

/// A generator of numbers, and the characters of the texts that it draws.
#[derive(Clone, Copy)]
pub(crate) struct Draws<'a> {
    state: u64,
    alphabet: &'a [char],
}

/// An edit: so many characters are taken away from a place on, and a string stands there then.
#[derive(Drop)]
pub(crate) struct Edit {
    pub(crate) at: u32,
    pub(crate) remove: u32,
    pub(crate) insert: String,
}

impl<'a> Draws<'a> {
    pub(crate) fn new(seed: u64, alphabet: &'a [char]) -> Draws<'a> {
        Draws {
            state: seed,
            alphabet,
        }
    }

    /// A number below 2^31.
    fn draw(&mut self) -> u64 {
        let state = self.state.wrapping_mul(6_364_136_223_846_793_005);
        self.state = state.wrapping_add(1_442_695_040_888_963_407);
        self.state >> 33
    }

    /// A number below a limit, or 0 where that is 0.
    pub(crate) fn below(&mut self, limit: u32) -> u32 {
        (self.draw() % u64::from(limit.max(1))) as u32
    }

    /// So many characters of the alphabet.
    pub(crate) fn text(&mut self, rt: &impl Abort, alloc: Global, len: u32) -> String {
        let size = self.alphabet.len().min(1000) as u32;
        let mut text = String::new(alloc);
        for _ in 0..len {
            let number = self.below(size) as usize;
            let letter = self.alphabet.get(number).copied().unwrap_or('?');
            text.push(letter).expect(rt, "a letter");
        }
        text
    }

    /// An edit at a place within a text of this length, at its end or past it.
    pub(crate) fn edit(&mut self, rt: &impl Abort, alloc: Global, len: u32) -> Edit {
        let most = if self.below(8) == 0 { 60 } else { 4 };
        let at = self.below(len.saturating_add(3));
        let remove = self.below(most);
        let many = self.below(most);
        let insert = self.text(rt, alloc, many);
        Edit { at, remove, insert }
    }
}
