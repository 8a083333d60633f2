//! How far the boundaries of a text were given.

/// Why no more boundaries were given.
#[derive(Clone, Copy, PartialEq, Eq)]
pub enum Stop {
    /// The text ends there.
    End,
    /// There was no room for more.
    Room,
    /// The next search reads on past what is there of the text.
    More,
    /// The next search reads units that spell no character: the first of them, from 0.
    Fault(usize),
    /// The next search reads on past 16,777,216 characters.
    Far,
    /// Memory ran out.
    Memory,
}

/// What is asked for.
#[derive(Clone, Copy)]
pub(crate) struct Asked {
    /// Whether segments that are words alone are.
    pub(crate) only_words: bool,
    /// The number of units that stand before these.
    pub(crate) origin: u64,
}

/// How far the boundaries of a text were given.
#[derive(Clone, Copy, PartialEq, Eq)]
pub struct Reached {
    /// How many were written.
    pub count: usize,
    /// The last boundary that was found, or where the call began: the place to go on from.
    pub resume: usize,
    /// Why no more were given.
    pub stop: Stop,
}
