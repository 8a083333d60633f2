//! Pairs of characters.

/// A character, and the one that it is turned into.
#[derive(Clone, Copy)]
pub struct Pair {
    /// The character of the text.
    pub from: char,
    /// The character in its place, when boundaries are looked for.
    pub to: char,
}
