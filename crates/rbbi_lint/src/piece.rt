//! Pieces of a rule file that can be left out.

/// What a piece of a rule file is.
#[derive(Clone, Copy, PartialEq, Eq)]
pub enum Part {
    /// A rule up to its `;`.
    Rule,
    /// An alternative with the `|` that joins it.
    Alternative,
    /// A part of a set: a character, a range, a name, a property or a set, with the operator before
    /// it.
    Member,
}

/// A piece of a rule file, from a place up to another, in characters from 0.
#[derive(Clone, Copy, PartialEq, Eq)]
pub struct Piece {
    pub part: Part,
    pub from: u32,
    pub to: u32,
}
