//! What is answered of a segment.

/// A part of a segment that a rule took, with the number of the rule in the file, from 0. Places
/// are in characters from 0. It begins with the last character of the part before.
#[derive(Clone, Copy)]
pub struct Part {
    pub rule: u32,
    pub start: u32,
    pub end: u32,
}

/// Why a segment ends where it does.
#[derive(Clone, Copy)]
pub enum Reason {
    /// It is the longest match.
    LongestMatch,
    /// A look-ahead rule cuts it there, whose match is complete at a later place.
    Cut { rule: u32, complete: u32 },
    /// No rule matches, so it is one character.
    OneCharacter,
}

/// A rule with a status number that ends where the segment has its statuses from: at its end, or
/// where a look-ahead rule is complete. The last match of its chain begins at `start`.
#[derive(Clone, Copy)]
pub struct Origin {
    pub status: u32,
    pub rule: u32,
    pub start: u32,
}

/// Why a segment is one.
#[derive(Drop)]
pub struct Explanation {
    /// Where the segment ends by the rules.
    pub end: u32,
    pub reason: Reason,
    /// The parts in the order in which the rules chain; none if no rule matches. The first begins
    /// where the segment does, and the last ends with it.
    pub parts: Vec<Part>,
    /// The largest status first, and of one status the first rule of the file first.
    pub origins: Vec<Origin>,
}
