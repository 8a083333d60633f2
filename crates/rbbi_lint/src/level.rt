//! Brackets that are open while the pieces of a rule file are found.

/// What the last token of a set was.
#[derive(Clone, Copy, PartialEq, Eq)]
pub(crate) enum Last {
    /// The opening bracket, or a `^` after it.
    Opening,
    /// A character, which may begin a range.
    Character,
    /// The `-` of a range.
    Hyphen,
    /// The `-` or `&` before an operand.
    Operator,
    /// Anything else.
    Other,
}

/// A set that is open.
#[derive(Clone, Copy)]
pub(crate) struct OpenSet {
    pub last: Last,
    /// Where the part begins that stands last, with the operator before it.
    pub member: Option<u32>,
    /// How many parts it has so far.
    pub parts: u32,
}

impl OpenSet {
    /// A set whose bracket was just opened.
    pub const NEW: OpenSet = OpenSet {
        last: Last::Opening,
        member: None,
        parts: 0,
    };

    /// Goes past the first token of a part, which stands at this place. An operator before it is
    /// of the part.
    pub fn begin(&mut self, place: u32, last: Last) {
        if self.last != Last::Operator {
            self.member = Some(place);
        }
        self.last = last;
        self.parts = self.parts.saturating_add(1);
    }

    /// Goes past the operator before a part, which stands at this place.
    pub fn join(&mut self, place: u32) {
        self.last = Last::Operator;
        self.member = Some(place);
    }
}

/// Alternatives that are open: those of a statement, or of a group in round brackets.
#[derive(Clone, Copy)]
pub(crate) struct OpenGroup {
    /// Where the last alternative begins, with the `|` before it.
    pub from: u32,
    /// Whether a `|` stands before it.
    pub is_later: bool,
}

/// What is open.
#[derive(Clone, Copy)]
pub(crate) enum Level {
    Group(OpenGroup),
    Set(OpenSet),
}
