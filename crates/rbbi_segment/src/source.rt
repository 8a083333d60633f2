//! The line in which a place of a rule file stands.

/// A place, and the line in which it stands.
#[derive(Clone, Copy)]
pub(crate) struct Position<'a> {
    /// The line, from 1. Lines end at LF.
    pub(crate) row: u32,
    /// The character in its line, from 1.
    pub(crate) column: u32,
    /// What the line holds, without its end.
    pub(crate) line: &'a str,
    /// The character before the place in its line, but for white space.
    pub(crate) last: Option<char>,
    /// What the line holds from the place on.
    pub(crate) rest: &'a str,
}

/// The position of a column of a line, both from 1.
fn position_in(line: &str, row: u32, column: u32) -> Position<'_> {
    let line = line.strip_suffix('\r').unwrap_or(line);
    let mut characters = line.chars();
    let mut last = None;
    for _ in 1..column {
        match characters.next() {
            Some(c) if !c.is_whitespace() => last = Some(c),
            _ => {}
        }
    }
    Position {
        row,
        column,
        line,
        last,
        rest: characters.as_str(),
    }
}

/// Where a place of the text stands, in characters from 0. A place past the end counts as the end.
pub(crate) fn position_of(text: &str, place: u32) -> Position<'_> {
    let mut row: u32 = 1;
    let mut left = place;
    for line in text.split('\n') {
        let count = line.chars().count();
        if left as usize <= count {
            return position_in(line, row, left.saturating_add(1));
        }
        left -= count as u32 + 1;
        row = row.saturating_add(1);
    }
    position_in("", row, 1)
}
