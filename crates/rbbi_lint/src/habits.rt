//! What is valid in a rule file and means something else in other languages.

use rbbi_lex::{Token, TokenKind, Tokens};
use std::alloc::{AllocError, Global};
use ucd_script::Script;

/// A status up to this number that directly follows an atom is reported as a likely repeat.
const MOST_REPEATS: u32 = 99;

/// What a rule file has that means something else than in regular expressions.
#[derive(Clone, Copy, PartialEq, Eq)]
pub enum Habit {
    /// A status directly after an atom, as in `[0-9]{3}`: it repeats nothing.
    Repeat(u32),
    /// `\b` outside of sets, which is U+0008.
    Backspace,
    /// A first line that is a comment and ends with `;`.
    Comment,
    /// A `.` beside digits, which is any character.
    AnyCharacter,
    /// `''''`, which is two quotes.
    TwoQuotes,
    /// A range whose ends are letters or digits of two kinds, as in `[A-z]`.
    MixedRange,
}

/// A habit, and its place in characters from 0.
#[derive(Clone, Copy, PartialEq, Eq)]
pub struct Found {
    pub habit: Habit,
    pub place: u32,
}

/// The characters of a text, and how many sets are open.
#[derive(Drop)]
struct Seen<'a> {
    characters: &'a [char],
    sets: u32,
}

/// The script of a letter, with ASCII letters and digits as kinds of their own. None for what isn't
/// of one script.
fn kind_of(c: char) -> Option<u32> {
    match c {
        '0'..='9' => Some(1000),
        'A'..='Z' => Some(1001),
        'a'..='z' => Some(1002),
        _ if c.is_ascii() => None,
        _ => match Script::for_char(c) {
            Script::Common | Script::Inherited | Script::Unknown => None,
            script => Some(script.number()),
        },
    }
}

/// Whether two characters are letters or digits of two kinds.
fn are_mixed(first: char, last: char) -> bool {
    match (kind_of(first), kind_of(last)) {
        (Some(first), Some(last)) => first != last,
        _ => false,
    }
}

/// Whether a name speaks of digits or numbers.
fn names_digits(name: &str) -> bool {
    name.contains("digit") || name.contains("Digit") || name.contains("num")
}

/// Whether a token, with the one after it, begins a part that matches digits.
fn begins_digits(token: &Token, next: Option<&Token>) -> bool {
    match &token.kind {
        TokenKind::Char { c, .. } => c.is_ascii_digit(),
        TokenKind::Name(name) => names_digits(name.as_str()),
        TokenKind::Prop { name, value, .. } => {
            let word = value.as_ref().unwrap_or(name);
            matches!(word.as_str(), "Nd" | "N" | "Number" | "Digit" | "digit")
        }
        TokenKind::SetOpen => match next {
            Some(next) => matches!(&next.kind, TokenKind::Char { c, .. } if c.is_ascii_digit()),
            None => false,
        },
        _ => false,
    }
}

/// The token with this number, if there is one.
fn token_at(tokens: &Tokens, i: usize) -> Option<&Token> {
    if i < tokens.len() {
        Some(tokens.get(i))
    } else {
        None
    }
}

impl Seen<'_> {
    /// Whether these characters stand at a place.
    fn has(&self, place: u32, spelling: &str) -> bool {
        let mut at = place as usize;
        for c in spelling.chars() {
            if self.characters.get(at) != Some(&c) {
                return false;
            }
            at = at.saturating_add(1);
        }
        true
    }

    /// Whether an atom ends directly before a place.
    fn follows_directly(&self, place: u32) -> bool {
        let Some(before) = place.checked_sub(1) else {
            return false;
        };
        match self.characters.get(before as usize) {
            Some(c) => !c.is_whitespace() && *c != ';',
            None => false,
        }
    }

    /// Whether the token with this number is a `.` beside digits that isn't repeated.
    fn is_any_beside_digits(&self, tokens: &Tokens, i: usize) -> bool {
        let Some(next) = token_at(tokens, i.saturating_add(1)) else {
            return false;
        };
        begins_digits(next, token_at(tokens, i.saturating_add(2)))
    }

    /// Whether the token with this number is the second of two quotes, `''` each.
    fn is_second_quote(&self, tokens: &Tokens, i: usize) -> bool {
        let (Some(before), Some(token)) = (i.checked_sub(1), token_at(tokens, i)) else {
            return false;
        };
        let Some(earlier) = token_at(tokens, before) else {
            return false;
        };
        matches!(&earlier.kind, TokenKind::Char { c: '\'', .. })
            && self.has(earlier.place, "''''")
            && token.place == earlier.place.saturating_add(2)
    }

    /// Whether the token with this number is the last end of a range of two kinds.
    fn ends_mixed_range(&self, tokens: &Tokens, i: usize, last: char) -> bool {
        let (Some(hyphen), Some(first)) = (i.checked_sub(1), i.checked_sub(2)) else {
            return false;
        };
        match (token_at(tokens, hyphen), token_at(tokens, first)) {
            (Some(hyphen), Some(first)) => match (&hyphen.kind, &first.kind) {
                (TokenKind::Hyphen, TokenKind::Char { c, .. }) => are_mixed(*c, last),
                _ => false,
            },
            _ => false,
        }
    }

    /// The habit that the character with this number shows, in a set or outside.
    fn habit_of_character(&self, tokens: &Tokens, i: usize, place: u32, c: char) -> Option<Found> {
        if self.sets > 0 {
            let first = token_at(tokens, i.checked_sub(2)?)?.place;
            let habit = Habit::MixedRange;
            return self.ends_mixed_range(tokens, i, c).then_some(Found {
                habit,
                place: first,
            });
        }
        if c == '\u{8}' && self.has(place, "\\b") {
            let habit = Habit::Backspace;
            return Some(Found { habit, place });
        }
        if c == '\'' && self.is_second_quote(tokens, i) {
            let habit = Habit::TwoQuotes;
            let place = place.saturating_sub(2);
            return Some(Found { habit, place });
        }
        None
    }

    /// The habit that the token with this number shows, if it does.
    fn habit_of(&self, tokens: &Tokens, i: usize, token: &Token) -> Option<Found> {
        let place = token.place;
        let habit = match &token.kind {
            TokenKind::Char { c, .. } => return self.habit_of_character(tokens, i, place, *c),
            TokenKind::Tag(n) if *n <= MOST_REPEATS && self.follows_directly(place) => {
                Habit::Repeat(*n)
            }
            TokenKind::Dot if self.is_any_beside_digits(tokens, i) => Habit::AnyCharacter,
            _ => return None,
        };
        Some(Found { habit, place })
    }

    /// Goes past a token.
    fn pass(&mut self, token: &Token) {
        match &token.kind {
            TokenKind::SetOpen => self.sets = self.sets.saturating_add(1),
            TokenKind::SetClose => self.sets = self.sets.saturating_sub(1),
            _ => {}
        }
    }
}

/// Whether the first line is a comment that ends as a rule does.
fn begins_with_comment(text: &str) -> bool {
    let line = match text.split_once('\n') {
        Some((line, _)) => line,
        None => text,
    };
    line.starts_with('#') && line.trim_end().ends_with(';')
}

/// The characters of a text.
fn characters_of(alloc: Global, text: &str) -> Result<Vec<char>, AllocError> {
    let mut characters = Vec::new(alloc);
    for c in text.chars() {
        characters.push(c)?;
    }
    Ok(characters)
}

/// What the tokens of a text show, by place.
fn shown_by(
    characters: &[char],
    tokens: &Tokens,
    found: &mut Vec<Found>,
) -> Result<(), AllocError> {
    let mut seen = Seen {
        characters,
        sets: 0,
    };
    for i in 0..tokens.len() {
        let token = tokens.get(i);
        if let Some(habit) = seen.habit_of(tokens, i, token) {
            found.push(habit)?;
        }
        seen.pass(token);
    }
    Ok(())
}

/// What a text and its tokens have that means something else in other languages.
pub(crate) fn habits_of(
    alloc: Global,
    text: &str,
    tokens: &Tokens,
) -> Result<Vec<Found>, AllocError> {
    let mut found = Vec::new(alloc);
    if begins_with_comment(text) {
        found.push(Found {
            habit: Habit::Comment,
            place: 0,
        })?;
    }
    let characters = characters_of(alloc, text)?;
    shown_by(characters.as_slice(), tokens, &mut found)?;
    Ok(found)
}
