//! The lines on which rules stand, and their texts.

use rbbi_resolve::Rules;
use std::alloc::{AllocError, Global};

/// At most this many characters of a rule are kept.
const MOST: u32 = 160;

/// At most this many characters of the comment after a rule are kept, spaces not counted.
const MOST_OF_NOTE: u32 = 40;

/// A rule as its file has it.
#[derive(Drop)]
pub struct RuleText {
    /// The line of its first token, from 1. Lines end at LF.
    pub line: u32,
    /// The rule up to its `;`, without comments and with one space for white space that is outside
    /// of quotes. Of a rule of more than 160 characters the first ones, and then ` ..`.
    pub text: String,
    /// The comment that follows the `;` in its line, without its `#` and the space round it. Of a
    /// comment of more than 40 characters, spaces not counted, the first ones, and then ` ..`.
    pub note: String,
}

/// What of a rule was gone over.
#[derive(Drop)]
struct Scan {
    made: RuleText,
    /// How many characters of the rule were kept.
    count: u32,
    /// How many of its comment were.
    noted: u32,
    /// How many sets are open.
    sets: u32,
    is_quoted: bool,
    is_escaped: bool,
    is_comment: bool,
    /// Whether white space was left out since the last character.
    is_apart: bool,
    is_over: bool,
}

/// Whether it is white space (Pattern_White_Space, UAX #31).
fn is_space(c: char) -> bool {
    matches!(
        c,
        '\t'..='\r' | ' ' | '\u{85}' | '\u{200E}' | '\u{200F}' | '\u{2028}' | '\u{2029}'
    )
}

/// Whether a comment ends here.
fn ends_comment(c: char) -> bool {
    matches!(c, '\n' | '\r' | '\u{85}' | '\u{2028}')
}

impl Scan {
    /// That of a rule that begins on a line.
    fn new(alloc: Global, line: u32) -> Scan {
        let text = String::new(alloc);
        let note = String::new(alloc);
        Scan {
            made: RuleText { line, text, note },
            count: 0,
            noted: 0,
            sets: 0,
            is_quoted: false,
            is_escaped: false,
            is_comment: false,
            is_apart: false,
            is_over: false,
        }
    }

    /// Adds a character, or ` ..` in place of the first of too many.
    fn add(&mut self, c: char) -> Result<(), AllocError> {
        let is_apart = self.is_apart && self.count > 0;
        self.is_apart = false;
        if self.count > MOST {
            return Ok(());
        }
        self.count += 1;
        if self.count > MOST {
            return self.made.text.push_str(" ..");
        }
        if is_apart {
            self.made.text.push(' ')?;
        }
        self.made.text.push(c)
    }

    /// Adds a character to the comment, or ` ..` in place of the first of too many.
    fn add_to_note(&mut self, c: char) -> Result<(), AllocError> {
        let is_apart = self.is_apart && self.noted > 0;
        self.is_apart = false;
        if self.noted > MOST_OF_NOTE {
            return Ok(());
        }
        self.noted += 1;
        if self.noted > MOST_OF_NOTE {
            return self.made.note.push_str(" ..");
        }
        if is_apart {
            self.made.note.push(' ')?;
        }
        self.made.note.push(c)
    }

    /// Goes over a character after the `;`.
    fn take_after(&mut self, c: char) -> Result<(), AllocError> {
        if is_space(c) {
            self.is_apart = true;
            return Ok(());
        }
        if self.is_comment {
            return self.add_to_note(c);
        }
        self.is_comment = true;
        Ok(())
    }

    /// Whether the rule and its comment end before a character.
    fn is_done_before(&self, c: char) -> bool {
        self.is_over && (ends_comment(c) || !self.is_comment && c != '#' && !is_space(c))
    }

    /// Notes what a character that is in no quotes and no comment begins or ends.
    fn note(&mut self, c: char) {
        match c {
            '\\' => self.is_escaped = true,
            '[' => self.sets = self.sets.saturating_add(1),
            ']' => self.sets = self.sets.saturating_sub(1),
            '\'' => self.is_quoted = self.sets == 0,
            ';' => self.is_over = self.sets == 0,
            _ => {}
        }
    }

    /// Goes over a character.
    fn take(&mut self, c: char) -> Result<(), AllocError> {
        if self.is_over {
            return self.take_after(c);
        }
        if self.is_escaped {
            self.is_escaped = false;
        } else if self.is_quoted {
            self.is_quoted = c != '\'';
        } else if self.is_comment {
            self.is_comment = !ends_comment(c);
            return Ok(());
        } else if is_space(c) {
            self.is_apart = true;
            return Ok(());
        } else if c == '#' && self.sets == 0 {
            self.is_comment = true;
            self.is_apart = true;
            return Ok(());
        } else {
            self.note(c);
        }
        self.add(c)
    }
}

/// The lines and the texts of rules, in their order, in the text of the file that they were read
/// from.
pub fn rule_texts(alloc: Global, text: &str, rules: &Rules) -> Result<Vec<RuleText>, AllocError> {
    let mut texts = Vec::new(alloc);
    let mut line: u32 = 1;
    let mut place: u32 = 0;
    let mut open: Option<Scan> = None;
    for c in text.chars() {
        if let Some(scan) = open.take() {
            open = kept_or_done(scan, c, &mut texts)?;
        }
        if open.is_none() && is_at(rules, texts.len(), place) {
            open = Some(Scan::new(alloc, line));
        }
        if let Some(mut scan) = open.take() {
            scan.take(c)?;
            open = Some(scan);
        }
        if c == '\n' {
            line = line.saturating_add(1);
        }
        place = place.saturating_add(1);
    }
    if let Some(scan) = open {
        let _ = kept_or_done(scan, '\n', &mut texts)?;
    }
    Ok(texts)
}

/// The scan of a rule, if it isn't done before a character. What is done is added to the texts.
fn kept_or_done(
    scan: Scan,
    c: char,
    texts: &mut Vec<RuleText>,
) -> Result<Option<Scan>, AllocError> {
    if !scan.is_done_before(c) {
        return Ok(Some(scan));
    }
    texts.push(scan.made)?;
    Ok(None)
}

/// Whether the rule with this number stands at a place.
fn is_at(rules: &Rules, number: usize, place: u32) -> bool {
    number < rules.len() && rules.get(number).place == place
}
