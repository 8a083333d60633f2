//! Where a ; or a closing bracket is missing, or a status was meant as a repeat, if a rule file can't
//! go on at a place.
ghost use Rattle.std.specs.Prelude.{◌≤◌, length};
ghost use Rattle.rbbi_text.specs.Bytes.{most_bytes};

use crate::fault_texts::{FaultText, NO_REPEAT, NO_SEMICOLON, OPEN_GROUP, OPEN_SET};
use crate::source::position_of;
use rbbi_lex::{Token, TokenKind, Tokens, lex};
use rbbi_text::MOST_BYTES;
use std::alloc::{AllocError, Global};

/// What stands before a place.
#[derive(Drop)]
struct Before<'a> {
    /// The brackets that are open.
    open: Vec<&'a Token>,
    /// The last token, and the one before it.
    last: Option<&'a Token>,
    earlier: Option<&'a Token>,
    /// The last token of the lines before, if the statement goes on in the line of the place with
    /// what may begin a statement.
    line_end: Option<&'a Token>,
}

/// Whether a statement may begin with a token outside of sets.
fn begins(token: &Token) -> bool {
    match &token.kind {
        TokenKind::Semi | TokenKind::Equals | TokenKind::Bar | TokenKind::Slash => false,
        TokenKind::Star | TokenKind::Plus | TokenKind::Quest => false,
        TokenKind::ParenClose | TokenKind::Tag(_) => false,
        _ => true,
    }
}

/// Whether a statement may end with a token outside of sets.
fn ends(token: &Token) -> bool {
    match &token.kind {
        TokenKind::Semi | TokenKind::Equals | TokenKind::Bar | TokenKind::Slash => false,
        TokenKind::Caret | TokenKind::ParenOpen => false,
        _ => true,
    }
}

impl<'a> Before<'a> {
    /// Goes past a token. The line of the place begins at `line`.
    fn pass(&mut self, token: &'a Token, line: u32) -> Result<(), AllocError> {
        self.cross(token, line);
        match &token.kind {
            TokenKind::ParenOpen | TokenKind::SetOpen => self.open.push(token)?,
            TokenKind::ParenClose | TokenKind::SetClose => {
                let _ = self.open.pop();
            }
            TokenKind::Semi => self.line_end = None,
            _ => {}
        }
        self.earlier = self.last;
        self.last = Some(token);
        Ok(())
    }

    /// Notes the end of the lines before, if the token is the first one of the line.
    fn cross(&mut self, token: &Token, line: u32) {
        if let Some(last) = self.last
            && last.place < line
            && line <= token.place
            && begins(token)
        {
            self.line_end = Some(last);
        }
    }

    /// The token after which a `;` is missing before a token, or before the end of the text.
    fn unended(&self, found: Option<&Token>) -> Option<&'a Token> {
        let last = self.last?;
        if !self.open.is_empty() {
            return None;
        }
        let Some(found) = found else {
            return Some(last);
        };
        match (&last.kind, &found.kind) {
            (TokenKind::Control(_), _) => Some(last),
            (TokenKind::Tag(_), TokenKind::Tag(_)) => None,
            (TokenKind::Name(_), TokenKind::Equals) => self.earlier,
            (_, TokenKind::Control(_)) => Some(last),
            (_, TokenKind::Caret | TokenKind::Tag(_) | TokenKind::Slash) => self.line_end,
            _ => match self.line_end {
                Some(end) if end.place == last.place => Some(end),
                _ => None,
            },
        }
    }

    /// The bracket that isn't closed before a token, or before the end of the text.
    fn unclosed(&self, found: Option<&Token>) -> Option<&'a Token> {
        let open = *self.open.last()?;
        let last = self.last?;
        match (&open.kind, found) {
            (_, None) => Some(open),
            (TokenKind::ParenOpen, Some(found)) if ends(last) => match &found.kind {
                TokenKind::Semi | TokenKind::Tag(_) => Some(open),
                _ => None,
            },
            _ => None,
        }
    }

    /// The status right before a token, if it directly follows an atom of its line.
    fn repeat(&self, text: &str, found: Option<&Token>) -> Option<&'a Token> {
        let last = self.last?;
        let before = last.place.checked_sub(1)?;
        let is_at_line_end = self.line_end.is_some_and(|end| end.place == last.place);
        if found.is_none() || is_at_line_end {
            return None;
        }
        match (&last.kind, text.chars().nth(before as usize)) {
            (TokenKind::Tag(_), Some(c)) if !c.is_whitespace() && c != ';' => Some(last),
            _ => None,
        }
    }
}

/// Goes to a place, in whose line the first character is at `line`. Answers the token there too.
fn go_to<'a>(
    alloc: Global,
    tokens: &'a Tokens,
    line: u32,
    place: u32,
) -> Result<(Before<'a>, Option<&'a Token>), AllocError> {
    let mut before = Before {
        open: Vec::new(alloc),
        last: None,
        earlier: None,
        line_end: None,
    };
    for i in 0..tokens.len() {
        let token = tokens.get(i);
        if place <= token.place {
            before.cross(token, line);
            return Ok((before, Some(token)));
        }
        before.pass(token, line)?;
    }
    Ok((before, None))
}

/// Where something is missing and what, if a rule file can't go on at a place.
pub(crate) fn missing_at(
    alloc: Global,
    text: &str,
    place: u32,
) -> Result<Option<(u32, FaultText)>, AllocError>
    requires { length text.now ≤ most_bytes }
{
    let Ok(tokens) = lex(alloc, text) else {
        return Ok(None);
    };
    let column = position_of(text, place).column;
    let line = place.saturating_add(1).saturating_sub(column);
    let (before, found) = go_to(alloc, &tokens, line, place)?;
    if let Some(open) = before.unclosed(found) {
        let is_set = matches!(&open.kind, TokenKind::SetOpen);
        let text = if is_set { OPEN_SET } else { OPEN_GROUP };
        return Ok(Some((open.place, text)));
    }
    if let Some(token) = before.repeat(text, found) {
        return Ok(Some((token.place, NO_REPEAT)));
    }
    match before.unended(found) {
        Some(token) if ends(token) => Ok(Some((token.place, NO_SEMICOLON))),
        _ => Ok(None),
    }
}

/// Whether a status begins a text, and no set is closed after it in its statement.
fn begins_status(text: &str) -> bool {
    let Some((body, rest)) = text.split_once('}') else {
        return false;
    };
    let Some(digits) = body.strip_prefix('{') else {
        return false;
    };
    let statement = match rest.split_once(';') {
        Some((statement, _)) => statement,
        None => rest,
    };
    let is_number = !digits.is_empty() && digits.bytes().all(|byte| byte.is_ascii_digit());
    is_number && !statement.contains(']')
}

/// The characters before a place.
fn text_before(alloc: Global, text: &str, place: u32) -> Result<String, AllocError> {
    let mut made = String::new(alloc);
    for c in text.chars().take(place as usize) {
        made.push(c)?;
    }
    Ok(made)
}

/// The place of the last set that is open after all these tokens.
fn last_open_set(alloc: Global, tokens: &Tokens) -> Result<Option<u32>, AllocError> {
    let mut open = Vec::new(alloc);
    for i in 0..tokens.len() {
        let token = tokens.get(i);
        match &token.kind {
            TokenKind::SetOpen => open.push(token.place)?,
            TokenKind::SetClose => {
                let _ = open.pop();
            }
            _ => {}
        }
    }
    Ok(open.last().copied())
}

/// The set that isn't closed before the status that stands at a place, if one does.
pub(crate) fn open_set_at(
    alloc: Global,
    text: &str,
    place: u32,
) -> Result<Option<(u32, FaultText)>, AllocError> {
    if !begins_status(position_of(text, place).rest) {
        return Ok(None);
    }
    let before = text_before(alloc, text, place)?;
    if before.len() > MOST_BYTES {
        return Ok(None);
    }
    let Ok(tokens) = lex(alloc, before.as_str()) else {
        return Ok(None);
    };
    match last_open_set(alloc, &tokens)? {
        Some(place) => Ok(Some((place, OPEN_SET))),
        None => Ok(None),
    }
}
