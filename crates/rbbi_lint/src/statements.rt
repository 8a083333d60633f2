//! The statements of a rule file, and which of them the active rules need.

use rbbi_lex::{Token, TokenKind, Tokens};
use rbbi_resolve::Rules;
use std::alloc::{AllocError, Global};

/// A statement. Places are in characters from 0.
#[derive(Drop)]
pub(crate) struct Statement<'a> {
    /// The place of its first token.
    pub place: u32,
    /// The place of its status in braces, or of its `;` if it has none.
    pub tag: u32,
    /// The place of its `;`.
    pub end: u32,
    /// The variable that it assigns.
    pub assigns: Option<&'a str>,
    /// The variables that it uses.
    uses: Vec<&'a str>,
    /// Whether it is an active rule, or assigns a variable that an active rule uses, in one
    /// statement or over others.
    pub is_used: bool,
}

impl<'a> Statement<'a> {
    /// The statement that begins at a place.
    fn at(alloc: Global, place: u32) -> Statement<'a> {
        Statement {
            place,
            tag: u32::MAX,
            end: place,
            assigns: None,
            uses: Vec::new(alloc),
            is_used: false,
        }
    }

    /// Whether it is an active rule.
    pub fn is_rule(&self) -> bool {
        self.is_used && self.assigns.is_none()
    }

    /// Goes past a token.
    fn pass(&mut self, token: &'a Token) -> Result<(), AllocError> {
        match &token.kind {
            TokenKind::Name(name) => self.uses.push(name.as_str())?,
            TokenKind::Equals => self.assigns = self.uses.pop(),
            TokenKind::Tag(_) => self.tag = token.place,
            TokenKind::Semi => {
                self.tag = self.tag.min(token.place);
                self.end = token.place;
            }
            _ => {}
        }
        Ok(())
    }
}

/// The statements of these tokens, from first to last.
fn listed<'a>(alloc: Global, tokens: &'a Tokens) -> Result<Vec<Statement<'a>>, AllocError> {
    let mut statements = Vec::new(alloc);
    let mut open: Option<Statement<'a>> = None;
    for i in 0..tokens.len() {
        let token = tokens.get(i);
        let mut statement = match open.take() {
            Some(statement) => statement,
            None => Statement::at(alloc, token.place),
        };
        statement.pass(token)?;
        match &token.kind {
            TokenKind::Semi => statements.push(statement)?,
            _ => open = Some(statement),
        }
    }
    Ok(statements)
}

/// The places of the active rules, which rise.
fn places_of(alloc: Global, rules: &Rules) -> Result<Vec<u32>, AllocError> {
    let mut places = Vec::new(alloc);
    for i in 0..rules.len() {
        places.push(rules.get(i).place)?;
    }
    Ok(places)
}

/// The statements of the tokens of a rule file that means these rules, from first to last.
///
/// A variable is assigned before it is used, so one pass from the last statement to the first finds
/// which of them the active rules use.
pub(crate) fn statements_of<'a>(
    alloc: Global,
    tokens: &'a Tokens,
    rules: &Rules,
) -> Result<Vec<Statement<'a>>, AllocError> {
    let active = places_of(alloc, rules)?;
    let mut left = listed(alloc, tokens)?;
    let mut used: Vec<&'a str> = Vec::new(alloc);
    let mut statements = Vec::new(alloc);
    'statements: while let Some(mut statement) = left.pop() {
        statement.is_used = match statement.assigns {
            Some(name) => used.iter().any(|other| *other == name),
            None => active.binary_search(&statement.place).is_ok(),
        };
        if statement.is_used {
            used.extend_from_slice(statement.uses.as_slice())?;
        }
        statements.push(statement)?;
    }
    statements.reverse();
    Ok(statements)
}
