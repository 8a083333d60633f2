//! The pieces of a rule file that are left out, one after another.
//!
//! They are each active rule, each alternative of several, and each part of a set that has several:
//! a character, a range, a name, a property or a set. Alternatives and sets are those of active
//! rules and of the variables that they use. With a part the operator before it is left out, and the
//! first part before an operator isn't left out.

ghost use Rattle.std.specs.Prelude.{◌<◌, length};

use crate::level::{Last, Level, OpenGroup, OpenSet};
use crate::piece::{Part, Piece};
use crate::statements::Statement;
use rbbi_lex::{Token, TokenKind, Tokens};
use std::alloc::{AllocError, Global};

/// Goes over the tokens of one statement after another.
#[derive(Drop)]
struct Finder {
    pieces: Vec<Piece>,
    /// What is open within the statement.
    open: Vec<Level>,
}

impl Finder {
    /// Adds a piece, unless it is empty.
    fn add(&mut self, part: Part, from: u32, to: u32) -> Result<(), AllocError> {
        if from < to {
            self.pieces.push(Piece { part, from, to })?;
        }
        Ok(())
    }

    /// Goes past a token of a statement. `is_last` tells whether a set ends after it.
    fn pass(
        &mut self,
        statement: &Statement<'_>,
        token: &Token,
        is_last: bool,
    ) -> Result<(), AllocError> {
        let level = match self.open.last() {
            Some(level) => *level,
            None => {
                let level = group_from(statement.place);
                self.open.push(level)?;
                level
            }
        };
        match level {
            Level::Group(group) => self.pass_in_group(group, token),
            Level::Set(set) => self.pass_in_set(set, token, is_last),
        }
    }

    /// Ends a statement.
    fn end(&mut self, statement: &Statement<'_>) -> Result<(), AllocError> {
        self.open.clear();
        if statement.is_rule() {
            self.add(Part::Rule, statement.place, statement.end)?;
        }
        Ok(())
    }

    /// Goes past a token of a group or of no bracket.
    fn pass_in_group(&mut self, group: OpenGroup, token: &Token) -> Result<(), AllocError> {
        let place = token.place;
        let after = place.saturating_add(1);
        match &token.kind {
            TokenKind::Bar => {
                let end = if group.is_later { place } else { after };
                self.add(Part::Alternative, group.from, end)?;
                self.reopen(place, true)
            }
            TokenKind::Equals | TokenKind::Caret => self.reopen(after, false),
            TokenKind::Tag(_) | TokenKind::ParenClose | TokenKind::Semi => {
                if group.is_later {
                    self.add(Part::Alternative, group.from, place)?;
                }
                match &token.kind {
                    TokenKind::ParenClose => {
                        let _ = self.open.pop();
                        Ok(())
                    }
                    _ => self.reopen(place, false),
                }
            }
            TokenKind::ParenOpen => Ok(self.open.push(group_from(after))?),
            TokenKind::SetOpen => Ok(self.open.push(Level::Set(OpenSet::NEW))?),
            _ => Ok(()),
        }
    }

    /// Lets the group that is open begin a further alternative.
    fn reopen(&mut self, from: u32, is_later: bool) -> Result<(), AllocError> {
        let _ = self.open.pop();
        self.open.push(Level::Group(OpenGroup { from, is_later }))?;
        Ok(())
    }

    /// Goes past a token of a set. `is_last` tells whether the set ends after it.
    fn pass_in_set(
        &mut self,
        set: OpenSet,
        token: &Token,
        is_last: bool,
    ) -> Result<(), AllocError> {
        let mut set = set;
        match (&token.kind, set.last) {
            (TokenKind::Caret, _) => {}
            (TokenKind::Hyphen, Last::Character) if !is_last => set.last = Last::Hyphen,
            (TokenKind::Char { .. }, Last::Hyphen) => set.last = Last::Other,
            _ => {
                self.end_member(set, token, is_last)?;
                begin_part(&mut set, token, is_last);
            }
        }
        let _ = self.open.pop();
        if !matches!(&token.kind, TokenKind::SetClose) {
            self.open.push(Level::Set(set))?;
        }
        if let TokenKind::SetOpen = &token.kind {
            self.open.push(Level::Set(OpenSet::NEW))?;
        }
        Ok(())
    }

    /// Ends the part that stands last in a set, before a token. The only part of a set is left where
    /// it is, and so is the first one before an operator.
    fn end_member(&mut self, set: OpenSet, token: &Token, is_last: bool) -> Result<(), AllocError> {
        let is_open = set.last == Last::Operator;
        let is_needed = set.parts == 1 && (is_operator(token, is_last) || is_closing(token));
        match set.member {
            Some(from) if !is_open && !is_needed => self.add(Part::Member, from, token.place),
            _ => Ok(()),
        }
    }
}

/// Whether a token ends a set.
fn is_closing(token: &Token) -> bool {
    matches!(&token.kind, TokenKind::SetClose)
}

/// Whether a token after a part of a set is an operator. `is_last` tells whether the set ends after
/// it.
fn is_operator(token: &Token, is_last: bool) -> bool {
    match &token.kind {
        TokenKind::Hyphen => !is_last,
        TokenKind::Amp => true,
        _ => false,
    }
}

/// Begins a part of a set at a token, or goes past an operator.
fn begin_part(set: &mut OpenSet, token: &Token, is_last: bool) {
    let place = token.place;
    let is_literal = set.last == Last::Opening;
    match &token.kind {
        TokenKind::Char { .. } => set.begin(place, Last::Character),
        TokenKind::Hyphen if is_literal => set.begin(place, Last::Other),
        _ if is_operator(token, is_last) => set.join(place),
        _ => set.begin(place, Last::Other),
    }
}

/// A group that is just opened.
fn group_from(from: u32) -> Level {
    Level::Group(OpenGroup {
        from,
        is_later: false,
    })
}

/// Whether the token after the one with this number ends a set.
fn is_last(tokens: &Tokens, i: usize) -> bool
    requires { i < length tokens.now }
{
    let count = tokens.len();
    i + 1 < count && matches!(&tokens.get(i + 1).kind, TokenKind::SetClose)
}

/// The pieces of the statements of these tokens. A piece comes before those within it.
pub(crate) fn pieces_of(
    alloc: Global,
    tokens: &Tokens,
    statements: &[Statement<'_>],
) -> Result<Vec<Piece>, AllocError> {
    let mut finder = Finder {
        pieces: Vec::new(alloc),
        open: Vec::new(alloc),
    };
    let mut left = statements.iter();
    let mut statement = left.next();
    for i in 0..tokens.len() {
        let token = tokens.get(i);
        let Some(here) = statement else { break };
        if here.is_used {
            finder.pass(here, token, is_last(tokens, i))?;
        }
        if let TokenKind::Semi = &token.kind {
            finder.end(here)?;
            statement = left.next();
        }
    }
    let Finder {
        mut pieces,
        open: _,
    } = finder;
    pieces.sort_by_key(|piece| (piece.from, u32::MAX - piece.to))?;
    Ok(pieces)
}
