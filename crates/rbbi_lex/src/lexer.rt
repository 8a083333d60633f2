//! Reads a text token by token.
ghost use Rattle.std.specs.Prelude.{◌≡◌, ◌≤◌, ◌<◌, vec_len, length};
ghost use Rattle.rbbi_text.specs.Bytes.{most_bytes};
ghost use Rattle.rbbi_lex.specs.Points.{CaseAt};
ghost use Rattle.rbbi_lex.specs.Skips.{Skipped};
ghost use Rattle.rbbi_lex.specs.inner.Steps.{IsPieceEnd, ReadsNext};

use crate::case::{Case, case_of};
use crate::character::character_at;
use crate::error::LexErr;
use crate::spell::spell;
use crate::state::State;
use crate::stretch::{Stretch, stretch_end};
use crate::token::Token;
use std::alloc::Global;
use unicode::properties::is_pattern_white_space;

/// The characters of a rule file, and how far they are read.
#[derive(Drop)]
pub(crate) struct Lexer {
    pub(crate) characters: Vec<char>,
    pub(crate) place: usize,
    pub(crate) state: State,
    ghost within: { place ≤ vec_len characters },
    ghost few_sets: { state.depth ≤ place },
    ghost short: { vec_len characters ≤ most_bytes },
}

/// The place after the piece that begins at a place and is skipped, if one does: a character of
/// white space, or a comment outside of sets.
fn piece_end(text: &[char], state: &State, at: usize) -> Option<usize>
    ensures { IsPieceEnd text.now state.now at result }
{
    let c = character_at(text, at)?;
    if is_pattern_white_space(c) {
        return Some(at + 1);
    }
    if c == '#' && state.depth == 0 {
        return Some(stretch_end(Stretch::CommentText, text, at + 1));
    }
    None
}

impl Lexer {
    /// Goes past white space and comments.
    fn skip(&mut self)
        ensures characters { self.new.characters ≡ self.old.characters }
        ensures state { self.new.state ≡ self.old.state }
        ensures skipped { Skipped self.old.characters.items self.old.state self.old.place
            self.new.place }
    {
        while let Some(end) = piece_end(self.characters.as_slice(), &self.state, self.place) {
            self.place = end;
        }
    }

    /// The case of the tables of tokens that decides at this place.
    fn case(&self) -> Case
        requires { self.now.place < vec_len self.now.characters }
        ensures { CaseAt self.now.characters.items self.now.state self.now.place result }
    {
        let text = self.characters.as_slice();
        let next = character_at(text, self.place + 1);
        let third = character_at(text, self.place + 2);
        case_of(&self.state, self.characters[self.place], next, third)
    }

    /// Reads the next token, or `None` at the end of the text.
    pub(crate) fn next_token(&mut self, alloc: Global) -> Result<Option<Token>, LexErr>
        ensures characters { self.new.characters ≡ self.old.characters }
        ensures step { ReadsNext self.old.characters.items self.old.state self.old.place result
            self.new.state self.new.place }
    {
        self.skip();
        if self.place == self.characters.len() {
            return Ok(None);
        }
        let place = self.place as u32;
        let case = self.case();
        match spell(alloc, self.characters.as_slice(), case, self.place)? {
            Some(spelled) => {
                self.place = spelled.end;
                self.state.note(&spelled.kind);
                Ok(Some(Token {
                    kind: spelled.kind,
                    place,
                }))
            }
            None => Err(case.fault(place)),
        }
    }
}
