//! A set that is being read.
ghost use Rattle.std.specs.Prelude.{◌≡◌, ◌∷◌, List, Some, OnOk, IfOk, MatchResult};
ghost use Rattle.rbbi_tree.specs.Grammar.{hyphen_at};
ghost use Rattle.rbbi_tree.specs.Trees.{PartTree, joined};
ghost use Rattle.rbbi_tree.specs.Values.{set_item_tree, set_tree};
ghost use Rattle.rbbi_tree.specs.inner.Sets.{new_set_level, level_with, settled, at_set_caret};
ghost use Rattle.rbbi_tree.specs.inner.Sets.{at_set_hyphen, at_set_amp, at_set_character};
ghost use Rattle.rbbi_tree.specs.inner.Sets.{at_set_operand, at_set_token, join_in, ended_parts};
ghost use Rattle.rbbi_tree.specs.inner.Sets.{set_from, outer_set, set_resumed};
ghost use Rattle.rbbi_tree.specs.inner.SetStates.{set_level_tree, outer_set_tree, IsStuckAt};
ghost use Rattle.rbbi_tree.specs.inner.SetStates.{FollowsMachine, ReadsInSet};

use crate::copies::{copy_of, copy_of_option};
use crate::error::TreeErr;
use crate::lean::push_lean;
use crate::syntax::{Join, Parts, SetExpr, SetItem, SetPart};
use rbbi_lex::{Token, TokenKind};
use std::alloc::{AllocError, Global};

/// What was read last in a set, as far as it decides what may follow. Places are in characters from
/// 0.
#[derive(Clone, Copy)]
pub enum SetState {
    /// The bracket.
    Opened,
    /// The bracket and a `^`.
    Begun,
    /// A range, or a hyphen that stands for itself: a hyphen here must be the last part.
    Apart,
    /// A character that may begin a range, and its place. It is no part yet.
    Character { c: char, place: u32 },
    /// Such a character, and a hyphen at this place.
    Ranging { c: char, place: u32, hyphen: u32 },
    /// An operand: a hyphen or `&` here joins another.
    Operand,
    /// An operand and `&`.
    Both,
    /// An operand and a hyphen at this place.
    Minus { hyphen: u32 },
    /// A hyphen at this place that stands for itself, right before the end.
    Last { hyphen: u32 },
}

/// A set so far.
#[derive(Drop)]
pub struct SetLevel {
    /// The place of its bracket.
    pub(crate) place: u32,
    negated: bool,
    /// Its parts, from first to last.
    parts: Vec<SetPart>,
    /// What was read last.
    state: SetState,
}

/// A set in which another one is being read.
#[derive(Drop)]
pub struct OuterSet {
    set: SetLevel,
    /// How the inner set is joined to its parts.
    join: Join,
}

impl SetLevel {
    /// A set right after its bracket.
    pub fn new(alloc: Global, place: u32) -> SetLevel
        ensures { set_level_tree result ≡ new_set_level place }
    {
        SetLevel {
            place,
            negated: false,
            parts: Vec::new(alloc),
            state: SetState::Opened,
        }
    }

    /// Adds a part, and leaves this as what was read last.
    fn push(
        &mut self,
        place: u32,
        join: Join,
        item: SetItem,
        state: SetState,
    ) -> Result<(), AllocError>
        ensures { let s = set_level_tree self.old in OnOk result (set_level_tree self.new
            ≡ level_with s (joined place join (set_item_tree item) ∷ s.parts) state) }
    {
        push_lean(&mut self.parts, SetPart { place, join, item })?;
        self.state = state;
        Ok(())
    }

    /// Adds the character that was read last, where there is one that no range has taken.
    fn settle(&mut self) -> Result<(), AllocError>
        ensures { let s = set_level_tree self.old in OnOk result (set_level_tree self.new
            ≡ level_with s (settled s.state s.parts) self.new.state) }
    {
        if let SetState::Character { c, place } = self.state {
            self.push(place, Join::Add, SetItem::Char(c), SetState::Apart)?;
        }
        Ok(())
    }

    /// Adds a hyphen that stands for itself.
    fn push_hyphen(&mut self, place: u32) -> Result<(), AllocError>
        ensures { let s = set_level_tree self.old in OnOk result (set_level_tree self.new
            ≡ level_with s (hyphen_at place ∷ s.parts) SetState.Apart) }
    {
        self.push(place, Join::Add, SetItem::Char('-'), SetState::Apart)
    }

    /// Reads a `^`. It must stand right after the bracket.
    fn read_caret(&mut self, place: u32) -> Result<(), TreeErr>
        ensures { let s = set_level_tree self.old in
            ReadsInSet place (at_set_caret s.state s) result self.new }
    {
        let SetState::Opened = self.state else {
            return Err(TreeErr::Syntax(place));
        };
        self.negated = true;
        self.state = SetState::Begun;
        Ok(())
    }

    /// Reads a hyphen: the character where it stands right after the opening, or else the sign of a
    /// range or of a difference, or the character right before the end.
    fn read_hyphen(&mut self, hyphen: u32) -> Result<(), TreeErr>
        ensures { let s = set_level_tree self.old in
            ReadsInSet hyphen (at_set_hyphen hyphen s.state s) result self.new }
    {
        match self.state {
            SetState::Opened | SetState::Begun => self.push_hyphen(hyphen)?,
            SetState::Apart => self.state = SetState::Last { hyphen },
            SetState::Character { c, place } => self.state = SetState::Ranging { c, place, hyphen },
            SetState::Operand => self.state = SetState::Minus { hyphen },
            _ => return Err(TreeErr::Syntax(hyphen)),
        }
        Ok(())
    }

    /// Reads a `&`. It must stand right after an operand.
    fn read_amp(&mut self, place: u32) -> Result<(), TreeErr>
        ensures { let s = set_level_tree self.old in
            ReadsInSet place (at_set_amp s.state s) result self.new }
    {
        let SetState::Operand = self.state else {
            return Err(TreeErr::Syntax(place));
        };
        self.state = SetState::Both;
        Ok(())
    }

    /// Reads a character, which may begin or end a range.
    fn read_char(&mut self, place: u32, c: char) -> Result<(), TreeErr>
        ensures { let s = set_level_tree self.old in
            ReadsInSet place (at_set_character c place s.state s) result self.new }
    {
        match self.state {
            SetState::Ranging {
                c: low,
                place: first,
                ..
            } => self.push(first, Join::Add, SetItem::Range(low, c), SetState::Apart)?,
            SetState::Both | SetState::Minus { .. } | SetState::Last { .. } => {
                return Err(TreeErr::Syntax(place));
            }
            _ => {
                self.settle()?;
                self.state = SetState::Character { c, place };
            }
        }
        Ok(())
    }

    /// How an operand is joined here, if one may stand here.
    fn join(&self) -> Option<Join>
        ensures { result ≡ join_in self.now.state }
    {
        match self.state {
            SetState::Both => Some(Join::Both),
            SetState::Minus { .. } => Some(Join::Minus),
            SetState::Ranging { .. } | SetState::Last { .. } => None,
            _ => Some(Join::Add),
        }
    }

    /// Reads an operand of one token.
    fn read_operand(&mut self, place: u32, item: SetItem) -> Result<(), TreeErr>
        ensures { let s = set_level_tree self.old in ReadsInSet place
            (at_set_operand place (set_item_tree item) (join_in s.state) s) result self.new }
    {
        let Some(join) = self.join() else {
            return Err(TreeErr::Syntax(place));
        };
        self.settle()?;
        self.push(place, join, item, SetState::Operand)?;
        Ok(())
    }

    /// Reads a token that neither begins nor ends a set.
    pub fn read(&mut self, alloc: Global, token: &Token) -> Result<(), TreeErr>
        ensures { ReadsInSet token.now.place (at_set_token
            token.now.kind token.now.place (set_level_tree self.old)) result self.new }
    {
        let place = token.place;
        match &token.kind {
            TokenKind::Caret => self.read_caret(place),
            TokenKind::Hyphen => self.read_hyphen(place),
            TokenKind::Amp => self.read_amp(place),
            TokenKind::Char { c, .. } => self.read_char(place, *c),
            TokenKind::Name(name) => {
                self.read_operand(place, SetItem::Name(copy_of(alloc, name)?))
            }
            TokenKind::Prop {
                negated,
                name,
                value,
            } => {
                let item = SetItem::Prop {
                    negated: *negated,
                    name: copy_of(alloc, name)?,
                    value: copy_of_option(alloc, value)?,
                };
                self.read_operand(place, item)
            }
            _ => Err(TreeErr::Syntax(place)),
        }
    }

    /// Makes this an outer set, in which another one begins at this place.
    pub fn into_outer_set(mut self, place: u32) -> Result<OuterSet, TreeErr>
        ensures { MatchResult result (λ o. (j : Join) ×
            (join_in self.state ≡ Some j) × (outer_set_tree o ≡ outer_set (set_level_tree self) j))
            (IsStuckAt place (join_in self.state)) }
    {
        let Some(join) = self.join() else {
            return Err(TreeErr::Syntax(place));
        };
        self.settle()?;
        Ok(OuterSet { set: self, join })
    }

    /// The set that ends with a bracket at this place, which needs no operand before it.
    pub fn into_set(mut self, place: u32) -> Result<SetExpr, TreeErr>
        ensures { let s = set_level_tree self in MatchResult
            result (λ set. (parts : List PartTree) × (ended_parts s.state s.parts ≡ Some parts)
            × (set_tree set ≡ set_from s parts)) (IsStuckAt place (ended_parts s.state s.parts)) }
    {
        self.add_pending(place)?;
        Ok(SetExpr {
            place: self.place,
            negated: self.negated,
            parts: Parts { items: self.parts },
        })
    }

    /// Adds what was read last and is no part yet, where the set may end.
    fn add_pending(&mut self, end: u32) -> Result<(), TreeErr>
        ensures read { let s = set_level_tree self.old in FollowsMachine
            end (ended_parts s.state s.parts) (λ _. (set_level_tree self.new).parts) result }
        ensures same { OnOk result
            ((self.new.place ≡ self.old.place) × (self.new.negated ≡ self.old.negated)) }
    {
        match self.state {
            SetState::Ranging { c, place, hyphen } => {
                self.push(place, Join::Add, SetItem::Char(c), SetState::Apart)?;
                self.push_hyphen(hyphen)?;
            }
            SetState::Minus { hyphen } | SetState::Last { hyphen } => self.push_hyphen(hyphen)?,
            SetState::Both => return Err(TreeErr::Syntax(end)),
            _ => self.settle()?,
        }
        Ok(())
    }
}

impl OuterSet {
    /// The set after one that ended in it.
    pub fn resumed(self, inner: SetExpr, place: u32) -> Result<SetLevel, AllocError>
        ensures { IfOk result (λ s.
            set_level_tree s ≡ set_resumed place (set_tree inner) (outer_set_tree self)) }
    {
        let OuterSet { mut set, join } = self;
        set.push(place, join, SetItem::Set(inner), SetState::Operand)?;
        Ok(set)
    }
}
