//! What each token within sets makes of what was read before it.
ghost use Rattle.std.specs.Prelude.{◌≡◌, None};
ghost use Rattle.rbbi_tree.specs.inner.States.{ReadsInside};

use super::{OpenSets, Parser};
use crate::error::TreeErr;
use crate::set_level::SetLevel;
use crate::syntax::Atom;
use rbbi_lex::{Token, TokenKind};
use std::alloc::Global;

impl Parser {
    /// Reads an opening square bracket within a set. It needs a place where an operand may stand.
    fn begin_inner_set(&mut self, alloc: Global, sets: OpenSets, place: u32) -> Result<(), TreeErr>
        ensures { ReadsInside TokenKind.SetOpen place sets self.old result self.new }
    {
        let mut outers = sets.outers;
        outers.push(sets.innermost.into_outer_set(place)?)?;
        let innermost = SetLevel::new(alloc, place);
        self.sets = Some(OpenSets { innermost, outers });
        Ok(())
    }

    /// Reads a closing square bracket. It needs an operand after a `&`.
    fn end_set(&mut self, sets: OpenSets, place: u32) -> Result<(), TreeErr>
        requires { self.old.sets ≡ None }
        ensures { ReadsInside TokenKind.SetClose place sets self.old result self.new }
    {
        let at = sets.innermost.place;
        let set = sets.innermost.into_set(place)?;
        let mut outers = sets.outers;
        let Some(outer) = outers.pop() else {
            return Ok(self.push_atom(at, Atom::Set(set))?);
        };
        let innermost = outer.resumed(set, at)?;
        self.sets = Some(OpenSets { innermost, outers });
        Ok(())
    }

    /// Reads a token within sets.
    pub(super) fn read_inside(
        &mut self,
        alloc: Global,
        sets: OpenSets,
        token: &Token,
    ) -> Result<(), TreeErr>
        requires { self.old.sets ≡ None }
        ensures { ReadsInside token.now.kind token.now.place sets self.old result self.new }
    {
        match &token.kind {
            TokenKind::SetOpen => self.begin_inner_set(alloc, sets, token.place),
            TokenKind::SetClose => self.end_set(sets, token.place),
            _ => {
                let mut sets = sets;
                sets.innermost.read(alloc, token)?;
                self.sets = Some(sets);
                Ok(())
            }
        }
    }
}
