//! What the lexer remembers of the tokens that it has read.
ghost use Rattle.std.specs.Prelude.{◌≡◌, ◌<◌};
ghost use Rattle.rbbi_text.specs.Bytes.{most_bytes};
ghost use Rattle.rbbi_lex.specs.Cases.{state_after};

use crate::token::TokenKind;

/// What the lexer remembers of the tokens that it has read.
#[derive(Drop)]
pub(crate) struct State {
    /// How many square brackets are open.
    pub depth: usize,
}

impl State {
    /// Counts in one more token.
    pub fn note(&mut self, kind: &TokenKind)
        requires { self.old.depth < most_bytes }
        ensures { self.new ≡ state_after self.old kind.now }
    {
        match kind {
            TokenKind::SetOpen => self.depth += 1,
            TokenKind::SetClose => self.depth = self.depth.saturating_sub(1),
            _ => {}
        }
    }
}
