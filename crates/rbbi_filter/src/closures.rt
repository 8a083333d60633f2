//! Closures that a session keeps.
//!
//! What is known of a closure can't stand beside it in a struct by the bound `Fn`, but by a trait
//! of one's own. So there is one for each form, and each closure of that form is of it.
ghost use Rattle.std.specs.Prelude.{◌≡◌, ℕ, Bool, List};
ghost use Rattle.std.specs.Fn.{FnReturnsAt, TakesAt};

/// A predicate of characters: each closure of that form is one.
pub trait Predicate {
    /// It may be asked of these characters.
    ghost can_ask: { Self → List ℕ → Type 0 };

    /// Of these characters it may answer so.
    ghost answers: { Self → List ℕ → Bool → Type 0 };

    /// Whether it holds of characters.
    fn holds(&self, w: &[char]) -> bool
        requires { can_ask self.now w.now }
        ensures { answers self.now w.now result };
}

impl<F: Fn(&[char]) -> bool> Predicate for F {
    ghost can_ask = { TakesAt F.Fn };

    ghost answers = { FnReturnsAt F.Fn };

    fn holds(&self, w: &[char]) -> bool {
        self(w)
    }
}

/// A map of characters: each closure of that form is one.
pub trait CharMap {
    /// It may be asked of this character.
    ghost can_map: { Self → ℕ → Type 0 };

    /// This character may be turned into that one.
    ghost maps: { Self → ℕ → ℕ → Type 0 };

    /// The character that a character is turned into.
    fn map(&self, c: char) -> char
        requires { can_map self.now c }
        ensures { maps self.now c result };
}

impl<F: Fn(char) -> char> CharMap for F {
    ghost can_map = { λ f c. F.pre f c };

    ghost maps = { λ f c to. F.post f c to };

    fn map(&self, c: char) -> char {
        self(c)
    }
}
