//! What holds the pairs of a session, and turns characters as they say.
ghost use Rattle.std.specs.Prelude.{◌≡◌};
ghost use Rattle.rbbi_filter.specs.Closures.{Turns};

use crate::{CharMap, Tailoring};
use std::marker::Model;

/// What holds pairs: the pairs themselves, or a map that does what some say.
pub trait Maps {
    ghost use Rattle.std.specs.Prelude.{◌≡◌, List};
    ghost use Rattle.rbbi_filter.specs.declared.pair.Pair.{Pair};
    ghost use Rattle.rbbi_filter.specs.Pairs.{turn};

    /// The pairs.
    ghost pairs_of: { Self → List Pair };

    /// The pairs.
    fn pairs(&self) -> &Tailoring
        ensures { result.now ≡ pairs_of self.now };

    /// The character that they turn a character into.
    fn turn(&self, c: char) -> char
        ensures { result ≡ turn (pairs_of self.now) c };
}

impl Maps for Tailoring {
    ghost pairs_of = { λ pairs. pairs };

    fn pairs(&self) -> &Tailoring {
        self
    }

    fn turn(&self, c: char) -> char {
        Tailoring::turn(self, c)
    }
}

/// A map that turns characters as some pairs say.
#[derive(Drop)]
pub struct TurnsBy<'a, G: CharMap> {
    pairs: &'a Tailoring,
    map: G,
}

impl<'a, G: CharMap> Model for TurnsBy<'a, G> {
    ghost use Rattle.std.specs.Prelude.{List};
    ghost use Rattle.rbbi_filter.specs.declared.pair.Pair.{Pair};
    ghost use Rattle.rbbi_filter.specs.Closures.{Turns};

    ghost Value = { List Pair };

    ghost view = { λ held. held.pairs.now };

    ghost invariant = { λ held. Turns (G.can_map held.map) (G.maps held.map) held.pairs.now };
}

impl<'a, G: CharMap> TurnsBy<'a, G> {
    /// A map with the pairs by which it turns characters.
    pub(crate) fn new(pairs: &'a Tailoring, map: G) -> TurnsBy<'a, G>
        requires { Turns (G.can_map map) (G.maps map) pairs.now }
        ensures { result ≡ pairs.now }
    {
        TurnsBy { pairs, map }
    }
}

impl<G: CharMap> Maps for TurnsBy<'_, G> {
    ghost pairs_of = { λ held. held };

    fn pairs(&self) -> &Tailoring {
        self.pairs
    }

    fn turn(&self, c: char) -> char {
        self.map.map(c)
    }
}
