//! What holds the abbreviations of a session, and tells where one ends.
ghost use Rattle.std.specs.Prelude.{◌≡◌, ◌≤◌, length};
ghost use Rattle.rbbi_model.specs.Words.{IsText};
ghost use Rattle.rbbi_filter.specs.Abbreviations.{window_size, ends};
ghost use Rattle.rbbi_filter.specs.Closures.{AnswersEnds};

use crate::{Abbreviations, Predicate};
use std::marker::Model;

/// What holds abbreviations: the list itself, or a predicate that answers for one.
pub trait Lists {
    ghost use Rattle.std.specs.Prelude.{◌≡◌, ◌≤◌, ℕ, List, length};
    ghost use Rattle.rbbi_model.specs.Words.{IsText};
    ghost use Rattle.rbbi_filter.specs.Abbreviations.{window_size, ends};

    /// The abbreviations.
    ghost list_of: { Self → List (List ℕ) };

    /// The list.
    fn list(&self) -> &Abbreviations
        ensures { result.now ≡ list_of self.now };

    /// Whether characters, at most 64, end with one of them.
    fn ends(&self, w: &[char]) -> bool
        requires text { IsText w.now }
        requires short { length w.now ≤ window_size }
        ensures { result ≡ ends (list_of self.now) w.now };
}

impl Lists for Abbreviations {
    ghost list_of = { λ list. list };

    fn list(&self) -> &Abbreviations {
        self
    }

    fn ends(&self, w: &[char]) -> bool {
        Abbreviations::ends(self, w)
    }
}

/// A predicate that answers whether characters end with an abbreviation of a list.
#[derive(Drop)]
pub struct AnswersFor<'a, P: Predicate> {
    list: &'a Abbreviations,
    keep: P,
}

impl<'a, P: Predicate> Model for AnswersFor<'a, P> {
    ghost use Rattle.std.specs.Prelude.{ℕ, List};
    ghost use Rattle.rbbi_filter.specs.Closures.{AnswersEnds};

    ghost Value = { List (List ℕ) };

    ghost view = { λ held. held.list.now };

    ghost invariant = { λ held.
        AnswersEnds (P.can_ask held.keep) (P.answers held.keep) held.list.now };
}

impl<'a, P: Predicate> AnswersFor<'a, P> {
    /// A predicate with the list that it answers for.
    pub(crate) fn new(list: &'a Abbreviations, keep: P) -> AnswersFor<'a, P>
        requires { AnswersEnds (P.can_ask keep) (P.answers keep) list.now }
        ensures { result ≡ list.now }
    {
        AnswersFor { list, keep }
    }
}

impl<P: Predicate> Lists for AnswersFor<'_, P> {
    ghost list_of = { λ held. held };

    fn list(&self) -> &Abbreviations {
        self.list
    }

    fn ends(&self, w: &[char]) -> bool {
        self.keep.holds(w)
    }
}
