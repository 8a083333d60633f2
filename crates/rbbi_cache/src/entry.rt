//! Boundaries as they are kept.
ghost use Rattle.std.specs.Prelude.{◌≡◌, IsTrue, ◌↔◌};

use std::marker::Model;

/// A kept boundary.
#[derive(Clone, Copy)]
pub struct Entry {
    /// Its place, in characters from 0.
    pub at: u32,
    /// The number of its status list in the table.
    pub status: u16,
    /// How far the searches that led to it have looked: a place, or the text's length and one more.
    pub reach: u32,
}

impl Model for Entry {
    ghost use Rattle.rbbi_model.specs.Runs.{Entry};

    ghost Value = { Entry };

    ghost view = { λ e. record { at = e.at; status = e.status; reach = e.reach } };

    ghost inverse = { λ e. record { at = e.at; status = e.status; reach = e.reach } };
}

impl Entry {
    /// Whether it is the same boundary, with the same statuses and the same reach.
    pub(crate) fn is_same(&self, other: &Entry) -> bool
        ensures { IsTrue result ↔ (self.now ≡ other.now) }
    {
        self.at == other.at && self.status == other.status && self.reach == other.reach
    }
}
