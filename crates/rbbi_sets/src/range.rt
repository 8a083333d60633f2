//! A range of code points.
use std::marker::Model;

/// The code points from `low` to `high`, both counted. Contracts see it as a `Range` of
/// `rbbi_model`.
#[derive(Clone, Copy, PartialEq, Eq)]
pub struct CodeRange {
    pub low: u32,
    pub high: u32,
}

impl Model for CodeRange {
    ghost use Rattle.rbbi_model.specs.Ranges.{Range};

    ghost Value = { Range };

    ghost view = { λ range. record { low = range.low; high = range.high } };

    ghost inverse = { λ range. record { low = range.low; high = range.high } };
}
