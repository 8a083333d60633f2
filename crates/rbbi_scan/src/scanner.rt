//! A text that is fed piece by piece.
ghost use Rattle.std.specs.Prelude.{◌+◌, ◌^◌, ◌<◌, ◌≤◌, length};
ghost use Rattle.rbbi_scan.specs.Units.{units_of};

use crate::units::Units;

/// A text in UTF-8 or UTF-16 that is fed piece by piece, cut anywhere, and how far its boundaries
/// were given. Units before the last boundary that was given are let go once they are half of what
/// is held.
#[derive(Drop)]
pub struct Scanner {
    /// The units that were fed and aren't let go.
    pub(crate) held: Units,
    /// Whether segments that are words alone are asked for.
    pub(crate) only_words: bool,
    /// Where the last boundary lies in what is held.
    pub(crate) at: usize,
    /// How many units stand before what is held.
    pub(crate) origin: u64,
    /// Whether no more follow.
    pub(crate) is_last: bool,
    /// How many units stood past the last boundary when a search read on past them all. It is made
    /// again once there are twice as many, so that many short pieces cost no more than a few long
    /// ones.
    pub(crate) tried: usize,
    ghost within: { at ≤ length (units_of held) },
    ghost small: { origin + length (units_of held) < 2 ^ 64 },
}
