//! Texts as they stand in memory.
ghost use Rattle.std.specs.Prelude.{◌≡◌, ◌+◌, ◌<◌, ◌≤◌, ℕ, List, length, drop};
ghost use Rattle.rbbi_model.specs.declared.unit.Unit.{Unit as TextUnit};
ghost use Rattle.rbbi_model.specs.Words.{most_characters};
ghost use Rattle.rbbi_scan.specs.Spelled.{BeginWithNone, spelling_of};
ghost use Rattle.rbbi_scan.specs.Decoded.{IsDecoded};

/// What was decoded.
#[derive(Clone, Copy)]
pub(crate) struct Decoded {
    /// How many characters.
    pub(crate) count: usize,
    /// How many units spell them.
    pub(crate) used: usize,
}

impl Decoded {
    /// Nothing.
    pub(crate) const NONE: Decoded = Decoded { count: 0, used: 0 };
}

/// A text as it stands in memory, in a unit.
pub(crate) trait Source {
    /// The unit.
    ghost unit: { TextUnit };

    /// The units, in order.
    ghost units: { Self → List ℕ };

    /// The number of units.
    fn len(&self) -> usize
        ensures { result ≡ length (units self.now) };

    /// Decodes characters from a place on, as many as there is room for, up to the end of the units
    /// or the first that spell none, and notes where each ends.
    fn decode(&self, from: usize, chars: &mut [char], ends: &mut [u32]) -> Decoded
        requires within { from ≤ length (units self.now) }
        requires room { length ends.old ≡ length chars.old }
        requires few { length chars.old ≤ most_characters }
        ensures decoded { IsDecoded unit (drop from (units self.now)) chars.new ends.new
            result.count result.used }
        ensures all { result.count < length chars.new →
            BeginWithNone unit (drop (from + result.used) (units self.now)) };
}
