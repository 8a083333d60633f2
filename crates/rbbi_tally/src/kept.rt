//! A segment as it is kept.
ghost use Rattle.std.specs.Prelude.{◌≡◌, ◌^◌, ◌<◌};
ghost use Rattle.rbbi_tally.specs.inner.Kept.{at_of, ahead_of, list_of};

/// A segment in eight bytes: where it begins, counted from the start of its piece, how far the
/// search from there looks, and the number of the status list of its end. A text has up to one
/// segment a character, so the three numbers share two words: a place needs 24 bits, what is looked
/// at 25, and the number of a list 12, of which each word has a part.
#[derive(Clone, Copy)]
pub(crate) struct Kept {
    /// The place, and the lower 8 bits of the list.
    place: u32,
    /// How many characters are looked at, and the upper 4 bits of the list.
    look: u32,
}

impl Kept {
    /// The segment with these numbers.
    pub(crate) fn new(at: u32, ahead: u32, list: u16) -> Kept
        requires near { at < 2 ^ 24 }
        requires few { ahead < 2 ^ 28 }
        requires list { list < 4096 }
        ensures at { at_of result ≡ at }
        ensures ahead { ahead_of result ≡ ahead }
        ensures list { list_of result ≡ list }
    {
        let list = u32::from(list);
        Kept {
            place: at * 256 + list % 256,
            look: ahead * 16 + list / 256,
        }
    }

    /// Where it begins, counted from the start of its piece.
    pub(crate) fn at(self) -> u32
        ensures value { result ≡ at_of self }
        ensures near { result < 2 ^ 24 }
    {
        self.place / 256
    }

    /// How many characters the search from there looks ahead.
    pub(crate) fn ahead(self) -> u32
        ensures value { result ≡ ahead_of self }
        ensures few { result < 2 ^ 28 }
    {
        self.look / 16
    }

    /// The number of the status list of its end.
    pub(crate) fn list(self) -> u16
        ensures value { result ≡ list_of self }
        ensures few { result < 4096 }
    {
        (self.place % 256 + self.look % 16 * 256) as u16
    }
}
