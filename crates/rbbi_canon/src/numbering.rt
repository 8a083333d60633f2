//! Numbers in the order in which they are first met.
ghost use Rattle.std.specs.Prelude.{◌≡◌, ◌<◌, ◌≤◌, ℕ, [], length, slice_index, IfOk, OnOk};
ghost use Rattle.rbbi_canon.specs.inner.Numberings.{IsIndexed, KeepsOrAdds};

use std::alloc::{AllocError, Global};

/// Numbers new names for numbers below a bound, in the order in which they are first met.
#[derive(Drop)]
pub(crate) struct Numbering {
    /// The numbers that were met, each once.
    pub order: Vec<u16>,
    /// For each number 1 more than its place in the order, or 0 if it wasn't met.
    pub places: Vec<u16>,
    ghost indexed: { IsIndexed order.items places.items },
}

impl Numbering {
    /// No number was met yet, of so many.
    pub fn new(alloc: Global, count: usize) -> Result<Numbering, AllocError>
        requires { count ≤ 4095 }
        ensures order { IfOk result (λ met. met.order.items ≡ []) }
        ensures count { IfOk result (λ met. length met.places.items ≡ count) }
    {
        Ok(Numbering {
            order: Vec::new(alloc),
            places: vec![in alloc; 0; count]?,
        })
    }

    /// The place of a number in the order, at whose end it is put if it wasn't met yet.
    pub fn place_of(&mut self, number: u16) -> Result<u16, AllocError>
        requires { number < length self.old.places.items }
        ensures place { IfOk result (λ place. (place < length self.new.order.items)
            × (slice_index self.new.order.items place ≡ number)) }
        ensures order { OnOk result (KeepsOrAdds self.old.order.items number self.new.order.items) }
        ensures count { length self.new.places.items ≡ length self.old.places.items }
    {
        let place = self.places[number as usize];
        if place > 0 {
            return Ok(place - 1);
        }
        let last = self.order.len() as u16;
        self.order.push(number)?;
        self.places[number as usize] = last + 1;
        Ok(last)
    }
}
