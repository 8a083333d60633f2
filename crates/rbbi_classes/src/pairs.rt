//! Pairs of numbers, numbered in the order in which they come.
ghost use Rattle.std.specs.Prelude.{◌≡◌, ◌<◌, ◌^◌, ◌∷◌, [], Some, IfOk, length, slice_get};
ghost use Rattle.rbbi_classes.specs.inner.Numbering.{AreIndexed, IsNamed, key};

use std::alloc::{AllocError, Global};
use std::collections::HashMap;

/// Two numbers.
#[derive(Clone, Copy)]
pub(crate) struct Pair {
    pub(crate) left: u32,
    pub(crate) right: u32,
}

/// The pairs that came, each with its place as its number.
#[derive(Drop)]
pub(crate) struct Pairs {
    /// The pairs in the order in which they came.
    pub(crate) items: Vec<Pair>,
    /// The number of each pair, by its key.
    numbers: HashMap<u64, u32>,
}

impl Pairs {
    /// The pair of two times 0, which has the number 0.
    pub(crate) fn new(alloc: Global) -> Result<Pairs, AllocError>
        ensures items { IfOk result (λ pairs.
            pairs.items.items ≡ (record { left = 0; right = 0 }) ∷ []) }
        ensures numbered { IfOk result AreIndexed }
    {
        let mut pairs = Pairs {
            items: Vec::new(alloc),
            numbers: HashMap::new(alloc),
        };
        pairs.number_of(Pair { left: 0, right: 0 })?;
        Ok(pairs)
    }

    /// The number of a pair: the one that it has, or the next one.
    pub(crate) fn number_of(&mut self, pair: Pair) -> Result<u32, AllocError>
        requires few { length self.old.items.items < 2 ^ 32 }
        requires numbered { AreIndexed self.old }
        ensures number { IfOk result (λ number.
            slice_get self.new.items.items number ≡ Some pair) }
        ensures items { IfOk result (λ number.
            IsNamed self.old.items.items self.new.items.items pair number) }
        ensures numbered { IfOk result (λ number. AreIndexed self.new) }
    {
        let key = key_of(pair);
        if let Some(number) = self.numbers.get(&key) {
            return Ok(*number);
        }
        let number = self.items.len() as u32;
        self.numbers.insert(key, number)?;
        self.items.push(pair)?;
        Ok(number)
    }
}

/// Both numbers in one.
fn key_of(pair: Pair) -> u64
    ensures { result ≡ key pair }
{
    u64::from(pair.left) * 0x1_0000_0000 + u64::from(pair.right)
}
