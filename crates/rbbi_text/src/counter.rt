//! A number that is counted on in decimal.
ghost use Rattle.std.specs.Prelude.{◌≡◌, ◌+◌, ◌^◌, ◌<◌, ◌≤◌, ◌++◌, take, drop, decimal};
ghost use Rattle.rbbi_text.specs.Appending.{Appends};
ghost use Rattle.rbbi_text.specs.inner.Digits.{four_digits};

use crate::append;
use itoa::write_digits;
use std::alloc::AllocError;
use std::marker::Model;

/// A number and its decimal digits, which are kept while it is counted on. Contracts see the
/// number.
///
/// Mostly only the last four digits change, and these are written alone. At each ten thousandth
/// number, and below ten thousand, all are written.
#[derive(Drop)]
pub struct Counter {
    number: u32,
    digits: [u8; 10],
    /// Where the digits start, which end at the end.
    start: usize,
}

impl Model for Counter {
    ghost use Rattle.std.specs.Prelude.{◌≡◌, ◌≤◌, ℕ, drop, decimal};

    ghost Value = { ℕ };

    ghost view = { λ counter. counter.number };

    ghost invariant = { λ counter. (counter.start ≤ 10)
        × (drop counter.start counter.digits ≡ decimal counter.number) };
}

/// Writes a number of at most four digits as the last four, with zeros before it.
#[inline(always)]
fn write_four(low: u32, digits: &mut [u8; 10])
    requires { low < 10000 }
    ensures { digits.new ≡ take 6 digits.old ++ four_digits low }
{
    let hundreds = low / 100;
    let ones = low % 100;
    digits[6] = b'0' + (hundreds / 10) as u8;
    digits[7] = b'0' + (hundreds % 10) as u8;
    digits[8] = b'0' + (ones / 10) as u8;
    digits[9] = b'0' + (ones % 10) as u8;
}

/// Writes a number in place of one that is no greater, and gives where its digits start.
#[inline(always)]
fn write_next(digits: &mut [u8; 10], start: usize, old: u32, new: u32) -> usize
    requires start { start ≤ 10 }
    requires digits { drop start digits.old ≡ decimal old }
    requires forward { old ≤ new }
    ensures start { result ≤ 10 }
    ensures digits { drop result digits.new ≡ decimal new }
{
    if new >= 10_000 && new / 10_000 == old / 10_000 {
        write_four(new % 10_000, digits);
        return start;
    }
    write_digits(new as u64, digits, 10)
}

impl Counter {
    /// A counter that stands at 0.
    pub fn new() -> Counter
        ensures { result ≡ 0 }
    {
        Counter {
            number: 0,
            digits: [b'0'; 10],
            start: 9,
        }
    }

    /// Counts on by this much.
    #[inline]
    pub fn advance(&mut self, by: u32)
        requires { self.old + by < 2 ^ 32 }
        ensures { self.new ≡ self.old + by }
    {
        let number = self.number + by;
        self.start = write_next(&mut self.digits, self.start, self.number, number);
        self.number = number;
    }

    /// The number in decimal.
    pub fn digits(&self) -> &[u8]
        ensures { result.now ≡ decimal self.now }
    {
        &self.digits[self.start..]
    }

    /// Appends the number in decimal. Where memory runs out, a prefix of it was appended.
    #[inline]
    pub fn append(&self, out: &mut Vec<u8>) -> Result<(), AllocError>
        ensures { Appends out.old.items (decimal self.now) result out.new.items }
    {
        append(self.digits(), out)
    }
}
