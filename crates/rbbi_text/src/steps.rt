//! A counter that contracts see and that takes no bytes when it runs.
ghost use Rattle.std.specs.Prelude.{◌≡◌, ◌+◌, ◌<◌};

use std::marker::Model;
use std::rt::Memory;
use std::sync::ledger::{Blank, Book, Ledger, Share};

/// How many characters and bytes were read. It takes no bytes, and counting does nothing at run
/// time: it is there for contracts, which see it as a number.
#[derive(Drop)]
pub struct Steps<L: Ledger> {
    book: Book<L>,
    share: Share<L>,
}

impl<L: Ledger> Model for Steps<L> {
    ghost use Rattle.std.specs.Prelude.{ℕ, ◌<◌};

    ghost Value = { ℕ };

    ghost view = { λ s. s.book.total };

    ghost invariant = { λ s. 0 < s.share.parts };
}

impl<L: Ledger> Steps<L> {
    /// A counter that stands at 0, on a new ledger.
    ///
    /// It takes the runtime, which only `main` and tests have: what a library reads, it counts on
    /// the counter that it is passed. A function that makes a counter is generic over the ledger
    /// and takes the blank, with these clauses as its own. Its caller passes the ledger `Brand`
    /// and a `Blank::new(1)`, and picks the blank's name and parts for the ledger.
    pub fn new(runtime: &HostRuntime, blank: Blank) -> Steps<L>
        requires name { blank.name ≡ L.name }
        requires parts { blank.parts ≡ L.parts }
        requires some { 0 < blank.parts }
        ensures { result ≡ 0 }
    {
        Steps::exported(runtime.memory(), blank)
    }

    /// A counter as of `new`, for functions that C calls: it takes the right to ask for memory.
    pub fn exported(_memory: Memory, blank: Blank) -> Steps<L>
        requires name { blank.name ≡ L.name }
        requires parts { blank.parts ≡ L.parts }
        requires some { 0 < blank.parts }
        ensures { result ≡ 0 }
    {
        let (book, share) = blank.open::<L>();
        Steps { book, share }
    }

    /// Counts one step.
    pub fn tick(&mut self)
        ensures { self.new ≡ self.old + 1 }
    {
        self.add(1);
    }

    /// Counts this many steps.
    pub(crate) fn add(&mut self, count: u64)
        ensures { self.new ≡ self.old + count }
    {
        self.book.add(&mut self.share, count);
    }
}
