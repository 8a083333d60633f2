//! A sink in memory, with calls that are made to fail.
ghost use Rattle.std.specs.Prelude.{◌≡◌, ◌<◌, ◌≤◌, ◌++◌, [], ◌∷◌, length, take, IfOk, OnOk, OnErr};
ghost use Rattle.std.specs.Prelude.{IsErrOf, MatchResult};
ghost use Rattle.rbbi_io.specs.Sinks.{Takes};
ghost use Rattle.rbbi_io.specs.Memory.{PutsMemory};

use crate::{Sink, WriteErr};
use std::alloc::{AllocError, Global};
use std::marker::Model;

/// A sink in memory. It tells what it took, and takes each piece whole, or as much of it as
/// `at_most` allows.
///
/// Puts are counted from 1. A put whose number was given to `fail_at` fails and takes nothing.
#[derive(Drop)]
pub struct MemSink {
    bytes: Vec<u8>,
    calls: u64,
    failing: Vec<u64>,
    faults: u64,
    most: usize,
}

impl Model for MemSink {
    ghost use Rattle.std.specs.Prelude.{◌≤◌};
    ghost use Rattle.rbbi_io.specs.Memory.{SinkInMemory};

    ghost Value = { SinkInMemory };

    ghost view = { λ sink. record {
      bytes = sink.bytes.items;
      calls = sink.calls;
      failing = sink.failing.items;
      faults = sink.faults;
      most = sink.most;
    } };

    ghost invariant = { λ sink. 1 ≤ sink.most };
}

impl MemSink {
    /// A sink that took nothing, with no call that is to fail.
    pub fn new(alloc: Global) -> MemSink
        ensures { result ≡ record
            { bytes = []; calls = 0; failing = []; faults = 0; most = usize.MAX } }
    {
        MemSink {
            bytes: Vec::new(alloc),
            calls: 0,
            failing: Vec::new(alloc),
            faults: 0,
            most: usize::MAX,
        }
    }

    /// The bytes taken so far.
    pub fn taken(&self) -> &[u8]
        ensures { result.now ≡ self.now.bytes }
    {
        self.bytes.as_slice()
    }

    /// How many puts there were.
    pub fn calls(&self) -> u64
        ensures { result ≡ self.now.calls }
    {
        self.calls
    }

    /// Lets the put with this number fail, from 1.
    pub fn fail_at(&mut self, n: u64) -> Result<(), AllocError>
        ensures ok { OnOk result (self.new ≡ record self.old
            { failing = self.old.failing ++ n ∷ [] }) }
        ensures err { OnErr result (self.new ≡ self.old) }
    {
        self.failing.push(n)?;
        Ok(())
    }

    /// Lets each put take at most this many bytes from now on.
    pub fn at_most(&mut self, n: usize)
        requires { 1 ≤ n }
        ensures { self.new ≡ record self.old { most = n } }
    {
        self.most = n;
    }
}

impl Sink for MemSink {
    ghost use Rattle.std.specs.Prelude.{Some};
    ghost use Rattle.rbbi_io.specs.Counts.{capped};
    ghost use Rattle.std.proofs.Common.{arith};

    ghost taken = { λ sink. Some sink.bytes };

    ghost faults = { λ sink. capped sink.faults };

    ghost put_gives = { PutsMemory };

    ghost faults_fit = { λ sink. Prim.omega arith };

    fn put(&mut self, piece: &[u8]) -> Result<usize, WriteErr>
        ensures exact { PutsMemory self.old piece.now result self.new }
        ensures some { IfOk result (λ n. 0 < length piece.now → 0 < n) }
        ensures within { IfOk result (λ n. n ≤ length piece.now) }
    {
        self.calls = self.calls.saturating_add(1);
        if self.failing.contains(&self.calls) {
            self.faults = self.faults.saturating_add(1);
            return Err(WriteErr::Failed);
        }
        let count = piece.len().min(self.most);
        self.bytes.extend_from_slice(&piece[..count])?;
        Ok(count)
    }
}
