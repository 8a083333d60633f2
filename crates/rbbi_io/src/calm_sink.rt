//! A sink in memory that never fails.
ghost use Rattle.std.specs.Prelude.{◌≡◌, ◌++◌, [], length, IfOk, IsErrOf, MatchResult};
ghost use Rattle.rbbi_io.specs.Counts.{one_more};

use crate::{Sink, WriteErr};
use std::alloc::Global;
use std::marker::Model;

/// A sink in memory that never fails. It tells what it took, takes each piece whole, and its count
/// of faults is always 0, so it refuses only `Memory`. Puts are counted from 1.
#[derive(Drop)]
pub struct CalmSink {
    bytes: Vec<u8>,
    calls: u64,
}

impl Model for CalmSink {
    ghost use Rattle.rbbi_io.specs.Memory.{CalmSinkInMemory};

    ghost Value = { CalmSinkInMemory };

    ghost view = { λ sink. record { bytes = sink.bytes.items; calls = sink.calls } };
}

impl CalmSink {
    /// A sink that took nothing.
    pub fn new(alloc: Global) -> CalmSink
        ensures { result ≡ record { bytes = []; calls = 0 } }
    {
        CalmSink {
            bytes: Vec::new(alloc),
            calls: 0,
        }
    }

    /// The bytes taken so far.
    pub fn taken(&self) -> &[u8]
        ensures { result.now ≡ self.now.bytes }
    {
        self.bytes.as_slice()
    }

    /// How many puts there were.
    pub fn calls(&self) -> u64
        ensures { result ≡ self.now.calls }
    {
        self.calls
    }
}

impl Sink for CalmSink {
    ghost use Rattle.std.specs.Prelude.{Some};
    ghost use Rattle.std.proofs.Common.{arith};

    ghost taken = { λ sink. Some sink.bytes };

    ghost faults = { λ _. 0 };

    ghost faults_fit = { λ sink. Prim.omega arith };

    fn put(&mut self, piece: &[u8]) -> Result<usize, WriteErr>
        ensures whole { IfOk result (λ n. n ≡ length piece.now) }
        ensures never { ¬ IsErrOf result WriteErr.Failed }
        ensures left { MatchResult result
            (λ _. self.new ≡ record {
              bytes = self.old.bytes ++ piece.now;
              calls = one_more self.old.calls;
            })
            (λ _. self.new ≡ record self.old { calls = one_more self.old.calls }) }
    {
        self.calls = self.calls.saturating_add(1);
        self.bytes.extend_from_slice(piece)?;
        Ok(piece.len())
    }
}
