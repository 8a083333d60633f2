//! A writer as a sink: an edge, a few lines over std's writers.
ghost use Rattle.std.specs.Prelude.{◌≡◌, ◌<◌, ◌≤◌, length, IfOk, IsErrOf};
ghost use Rattle.std.specs.Io.KnownBytes.{WriteAppends};
ghost use Rattle.rbbi_io.specs.Counts.{capped, Rose, GoesOn};

use crate::{Sink, WriteErr};
use std::io::{ErrorKind, Write};
use std::marker::Model;

/// A writer as a sink, as the standard output. As a sink it does not tell what it took. Contracts
/// see the writer and its count of faults.
#[derive(Drop)]
pub struct RealSink<W> {
    out: W,
    faults: u64,
}

impl<W> Model for RealSink<W> {
    ghost use Rattle.rbbi_io.specs.Sinks.{WriterWithFaults};

    ghost Value = { WriterWithFaults W };

    ghost view = { λ sink. record { out = sink.out; faults = sink.faults } };
}

impl<W: Write> RealSink<W> {
    /// A sink over this writer, with no fault so far.
    pub fn new(out: W) -> RealSink<W>
        ensures { result ≡ record { out = out; faults = 0 } }
    {
        RealSink { out, faults: 0 }
    }
}

/// Writes a prefix of a piece that is not empty. A write that takes nothing is a fault.
fn write_some<W: Write>(out: &mut W, piece: &[u8]) -> Result<usize, WriteErr>
    ensures some { IfOk result (λ n. 0 < n) }
    ensures within { IfOk result (λ n. n ≤ length piece.now) }
    ensures bytes { WriteAppends (W.contents out.old) (W.contents out.new) result piece.now }
{
    for _ in 0..u64::MAX {
        match out.write(piece) {
            Ok(0) => return Err(WriteErr::Failed),
            Ok(count) => return Ok(count),
            Err(fault) => match fault.kind() {
                ErrorKind::Interrupted => {}
                ErrorKind::OutOfMemory => return Err(WriteErr::Memory),
                _ => return Err(WriteErr::Failed),
            },
        }
    }
    Err(WriteErr::Failed)
}

impl<W: Write> Sink for RealSink<W> {
    ghost use Rattle.std.specs.Prelude.{None};
    ghost use Rattle.std.proofs.Common.{arith};

    ghost taken = { λ _. None };

    ghost faults = { λ sink. capped sink.faults };

    ghost faults_fit = { λ sink. Prim.omega arith };

    fn put(&mut self, piece: &[u8]) -> Result<usize, WriteErr>
        ensures some { IfOk result (λ n. 0 < length piece.now → 0 < n) }
        ensures within { IfOk result (λ n. n ≤ length piece.now) }
        ensures bytes { WriteAppends (W.contents self.old.out) (W.contents self.new.out)
            result piece.now }

        ensures faults { GoesOn (capped self.old.faults) (capped self.new.faults) }
        ensures failed { IsErrOf result WriteErr.Failed →
            Rose (capped self.old.faults) (capped self.new.faults) }
    {
        if piece.is_empty() {
            return Ok(0);
        }
        let outcome = write_some(&mut self.out, piece);
        if let Err(WriteErr::Failed) = &outcome {
            self.faults = self.faults.saturating_add(1);
        }
        outcome
    }
}
