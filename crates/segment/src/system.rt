//! The system's files, and why the output fails.

use rbbi_segment::System;
use std::cell::Cell;
use std::fs::File;
use std::io;
use std::io::Write;

/// A writer that notes why it fails.
#[derive(Drop)]
pub(crate) struct Noting<'a, W> {
    pub(crate) out: W,
    pub(crate) fault: &'a Cell<Option<io::Error>>,
}

impl<'a, W: Write> Write for Noting<'a, W> {
    fn write(&mut self, buf: &[u8]) -> io::Result<usize> {
        let outcome = self.out.write(buf);
        if let Err(fault) = &outcome {
            self.fault.set(Some(*fault));
        }
        outcome
    }

    fn flush(&mut self) -> io::Result<()> {
        self.out.flush()
    }
}

/// The files of the system, and what the output noted.
#[derive(Drop)]
pub(crate) struct RealSystem<'a, R> {
    pub(crate) rt: &'a R,
    pub(crate) fault: &'a Cell<Option<io::Error>>,
}

impl<'a, R: std::rt::Files> System for RealSystem<'a, R> {
    ghost use Rattle.std.specs.Prelude.{None};

    ghost contents = { λ _. None };

    type Reader = R::File;

    fn open(&self, name: &str) -> io::Result<Self::Reader> {
        File::open(self.rt, name)
    }

    fn unwritten(&self) -> Option<io::Error> {
        self.fault.get()
    }
}
