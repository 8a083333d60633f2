//! The files of the system: an edge over std's files, where it is trusted that they are opened.
ghost use Rattle.std.specs.Prelude.{◌≡◌, ◌≢◌, ◌<◌, ◌≤◌, ◌+◌, length, take, IfOk, IfSome, Some};
ghost use Rattle.std.specs.Prelude.{IfErr, MatchResult, None, OnOk, IsSomeAnd};
ghost use Rattle.std.specs.Io.KnownBytes.{Consumes, IsAtEnd, Keeps};
ghost use Rattle.rbbi_io.specs.Answers.{AnswersRead, IsToldAs, KeepsFault};
ghost use Rattle.rbbi_io.specs.Readers.{TakesAtMost};

use crate::real_draft::write_file;
use crate::{Files, ReadErr, WriteErr};
use rbbi_text::Raw;
use std::alloc::{AllocError, Global};
use std::fs::File;
use std::io;
use std::io::{ErrorKind, Read};
use std::marker::Model;

/// How many bytes are asked for at once, at most.
const BLOCK: usize = 262_144;

/// The files of the system. They do not tell what they hold, and keep four counts, each of all
/// names together: of the calls, the failed reads, the failed writes, and the writes that were
/// done. They keep the fault that the last read was refused for. Contracts see the counts and the
/// fault.
#[derive(Drop)]
pub struct RealFiles<'a, R> {
    rt: &'a R,
    calls: u64,
    failed_reads: u64,
    failed_writes: u64,
    written: u64,
    fault: Option<io::Error>,
}

impl<'a, R> Model for RealFiles<'a, R> {
    ghost use Rattle.rbbi_io.specs.Counts.{CallCounts};

    ghost Value = { CallCounts };

    ghost view = { λ files. record {
      calls = files.calls;
      reads = files.failed_reads;
      writes = files.failed_writes;
      written = files.written;
      fault = files.fault;
    } };
}

impl<'a, R: std::rt::Files> RealFiles<'a, R> {
    ghost use Rattle.rbbi_io.specs.Answers.{TriesRead};

    /// The files of this runtime, with no call so far.
    pub fn new(rt: &'a R) -> RealFiles<'a, R>
        ensures { result ≡ record { calls = 0; reads = 0; writes = 0; written = 0; fault = None } }
    {
        RealFiles {
            rt,
            calls: 0,
            failed_reads: 0,
            failed_writes: 0,
            written: 0,
            fault: None,
        }
    }

    /// How many writes failed.
    pub fn failed_writes(&self) -> u64
        ensures { result ≡ self.now.writes }
    {
        self.failed_writes
    }

    /// How many writes were done.
    pub fn written(&self) -> u64
        ensures { result ≡ self.now.written }
    {
        self.written
    }

    /// One try to read the file of this name. It is counted, and the fault that it is refused for
    /// is kept.
    fn try_read(&mut self, alloc: Global, name: &str, limit: u64) -> Result<Raw, ReadErr>
        ensures within { IfOk result (λ bytes. length bytes ≤ limit) }
        ensures left { TriesRead self.old result self.new }
    {
        self.calls = self.calls.saturating_add(1);
        self.fault = None;
        match File::open(self.rt, name) {
            Ok(mut file) => read_at_most(alloc, &mut file, limit, &mut self.fault),
            Err(fault) => Err(refused_read(fault, &mut self.fault)),
        }
    }
}

/// This many zeros.
fn zeros(alloc: Global, count: usize) -> Result<Vec<u8>, AllocError>
    ensures { IfOk result (λ zeros. length zeros.items ≡ count) }
{
    vec![in alloc; 0u8; count]
}

/// Reads into the start of the block, at most one byte more than `left`. It answers how many bytes
/// there were, and 0 at the end of the file. It never refuses `TooLong`, and keeps the fault that it
/// refuses for.
fn read_some<F: Read>(
    file: &mut F,
    block: &mut [u8],
    left: u64,
    fault: &mut Option<io::Error>,
) -> Result<usize, ReadErr>
    requires { 0 < length block.old }
    ensures within { IfOk result (λ count. count ≤ length block.new) }
    ensures most { IfOk result (λ count. count ≤ left + 1) }
    ensures bytes { MatchResult result
        (λ count. Consumes (F.remaining file.old) (F.remaining file.new) (take count block.new))
        (λ _. Keeps (F.remaining file.old) (F.remaining file.new)) }
    ensures end { IfOk result (λ count. count ≡ 0 → IsAtEnd (F.remaining file.new)) }
    ensures told { IfErr result (λ refusal. IsSomeAnd fault.new (λ f. IsToldAs f refusal)) }
    ensures calm { OnOk result (fault.new ≡ fault.old) }
{
    let wanted = left.min(block.len() as u64 - 1) as usize + 1;
    for _turn in 0..u64::MAX {
        match file.read(&mut block[..wanted]) {
            Ok(count) => return Ok(count),
            Err(found) => {
                if found.kind() != ErrorKind::Interrupted {
                    return Err(refused_read(found, fault));
                }
            }
        }
    }
    Err(refused_read(io::Error::from(ErrorKind::Interrupted), fault))
}

/// All bytes that a reader still has, at most `limit`. It takes at most one byte more than `limit`,
/// whatever it answers.
///
/// Refuses `TooLong` only where the reader had more than `limit` bytes, and is `Ok` only where it
/// had no more. Contracts see the bytes of readers that tell them. The files of the system do not,
/// and are read by this function alone.
///
/// The fault that it refuses `Failed` for is kept in `fault`, and so is one that is lack of memory.
pub fn read_at_most<F: Read>(
    alloc: Global,
    reader: &mut F,
    limit: u64,
    fault: &mut Option<io::Error>,
) -> Result<Raw, ReadErr>
    ensures within { IfOk result (λ bytes. length bytes ≤ limit) }
    ensures answer { IfSome (F.remaining reader.old) (λ held. AnswersRead held limit result) }
    ensures most { TakesAtMost (F.remaining reader.old) (F.remaining reader.new) (limit + 1) }
    ensures kept { KeepsFault fault.old result fault.new }
{
    let mut block = zeros(alloc, BLOCK)?;
    let mut bytes = Vec::new(alloc);
    for _turn in 0..u64::MAX {
        let left = limit - bytes.len() as u64;
        let count = read_some(reader, block.as_mut_slice(), left, fault)?;
        if count == 0 {
            return Ok(Raw::new(bytes));
        }
        if count as u64 > left {
            return Err(ReadErr::TooLong);
        }
        bytes.extend_from_slice(&block[..count])?;
    }
    Err(refused_read(io::Error::from(ErrorKind::Interrupted), fault))
}

/// `Memory` if memory ran out, and otherwise `Failed`; never `TooLong`. The fault is kept.
fn refused_read(found: io::Error, fault: &mut Option<io::Error>) -> ReadErr
    ensures told { IsToldAs found result }
    ensures kept { fault.new ≡ Some found }
{
    *fault = Some(found);
    if found.kind() == ErrorKind::OutOfMemory {
        ReadErr::Memory
    } else {
        ReadErr::Failed
    }
}

impl<'a, R: std::rt::Files + Alloc> RealFiles<'a, R> {
    ghost use Rattle.rbbi_io.specs.Counts.{one_more};

    /// One try to write the file of this name, which is counted.
    fn try_write(&mut self, name: &str, bytes: &[u8]) -> Result<(), WriteErr>
        ensures { self.new ≡ record self.old { calls = one_more self.old.calls } }
    {
        self.calls = self.calls.saturating_add(1);
        write_file(self.rt, name, bytes)
    }
}

impl<'a, R: std::rt::Files + Alloc> Files for RealFiles<'a, R> {
    ghost use Rattle.std.specs.Prelude.{None};
    ghost use Rattle.rbbi_io.specs.Counts.{capped};
    ghost use Rattle.rbbi_io.specs.Answers.{CountsRead, CountsWrite};
    ghost use Rattle.std.proofs.Common.{arith};

    ghost contents = { λ _. None };

    ghost failed_reads = { λ counts _. capped counts.reads };

    ghost failed_writes = { λ counts _. capped counts.writes };

    ghost read_gives = { λ old _ _ result new. CountsRead old result new };

    ghost write_gives = { λ old _ _ result new. CountsWrite old result new };

    ghost reads_fit = { λ counts name. Prim.omega arith };

    ghost writes_fit = { λ counts name. Prim.omega arith };

    fn read(&mut self, alloc: Global, name: &str, limit: u64) -> Result<Raw, ReadErr> {
        let outcome = self.try_read(alloc, name, limit);
        if let Err(ReadErr::Failed) = &outcome {
            self.failed_reads = self.failed_reads.saturating_add(1);
        }
        outcome
    }

    fn read_fault(&self) -> Option<io::Error>
        ensures { result ≡ self.now.fault }
    {
        self.fault
    }

    fn write(&mut self, name: &str, bytes: &[u8]) -> Result<(), WriteErr> {
        let outcome = self.try_write(name, bytes);
        match &outcome {
            Ok(()) => self.written = self.written.saturating_add(1),
            Err(WriteErr::Failed) => self.failed_writes = self.failed_writes.saturating_add(1),
            Err(WriteErr::Memory) => {}
        }
        outcome
    }
}
