//! Files in memory, with calls that are made to fail.
ghost use Rattle.std.specs.Prelude.{◌≡◌, ◌≤◌, ◌↔◌, ◌++◌, [], ◌∷◌, length, IsTrue, OnOk, OnErr};
ghost use Rattle.std.specs.Prelude.{IsErrOf, option_copied};
ghost use Rattle.rbbi_io.specs.Counts.{Rose, EachStays, OthersStay};
ghost use Rattle.rbbi_io.specs.Answers.{LeavesWritten};
ghost use Rattle.rbbi_io.specs.Memory.{reads_failed, writes_failed, held_by, file_of, with_file};
ghost use Rattle.rbbi_io.specs.Memory.{called, IsToFail, ReadsMemory};
ghost use Rattle.rbbi_io.specs.Memory.{WritesMemory};

use crate::named_files::{MemFile, find, store};
use crate::{Files, ReadErr, WriteErr};
use rbbi_text::Raw;
use std::alloc::{AllocError, Global};
use std::io;
use std::marker::Model;

/// Files in memory. They tell what they hold.
///
/// Reads and writes are counted together, from 1. A call whose number was given to `fail_at` fails,
/// and so does a read of a name that is not there. The names of failed reads and of failed writes
/// are kept; a failing call that finds no room for its name answers `Memory`. Of a name that is
/// not there they say what the system says, and of `.` that it is a folder.
#[derive(Drop)]
pub struct MemFiles {
    alloc: Global,
    files: Vec<MemFile>,
    calls: u64,
    failing: Vec<u64>,
    failed_reads: Vec<Raw>,
    failed_writes: Vec<Raw>,
    fault: Option<io::Error>,
}

impl Model for MemFiles {
    ghost use Rattle.rbbi_io.specs.Memory.{FilesInMemory};

    ghost Value = { FilesInMemory };

    ghost view = { λ memory. record {
      files = memory.files.items;
      calls = memory.calls;
      failing = memory.failing.items;
      failed_reads = memory.failed_reads.items;
      failed_writes = memory.failed_writes.items;
    } };
}

impl MemFiles {
    /// Files that hold nothing, with no call that is to fail.
    pub fn new(alloc: Global) -> MemFiles
        ensures { result ≡ record
            { files = []; calls = 0; failing = []; failed_reads = []; failed_writes = [] } }
    {
        MemFiles {
            alloc,
            files: Vec::new(alloc),
            calls: 0,
            failing: Vec::new(alloc),
            failed_reads: Vec::new(alloc),
            failed_writes: Vec::new(alloc),
            fault: None,
        }
    }

    /// How many reads and writes there were.
    pub fn calls(&self) -> u64
        ensures { result ≡ self.now.calls }
    {
        self.calls
    }

    /// Lets the call with this number fail, from 1.
    pub fn fail_at(&mut self, n: u64) -> Result<(), AllocError>
        ensures ok { OnOk result (self.new ≡ record self.old
            { failing = self.old.failing ++ n ∷ [] }) }
        ensures err { OnErr result (self.new ≡ self.old) }
    {
        self.failing.push(n)?;
        Ok(())
    }

    /// Puts a file there, in place of an older one of this name.
    pub fn add(&mut self, name: &str, bytes: &[u8]) -> Result<(), AllocError>
        ensures ok { OnOk result (self.new
            ≡ record self.old { files = with_file self.old.files name.now bytes.now }) }
        ensures err { OnErr result (self.new ≡ self.old) }
    {
        let bytes = bytes.to_vec(self.alloc)?;
        store(self.alloc, &mut self.files, name, bytes)
    }

    /// The bytes of a file, or nothing where there is no such name.
    pub fn get(&self, name: &str) -> Option<&[u8]>
        ensures { option_copied result ≡ file_of self.now.files name.now }
    {
        find(self.files.as_slice(), name)
    }

    /// Counts a call, and tells whether it is to fail.
    fn count_call(&mut self) -> bool
        ensures counted { self.new ≡ called self.old }
        ensures fails { IsTrue result ↔ IsToFail self.old.failing self.old.calls }
    {
        self.fault = None;
        self.calls = self.calls.saturating_add(1);
        self.failing.contains(&self.calls)
    }

    /// A read, with what it leaves.
    fn read_whole(&mut self, alloc: Global, name: &str, limit: u64) -> Result<Raw, ReadErr>
        ensures { ReadsMemory self.old name.now limit result self.new }
    {
        if self.count_call() {
            keep(self.alloc, &mut self.failed_reads, name)?;
            return Err(ReadErr::Failed);
        }
        let Some(bytes) = self.get(name) else {
            keep(self.alloc, &mut self.failed_reads, name)?;
            self.fault = Some(absent(name));
            return Err(ReadErr::Failed);
        };
        if bytes.len() as u64 > limit {
            return Err(ReadErr::TooLong);
        }
        Ok(Raw::new(bytes.to_vec(alloc)?))
    }

    /// A write, with what it leaves.
    fn write_whole(&mut self, name: &str, bytes: &[u8]) -> Result<(), WriteErr>
        ensures { WritesMemory self.old name.now bytes.now result self.new }
    {
        if self.count_call() {
            keep(self.alloc, &mut self.failed_writes, name)?;
            return Err(WriteErr::Failed);
        }
        self.add(name, bytes)?;
        Ok(())
    }
}

/// The numbers by which the system says that a name is not there, and that it is a folder.
const NOT_THERE: i32 = 2;

const IS_FOLDER: i32 = 21;

/// What the system says of a name that holds nothing.
fn absent(name: &str) -> io::Error {
    io::Error::from_raw_os_error(if name == "." { IS_FOLDER } else { NOT_THERE })
}

/// Adds a name to those of failed calls.
fn keep(alloc: Global, names: &mut Vec<Raw>, name: &str) -> Result<(), AllocError>
    ensures ok { OnOk result (names.new.items ≡ names.old.items ++ name.now ∷ []) }
    ensures err { OnErr result (names.new.items ≡ names.old.items) }
{
    let name = Raw::new(name.as_bytes().to_vec(alloc)?);
    names.push(name)?;
    Ok(())
}

impl Files for MemFiles {
    ghost use Rattle.std.specs.Prelude.{Some};
    ghost use Rattle.rbbi_io.specs.Memory.{held_by, reads_failed, writes_failed};
    ghost use Rattle.rbbi_io.specs.Memory.{ReadsMemory, WritesMemory};
    ghost use Rattle.std.proofs.Common.{arith};

    ghost contents = { λ memory. Some (held_by memory.files) };

    ghost failed_reads = { reads_failed };

    ghost failed_writes = { writes_failed };

    ghost read_gives = { ReadsMemory };

    ghost write_gives = { λ old name bytes result new. WritesMemory old name bytes result new };

    ghost reads_fit = { λ memory name. Prim.omega arith };

    ghost writes_fit = { λ memory name. Prim.omega arith };

    fn read(&mut self, alloc: Global, name: &str, limit: u64) -> Result<Raw, ReadErr>
        ensures exact { ReadsMemory self.old name.now limit result self.new }
        ensures failed { IsErrOf result ReadErr.Failed
            → Rose (reads_failed self.old name.now) (reads_failed self.new name.now) }
        ensures others { OthersStay name.now (reads_failed self.old) (reads_failed self.new) }
        ensures calm { ¬ IsErrOf result ReadErr.Failed
            → EachStays (reads_failed self.old) (reads_failed self.new) }
    {
        self.read_whole(alloc, name, limit)
    }

    fn read_fault(&self) -> Option<io::Error> {
        self.fault
    }

    fn write(&mut self, name: &str, bytes: &[u8]) -> Result<(), WriteErr>
        ensures exact { WritesMemory self.old name.now bytes.now result self.new }
        ensures held { LeavesWritten name.now bytes.now result
            (held_by self.old.files) (held_by self.new.files) }
        ensures failed { IsErrOf result WriteErr.Failed
            → Rose (writes_failed self.old name.now) (writes_failed self.new name.now) }
        ensures others { OthersStay name.now (writes_failed self.old) (writes_failed self.new) }
    {
        self.write_whole(name, bytes)
    }
}
