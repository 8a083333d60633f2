//! Files in memory that never fail.
ghost use Rattle.std.specs.Prelude.{◌≡◌, ◌≤◌, [], length, OnOk, OnErr, IfOk, IsErrOf};
ghost use Rattle.std.specs.Prelude.{option_copied};
ghost use Rattle.rbbi_io.specs.Counts.{one_more};
ghost use Rattle.rbbi_io.specs.Answers.{AnswersRead, LeavesWritten};
ghost use Rattle.rbbi_io.specs.Memory.{file_of, held_by, with_file};

use crate::named_files::{MemFile, find, store};
use crate::{Files, ReadErr, WriteErr};
use rbbi_text::Raw;
use std::alloc::{AllocError, Global};
use std::marker::Model;

/// Files in memory that never fail. They tell what they hold, and each count of faults is always 0,
/// so they refuse only `TooLong` and `Memory`.
///
/// A name that nobody added or wrote holds no bytes. Reads and writes are counted together, from 1.
#[derive(Drop)]
pub struct CalmFiles {
    alloc: Global,
    files: Vec<MemFile>,
    calls: u64,
}

impl Model for CalmFiles {
    ghost use Rattle.rbbi_io.specs.Memory.{CalmFilesInMemory};

    ghost Value = { CalmFilesInMemory };

    ghost view = { λ calm. record { files = calm.files.items; calls = calm.calls } };
}

impl CalmFiles {
    /// Files that hold nothing.
    pub fn new(alloc: Global) -> CalmFiles
        ensures { result ≡ record { files = []; calls = 0 } }
    {
        CalmFiles {
            alloc,
            files: Vec::new(alloc),
            calls: 0,
        }
    }

    /// How many reads and writes there were.
    pub fn calls(&self) -> u64
        ensures { result ≡ self.now.calls }
    {
        self.calls
    }

    /// Puts a file there, in place of an older one of this name.
    pub fn add(&mut self, name: &str, bytes: &[u8]) -> Result<(), AllocError>
        ensures ok { OnOk result (self.new
            ≡ record self.old { files = with_file self.old.files name.now bytes.now }) }
        ensures err { OnErr result (self.new ≡ self.old) }
    {
        let bytes = bytes.to_vec(self.alloc)?;
        store(self.alloc, &mut self.files, name, bytes)
    }

    /// The bytes of a file, or nothing where there is no such name.
    pub fn get(&self, name: &str) -> Option<&[u8]>
        ensures { option_copied result ≡ file_of self.now.files name.now }
    {
        find(self.files.as_slice(), name)
    }
}

impl Files for CalmFiles {
    ghost use Rattle.std.specs.Prelude.{Some};
    ghost use Rattle.std.proofs.Common.{arith};

    ghost contents = { λ calm. Some (held_by calm.files) };

    ghost failed_reads = { λ _ _. 0 };

    ghost failed_writes = { λ _ _. 0 };

    ghost reads_fit = { λ calm name. Prim.omega arith };

    ghost writes_fit = { λ calm name. Prim.omega arith };

    fn read(&mut self, alloc: Global, name: &str, limit: u64) -> Result<Raw, ReadErr>
        ensures answer { AnswersRead (held_by self.old.files name.now) limit result }
        ensures within { IfOk result (λ bytes. length bytes ≤ limit) }
        ensures never { ¬ IsErrOf result ReadErr.Failed }
        ensures left { self.new ≡ record self.old { calls = one_more self.old.calls } }
    {
        self.calls = self.calls.saturating_add(1);
        let bytes = self.get(name).unwrap_or(&[]);
        if bytes.len() as u64 > limit {
            return Err(ReadErr::TooLong);
        }
        Ok(Raw::new(bytes.to_vec(alloc)?))
    }

    fn write(&mut self, name: &str, bytes: &[u8]) -> Result<(), WriteErr>
        ensures held { LeavesWritten name.now bytes.now result
            (held_by self.old.files) (held_by self.new.files) }
        ensures never { ¬ IsErrOf result WriteErr.Failed }
        ensures ok { OnOk result (self.new ≡ record self.old {
          files = with_file self.old.files name.now bytes.now;
          calls = one_more self.old.calls;
        }) }
        ensures err { OnErr result (self.new
            ≡ record self.old { calls = one_more self.old.calls }) }
    {
        self.calls = self.calls.saturating_add(1);
        self.add(name, bytes)?;
        Ok(())
    }
}
