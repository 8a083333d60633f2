//! Files by their names, read and written whole.
ghost use Rattle.std.specs.Prelude.{◌≡◌, ◌≤◌, ℕ, List, Option, length, IfOk, IfSome, OnSome};
ghost use Rattle.std.specs.Prelude.{Result, IsErrOf, ⊤};
ghost use Rattle.rbbi_io.specs.Counts.{greatest_count, Rose, EachGoesOn, EachStays, OthersStay};
ghost use Rattle.rbbi_io.specs.Answers.{AnswersRead, LeavesWritten, WhereTold};
ghost use Rattle.rbbi_io.specs.declared.error.ReadErr.{ReadErr};
ghost use Rattle.rbbi_io.specs.declared.error.WriteErr.{WriteErr};

use crate::{ReadErr, WriteErr};
use rbbi_text::Raw;
use std::alloc::Global;
use std::io;

/// Files by their names. Contracts see what each name holds, where the files tell that, and for
/// each name how many reads and how many writes of it failed. Names and contents are lists of
/// bytes.
///
/// A count never falls and stops at 18,446,744,073,709,551,615. A count that stands there counts as
/// risen.
pub trait Files {
    /// What each name holds, or nothing where the files do not tell.
    ghost contents: { Self → Option (List ℕ → List ℕ) };

    /// How many reads of each name failed.
    ghost failed_reads: { Self → List ℕ → ℕ };

    /// How many writes of each name failed.
    ghost failed_writes: { Self → List ℕ → ℕ };

    /// What a read of a name within a limit answers and leaves, where the files say more of it than
    /// is said below.
    ghost read_gives: { Self → List ℕ → ℕ → Result (List ℕ) ReadErr → Self → Type 0 } = { λ _ _ _ _ _. ⊤ };

    /// What a write of bytes to a name answers and leaves, likewise.
    ghost write_gives: { Self → List ℕ → List ℕ → Result (Unit {0}) WriteErr → Self → Type 0 } = { λ _ _ _ _ _. ⊤ };

    /// All bytes that the name holds, at most `limit`. A read changes no content.
    ///
    /// Refuses `Failed` only where the name's count of failed reads rose. A read that does not
    /// answer `Failed` changes no count, and refuses `TooLong` exactly where the name holds more
    /// than `limit` bytes.
    fn read(&mut self, alloc: Global, name: &str, limit: u64) -> Result<Raw, ReadErr>
        ensures within { IfOk result (λ bytes. length bytes ≤ limit) }
        ensures answer { IfSome (contents self.old)
            (λ held. AnswersRead (held name.now) limit result) }
        ensures failed { IsErrOf result ReadErr.Failed
            → Rose (failed_reads self.old name.now) (failed_reads self.new name.now) }
        ensures gives { read_gives self.old name.now limit result self.new }

        ensures same { contents self.new ≡ contents self.old }
        ensures reads { EachGoesOn (failed_reads self.old) (failed_reads self.new) }
        ensures writes { EachStays (failed_writes self.old) (failed_writes self.new) }
        ensures others { OnSome (contents self.old)
            (OthersStay name.now (failed_reads self.old) (failed_reads self.new)) }
        ensures calm { ¬ IsErrOf result ReadErr.Failed
            → EachStays (failed_reads self.old) (failed_reads self.new) };

    /// Why the last read was refused, in the system's words, if that is known.
    fn read_fault(&self) -> Option<io::Error> {
        None
    }

    /// Makes the name hold these bytes. Every other name holds what it held.
    ///
    /// Refuses `Failed` only where the name's count of failed writes rose; the name may then hold
    /// anything. After `Memory` all names hold what they held.
    fn write(&mut self, name: &str, bytes: &[u8]) -> Result<(), WriteErr>
        ensures held { WhereTold (contents self.old) (contents self.new)
            (LeavesWritten name.now bytes.now result) }
        ensures failed { IsErrOf result WriteErr.Failed
            → Rose (failed_writes self.old name.now) (failed_writes self.new name.now) }
        ensures gives { write_gives self.old name.now bytes.now result self.new }

        ensures writes { EachGoesOn (failed_writes self.old) (failed_writes self.new) }
        ensures reads { EachStays (failed_reads self.old) (failed_reads self.new) }
        ensures others { OnSome (contents self.old)
            (OthersStay name.now (failed_writes self.old) (failed_writes self.new)) };

    /// No count of failed reads is past the greatest number.
    ghost reads_fit: { (files : Self) (name : List ℕ) → failed_reads files name ≤ greatest_count };

    /// No count of failed writes is past the greatest number.
    ghost writes_fit: { (files : Self) (name : List ℕ) →
        failed_writes files name ≤ greatest_count };
}
