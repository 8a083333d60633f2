//! What is written of an output: its file first, and then its bytes.
ghost use Rattle.std.specs.Prelude.{◌≡◌, ◌≤◌, ◌⊎◌, IsErrOf, OnSome};
ghost use Rattle.rbbi_io.specs.declared.error.WriteErr.TheVariants.{Failed};
ghost use Rattle.rbbi_io.specs.Counts.{Rose, GoesOn, EachGoesOn, EachStays};
ghost use Rattle.rbbi_io.specs.Answers.{WhereTold};
ghost use Rattle.rbbi_io.specs.Sinks.{Takes, TakesFront};
ghost use Rattle.rbbi_command.specs.Delivery as spec;
ghost use Rattle.rbbi_command.specs.Delivery.{EachHoldsOrIsOutputFile, FileFailed};
ghost use Rattle.rbbi_command.specs.inner.Delivery.{LeavesFile};
ghost use Rattle.rbbi_command.specs.Delivery.{MakesWrite, OthersUncounted};

use crate::{Output, Written};
use rbbi_io::{Files, Sink, WriteErr, put_all};

/// Writes the file, if there is one.
fn write_file<F: Files>(file: &Option<Written>, files: &mut F) -> Result<(), WriteErr>
    ensures held { WhereTold (F.contents files.old) (F.contents files.new)
        (LeavesFile file.now result) }
    ensures failed { IsErrOf result Failed
        → FileFailed file.now (F.failed_writes files.old) (F.failed_writes files.new) }
    ensures call { MakesWrite F.write_gives file.now files.old files.new }
    ensures writes { EachGoesOn (F.failed_writes files.old) (F.failed_writes files.new) }
    ensures reads { EachStays (F.failed_reads files.old) (F.failed_reads files.new) }
    ensures others { OnSome (F.contents files.old) (OthersUncounted file.now
        (F.failed_writes files.old) (F.failed_writes files.new)) }
{
    match file {
        Some(written) => files.write(written.name.as_str(), &written.bytes),
        None => Ok(()),
    }
}

/// Writes the file of an output, if it has one, and then the output's bytes. If the file isn't
/// written, no byte is. The result is the exit status: that of the output, 7 if the write or a put
/// failed, or 8 if memory ran out.
pub fn deliver<F: Files, K: Sink>(output: &Output, files: &mut F, out: &mut K) -> u8
    requires { output.now.status ≤ 6 }
    ensures status { (result ≡ output.now.status) ⊎ ((result ≡ 7) ⊎ (result ≡ 8)) }
    ensures taken { result ≤ 6 → Takes (K.taken out.old) (K.taken out.new) output.now.bytes }
    ensures held { result ≤ 6 → WhereTold (F.contents files.old) (F.contents files.new)
        (spec.HoldsFile output.now.file) }
    ensures failed { result ≡ 7 → Rose (K.faults out.old) (K.faults out.new)
        ⊎ FileFailed output.now.file (F.failed_writes files.old) (F.failed_writes files.new) }
    ensures front { TakesFront (K.taken out.old) (K.taken out.new) output.now.bytes }
    ensures file_first { (K.taken out.new ≡ K.taken out.old)
        ⊎ WhereTold (F.contents files.old) (F.contents files.new)
        (spec.HoldsFile output.now.file) }
    ensures contents { WhereTold (F.contents files.old) (F.contents files.new)
        (EachHoldsOrIsOutputFile output.now.file
        (F.failed_writes files.old) (F.failed_writes files.new)) }
    ensures call { MakesWrite F.write_gives output.now.file files.old files.new }
    ensures others { OnSome (F.contents files.old) (OthersUncounted output.now.file
        (F.failed_writes files.old) (F.failed_writes files.new)) }
    ensures reads { EachStays (F.failed_reads files.old) (F.failed_reads files.new) }
    ensures writes { EachGoesOn (F.failed_writes files.old) (F.failed_writes files.new) }
    ensures faults { GoesOn (K.faults out.old) (K.faults out.new) }
{
    match write_file(&output.file, files) {
        Ok(()) => {}
        Err(WriteErr::Failed) => return 7,
        Err(WriteErr::Memory) => return 8,
    }
    match put_all(out, &output.bytes) {
        Ok(()) => output.status,
        Err(WriteErr::Failed) => 7,
        Err(WriteErr::Memory) => 8,
    }
}
