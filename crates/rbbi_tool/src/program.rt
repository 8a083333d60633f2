//! The top call.
ghost use Rattle.std.specs.Prelude.{◌≡◌, ◌≢◌, ◌≤◌, ◌⊎◌, map, IfOk, IfSome, Some};
ghost use Rattle.std.specs.String.{string_bytes};
ghost use Rattle.rbbi_model.specs.Lines.{usage_line};
ghost use Rattle.rbbi_io.specs.Counts.{Rose, GoesOn, EachGoesOn, EachStays};
ghost use Rattle.rbbi_io.specs.Answers.{WhereTold};
ghost use Rattle.rbbi_io.specs.Sinks.{Takes};
ghost use Rattle.rbbi_io.specs.Memory.{held_by};
ghost use Rattle.rbbi_command.specs.Words.{Request, IsCommandLine, AreNoForm};
ghost use Rattle.rbbi_command.specs.Files.{sources_of};
ghost use Rattle.rbbi_command.specs.Reads.{MakesSomeReads};
ghost use Rattle.rbbi_tool.specs.Steps.{RequestReads};
ghost use Rattle.rbbi_tool.specs.inner.Steps.{ReadsInOrder};
ghost use Rattle.rbbi_tool.specs.inner.Calls.{ReadsAsAsked};
ghost use Rattle.rbbi_tool.specs.inner.Causes.{ComesTo, GivesOutcome};
ghost use Rattle.rbbi_tool.specs.inner.Prepared.{answer_of, outcome_of, rest_of, rest_after};
ghost use Rattle.rbbi_tool.specs.Calls.{CallsInOrder};
ghost use Rattle.rbbi_tool.specs.Causes.{NoReadFailed};
ghost use Rattle.rbbi_tool.specs.Causes.{TakesOutcome, TakesFailedRead, TakesPart};
ghost use Rattle.rbbi_tool.specs.Causes.{EachHolds, SomeWriteFailed, OthersUnwritten};

use crate::emission::emit;
use crate::prepare::prepare;
use crate::prepared::Prepared;
use rbbi_command::{Output, Refusal, read_all, request_of, sources_of};
use rbbi_io::{CalmFiles, CalmSink, Files, Sink};
use rbbi_text::Steps;
use std::alloc::{AllocError, Global};
use std::sync::ledger::Ledger;

/// What the words come to over the files, or what ends the run. No file is written.
fn run<F: Files, L: Ledger>(
    alloc: Global,
    words: &Vec<String>,
    files: &mut F,
    steps: &mut Steps<L>,
) -> Result<Prepared, Refusal>
    ensures comes { ComesTo (map string_bytes words.now.items) (F.contents files.old)
        (F.failed_reads files.old) (F.failed_reads files.new) (answer_of result) }
    ensures reading { ReadsInOrder (map string_bytes words.now.items) (F.contents files.old)
        (F.failed_reads files.old) (F.failed_reads files.new)
        (rest_after result) steps.old steps.new }
    ensures calls { ReadsAsAsked F.read_gives (map string_bytes words.now.items)
        files.old (answer_of result) files.new }
    ensures contents { F.contents files.new ≡ F.contents files.old }
    ensures reads { EachGoesOn (F.failed_reads files.old) (F.failed_reads files.new) }
    ensures writes { EachStays (F.failed_writes files.old) (F.failed_writes files.new) }
{
    let Some(request) = request_of(alloc, words)? else {
        return Err(Refusal::Usage);
    };
    let sources = sources_of(alloc, &request)?;
    let inputs = read_all(alloc, &sources, files)?;
    prepare(alloc, &request, &inputs, steps)
}

/// What is written: the status, the bytes for the sink, and the file.
fn told(alloc: Global, ended: Result<Prepared, Refusal>) -> Result<Prepared, AllocError>
    ensures gives { IfOk result (λ told. GivesOutcome (answer_of ended) (outcome_of told)) }
    ensures rest { IfOk result (λ told. rest_of told ≡ rest_after ended) }
{
    match ended {
        Ok(prepared) => Ok(prepared),
        Err(Refusal::Memory) => Err(AllocError),
        Err(refusal) => {
            let bytes = refusal.line(alloc)?;
            Ok(Prepared::Ready(Output {
                status: refusal.status(),
                bytes,
                file: None,
            }))
        }
    }
}

/// Runs the command that the arguments ask for, over the files, and writes its output to `out`.
/// `words` are the arguments, those after the program's name. The result is the exit status.
///
/// | status | comes | what is written |
/// |---|---|---|
/// | 0 | all is done | what the command tells |
/// | 1 | all is done; a test of `conform` or the marks of `same` differ | what the command tells |
/// | 2 | the arguments are invalid | how to call the program |
/// | 3 | a rule file is too long, isn't UTF-8 or has a fault | the fault |
/// | 4 | the table file is too long, or not a valid table file | the fault |
/// | 5 | another file is too long, isn't UTF-8, has too many characters or a bad line | the fault |
/// | 6 | a read of a file failed | the file |
/// | 7 | a put or a write failed | a prefix of what was to be written |
/// | 8 | memory ran out | a prefix of what was to be written |
///
/// The arguments are checked first, then the files are read in their order; then come the property
/// files, then a filter file, then the rule file or the table file, for `same` the second rule
/// file, then the text, and then the script or the tests. A file that the command writes is written
/// before any output, so where that fails, there is no output. The lines of `breaks`, `run` and
/// `tally` are written while they are made, as soon as 65,536 bytes or more wait. No call on the
/// files comes after a read or a write that is refused. That none on the sink comes after a write
/// or a put that is refused is tested.
pub fn rbbi<F: Files, K: Sink, L: Ledger>(
    alloc: Global,
    words: &Vec<String>,
    files: &mut F,
    out: &mut K,
    steps: &mut Steps<L>,
) -> u8
    ensures statuses { result ≤ 8 }

    // 2 comes exactly where the arguments are invalid, unless the line can't be put or memory runs
    // out; and then no call is made on the files.
    ensures usage { result ≡ 2 → AreNoForm (map string_bytes words.now.items)
        × Takes (K.taken out.old) (K.taken out.new) usage_line }
    ensures no_form { AreNoForm (map string_bytes words.now.items)
        → (result ≡ 2) ⊎ ((result ≡ 7) ⊎ (result ≡ 8)) }
    ensures uncalled { AreNoForm (map string_bytes words.now.items) → files.new ≡ files.old }

    // The files are read in the order of the words, each once, and none after one that can't be
    // read or is too long, which is the one that is reported. Then one is written at most.
    ensures calls { (request : Request) → IsCommandLine (map string_bytes words.now.items) request
        → CallsInOrder F.read_gives F.write_gives (map string_bytes words.now.items)
        (sources_of request) files.old files.new result (K.taken out.old) (K.taken out.new) }
    ensures order { (request : Request) → IsCommandLine (map string_bytes words.now.items) request
        → IfSome (F.contents files.old) (MakesSomeReads (sources_of request)
        (F.failed_reads files.old) (F.failed_reads files.new)) }

    // Of a text only the characters count that are read. Its lines are made within what the
    // boundaries, the commands or the counts cost; beside that, the bytes of the other files are
    // read once.
    ensures steps { (request : Request) → IsCommandLine (map string_bytes words.now.items) request
        → IfSome (F.contents files.old)
        (λ held. RequestReads request held steps.old steps.new) }

    // 0 to 5 are the one outcome of the words and of what the files hold.
    ensures outcome { result ≤ 5 → WhereTold (F.contents files.old) (F.contents files.new)
        (TakesOutcome (map string_bytes words.now.items) result
        (K.taken out.old) (K.taken out.new)) }

    // 6 and 7 come only with a fault that the files or the sink counted, and 0 to 5 only where no
    // read failed.
    ensures read_failed { result ≡ 6 → TakesFailedRead (map string_bytes words.now.items)
        (F.contents files.old) (F.failed_reads files.old) (F.failed_reads files.new)
        (K.taken out.old) (K.taken out.new) }
    ensures unfailed { result ≤ 5
        → EachStays (F.failed_reads files.old) (F.failed_reads files.new) }
    ensures put_failed { result ≡ 7 → Rose (K.faults out.old) (K.faults out.new)
        ⊎ SomeWriteFailed (map string_bytes words.now.items)
        (F.failed_writes files.old) (F.failed_writes files.new) }

    // After 7 and 8 nothing was taken, or a prefix of the output, and that only where the file that
    // the outcome writes holds its bytes: it is written before any output.
    ensures front { 7 ≤ result → WhereTold (F.contents files.old) (F.contents files.new)
        (TakesPart (map string_bytes words.now.items) (F.failed_reads files.old)
        (F.failed_reads files.new) (K.taken out.old) (K.taken out.new)) }

    // Where no fault was counted, there is the outcome or memory ran out.
    ensures complete { NoReadFailed (map string_bytes words.now.items) (F.failed_reads files.old)
        (F.failed_reads files.new) → ¬ Rose (K.faults out.old) (K.faults out.new)
        → ¬ SomeWriteFailed (map string_bytes words.now.items)
        (F.failed_writes files.old) (F.failed_writes files.new) → result ≢ 8
        → WhereTold (F.contents files.old) (F.contents files.new)
        (TakesOutcome (map string_bytes words.now.items) result
        (K.taken out.old) (K.taken out.new)) }

    // Every file holds what it held, but for one that the outcome writes; and after 2 to 6 that one
    // too. No count falls, and where the files tell what they hold, no failed write is counted but
    // of a file that the arguments name to be written.
    ensures contents { WhereTold (F.contents files.old) (F.contents files.new)
        (EachHolds (map string_bytes words.now.items)
        (F.failed_writes files.old) (F.failed_writes files.new)) }
    ensures unwritten { 2 ≤ result → result ≤ 6 → F.contents files.new ≡ F.contents files.old }
    ensures others { IfSome (F.contents files.old) (λ _. OthersUnwritten
        (map string_bytes words.now.items)
        (F.failed_writes files.old) (F.failed_writes files.new)) }
    ensures reads { EachGoesOn (F.failed_reads files.old) (F.failed_reads files.new) }
    ensures writes { EachGoesOn (F.failed_writes files.old) (F.failed_writes files.new) }
    ensures faults { GoesOn (K.faults out.old) (K.faults out.new) }
{
    let ended = run(alloc, words, files, steps);
    match told(alloc, ended) {
        Ok(prepared) => emit(alloc, prepared, files, out, steps),
        Err(AllocError) => 8,
    }
}

/// Runs the command that the arguments ask for, as `rbbi` does, over files and a sink in memory
/// that never fail. The result is the exit status.
///
/// Every call gives the outcome of the arguments and of what the files hold, or 8 where memory ran
/// out: 6 and 7 never come.
pub fn rbbi_in_memory<L: Ledger>(
    alloc: Global,
    words: &Vec<String>,
    files: &mut CalmFiles,
    out: &mut CalmSink,
    steps: &mut Steps<L>,
) -> u8
    ensures { result ≢ 8 → TakesOutcome (map string_bytes words.now.items) result
        (Some out.old.bytes) (Some out.new.bytes)
        (held_by files.old.files) (held_by files.new.files) }
{
    rbbi(alloc, words, files, out, steps)
}
