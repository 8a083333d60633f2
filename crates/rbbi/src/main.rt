//! The program `rbbi`: the top call over the system's files and its standard output.
#![tactic(auto)]

ghost use Rattle.std.specs.Prelude.{◌≡◌, ◌<◌};

use rbbi_io::{RealFiles, RealSink, words};
use rbbi_text::Steps;
use rbbi_tool::rbbi;
use std::io::{self, ErrorKind};
use std::marker::Brand;
use std::process::ExitCode;
use std::sync::ledger::{Blank, Ledger};

/// Runs the top call with a counter of its own. It counts nothing at run time.
fn run<L: Ledger>(rt: &HostRuntime, words: &Vec<String>, blank: Blank) -> u8
    requires name { blank.name ≡ L.name }
    requires parts { blank.parts ≡ L.parts }
    requires some { 0 < blank.parts }
{
    let mut files = RealFiles::new(rt);
    let mut out = RealSink::new(io::writer(rt));
    let mut steps = Steps::<L>::new(rt, blank);
    let status = rbbi(rt.alloc(), words, &mut files, &mut out, &mut steps);
    tell_silent_end(rt, status, &files);
    status
}

/// Prints to standard error why a run ended without a line of its own, and if it wrote a table
/// file or tried to, whether that is the new one. Prints nothing if that fails too.
fn tell_silent_end(rt: &HostRuntime, status: u8, files: &RealFiles<'_, HostRuntime>) {
    let cause = match status {
        7 if files.failed_writes() > 0 => "the table file could not be written",
        7 => "the output could not be written",
        8 => "memory ran out",
        _ => return,
    };
    let table = if files.written() > 0 {
        ", but the table file is the new one"
    } else {
        ""
    };
    let _ = eprintln!(rt; "rbbi: {cause}{table}");
}

/// The exit status where the system doesn't give the arguments, and why it doesn't.
fn refusal(fault: &io::Error) -> (u8, &'static str) {
    match fault.kind() {
        ErrorKind::OutOfMemory => (8, "memory ran out"),
        ErrorKind::InvalidData => (9, "an argument is not UTF-8"),
        _ => (9, "the system does not give the arguments"),
    }
}

fn main(rt: HostRuntime) -> ExitCode {
    let status = match words(&rt) {
        Ok(words) => run::<Brand>(&rt, &words, Blank::new(1)),
        Err(fault) => {
            let (status, cause) = refusal(&fault);
            let _ = eprintln!(rt; "rbbi: {cause}");
            status
        }
    };
    ExitCode::from(status)
}
