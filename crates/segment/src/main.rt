//! The program `segment`: the graphemes, words, sentences or lines of a text, over the system's
//! files.
#![tactic(auto)]

ghost use Rattle.std.specs.Prelude.{◌≡◌, ◌<◌};

mod system;

use crate::system::{Noting, RealSystem};
use rbbi_io::{RealFiles, RealSink, words};
use rbbi_segment::{CommandLine, Sizes, Surroundings, segment};
use rbbi_text::Steps;
use std::cell::Cell;
use std::io::{ErrorKind, IsTerminal};
use std::marker::Brand;
use std::process::ExitCode;
use std::sync::ledger::{Blank, Ledger};
use std::{env, io};

/// Whether the surroundings ask for no colours, by `NO_COLOR`, or by a terminal that has none.
fn asks_for_no_color(rt: &HostRuntime) -> bool {
    let is_asked = match env::var(rt, "NO_COLOR") {
        Ok(value) => !value.as_str().is_empty(),
        Err(_) => false,
    };
    let has_none = match env::var(rt, "TERM") {
        Ok(terminal) => terminal.as_str() == "dumb",
        Err(_) => false,
    };
    is_asked || has_none
}

/// What the program is run in.
fn surroundings(rt: &HostRuntime) -> Surroundings {
    Surroundings {
        output_is_terminal: rt.stdout().is_terminal(),
        errors_are_on_terminal: rt.stderr().is_terminal(),
        no_color: asks_for_no_color(rt),
        sizes: Sizes::USUAL,
    }
}

/// Runs the program with a counter of its own. It counts nothing at run time.
fn run<L: Ledger>(rt: &HostRuntime, words: &Vec<String>, blank: Blank) -> u8
    requires name { blank.name ≡ L.name }
    requires parts { blank.parts ≡ L.parts }
    requires some { 0 < blank.parts }
{
    let mut files = RealFiles::new(rt);
    let mut input = rt.stdin();
    let fault = Cell::new(None);
    let mut out = RealSink::new(Noting {
        out: rt.stdout(),
        fault: &fault,
    });
    let system = RealSystem { rt, fault: &fault };
    let mut errors = RealSink::new(rt.stderr());
    let mut steps = Steps::<L>::new(rt, blank);
    let line = CommandLine::parse(rt.alloc(), words);
    segment(
        rt.alloc(),
        &line,
        surroundings(rt),
        &system,
        &mut files,
        &mut input,
        &mut out,
        &mut errors,
        &mut steps,
    )
}

/// Why there are no arguments.
fn refusal(fault: &io::Error) -> &'static str {
    match fault.kind() {
        ErrorKind::InvalidData => {
            "an argument isn't UTF-8: give a file of such a name as standard input, segment < FILE"
        }
        ErrorKind::OutOfMemory => "memory ran out",
        _ => "the system doesn't give the arguments",
    }
}

fn main(rt: HostRuntime) -> ExitCode {
    match words(&rt) {
        Ok(words) => ExitCode::from(run::<Brand>(&rt, &words, Blank::new(1))),
        Err(fault) => {
            let _ = eprintln!(rt; "segment: {}", refusal(&fault));
            ExitCode::from(2)
        }
    }
}
