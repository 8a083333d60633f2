//! A case is run, and what differs is reported.
ghost use Rattle.std.specs.Prelude.{◌≡◌, ◌<◌};

use crate::case::{Case, Counted, Wanted};
use rbbi_io::MemFiles;
use rbbi_segment::{CommandLine, Sizes, Surroundings, System, segment};
use rbbi_text::Steps;
use rbbi_tool::rbbi;
use std::alloc::{AllocError, Global};
use std::io;
use std::marker::Brand;
use std::sync::ledger::{Blank, Ledger};

/// No terminal is anywhere.
fn surroundings(sizes: Sizes) -> Surroundings {
    Surroundings {
        output_is_terminal: false,
        errors_are_on_terminal: false,
        no_color: false,
        sizes,
    }
}

/// A system in which other files than the texts aren't there, and nobody knows why the output fails.
#[derive(Clone, Copy)]
struct Memory<'a> {
    /// The texts, which are those of the files.
    texts: &'a MemFiles,
}

impl<'a> System for Memory<'a> {
    ghost use Rattle.std.specs.Prelude.{None};

    ghost contents = { λ _. None };

    type Reader = &'a [u8];

    fn open(&self, name: &str) -> io::Result<&'a [u8]> {
        match self.texts.get(name) {
            Some(bytes) => Ok(bytes),
            None => Err(io::Error::from_raw_os_error(2)),
        }
    }

    fn unwritten(&self) -> Option<io::Error> {
        None
    }
}

/// The status of the program's top call.
fn status_by<L: Ledger>(alloc: Global, case: &mut Case, steps: &mut Steps<L>) -> u8 {
    if !case.is_segment {
        return rbbi(alloc, &case.words, &mut case.files, &mut case.out, steps);
    }
    let surroundings = surroundings(case.sizes);
    let system = Memory { texts: &case.texts };
    let line = CommandLine::parse(alloc, &case.words);
    segment(
        alloc,
        &line,
        surroundings,
        &system,
        &mut case.files,
        &mut case.input.as_slice(),
        &mut case.out,
        &mut case.errors,
        steps,
    )
}

/// The same with a counter of its own.
fn status_of<L: Ledger>(rt: &HostRuntime, case: &mut Case, blank: Blank) -> u8
    requires name { blank.name ≡ L.name }
    requires parts { blank.parts ≡ L.parts }
    requires some { 0 < blank.parts }
{
    let mut steps = Steps::<L>::new(rt, blank);
    status_by(rt.alloc(), case, &mut steps)
}

/// Runs a case, and gives the exit status.
pub(crate) fn run(rt: &HostRuntime, case: &mut Case) -> u8 {
    status_of::<Brand>(rt, case, Blank::new(1))
}

/// What differs from what a case wants, after a run with this status, each in a line.
pub(crate) fn differences(case: &Case, status: u8) -> Result<Vec<String>, AllocError> {
    let mut found = Vec::new(case.alloc);
    for wanted in &case.wanted {
        push_difference(case, wanted, &mut found)?;
    }
    let wanted = case.status;
    if u32::from(status) != wanted {
        found.push(format!(in case.alloc; "status {status} and not {wanted}")?)?;
    }
    if let Some(output) = &case.output {
        push_unlike("output", case.out.taken(), output, &mut found)?;
    }
    push_unlike(
        "standard error",
        case.errors.taken(),
        &case.error_output,
        &mut found,
    )?;
    Ok(found)
}

/// Adds what differs from what is wanted of files, calls, puts and bytes.
fn push_difference(
    case: &Case,
    wanted: &Wanted,
    found: &mut Vec<String>,
) -> Result<(), AllocError> {
    match wanted {
        Wanted::Written(name, bytes) => {
            push_unlike(name.as_str(), case.held(name.as_str()), bytes, found)?;
        }
        Wanted::Absent(name) if case.files.get(name.as_str()).is_some() => {
            found.push(format!(in case.alloc; "{name} is there")?)?;
        }
        Wanted::Absent(_) => {}
        Wanted::Count(counted, wanted) => {
            let (count, name) = count_of(case, *counted);
            if count != *wanted {
                found.push(format!(in case.alloc; "{count} {name} and not {wanted}")?)?;
            }
        }
    }
    Ok(())
}

/// How many of these there were, and how they are called.
fn count_of(case: &Case, counted: Counted) -> (u64, &'static str) {
    match counted {
        Counted::OutputBytes => (case.out.taken().len() as u64, "bytes of output"),
        Counted::Calls => (case.files.calls(), "calls of files"),
        Counted::Puts => (case.out.calls(), "puts"),
    }
}

/// The most bytes that are shown of a list that differs.
const SHOWN: usize = 300;

/// Adds how two lists of bytes differ, if they do.
fn push_unlike(
    what: &str,
    bytes: &[u8],
    wanted: &[u8],
    found: &mut Vec<String>,
) -> Result<(), AllocError> {
    if bytes != wanted {
        let alloc = *found.allocator();
        let bytes = bytes[..bytes.len().min(SHOWN)].escape_ascii();
        let wanted = wanted[..wanted.len().min(SHOWN)].escape_ascii();
        found.push(format!(in alloc; "{what} \"{bytes}\" and not \"{wanted}\"")?)?;
    }
    Ok(())
}
