//! Runs the case files that its arguments name: in each case the top call over files and an output
//! in memory. It prints what differs, each time with the file, the line and the name of the case,
//! and how many cases passed and failed. A case file that isn't of the form is refused with its
//! line.
#![tactic(auto)]

mod case;
mod case_file;
mod entry;
mod error;
mod escapes;
mod played;

use case::Case;
use case_file::CaseFile;
use played::{differences, run};
use rbbi_io::words;
use std::io;
use std::process::ExitCode;

/// How many cases passed and failed.
#[derive(Drop)]
struct Counts {
    passed: u64,
    failed: u64,
}

/// Runs a case, prints what differs, and counts it.
fn run_case(rt: &HostRuntime, name: &str, case: Case, counts: &mut Counts) -> io::Result<()> {
    let mut case = case;
    let status = run(rt, &mut case);
    let differences = differences(&case, status)?;
    for difference in &differences {
        let line = case.line;
        let title = case.name.as_str();
        println!(rt; "{name}:{line}: {title}: {difference}")?;
    }
    if differences.is_empty() {
        counts.passed = counts.passed.saturating_add(1);
    } else {
        counts.failed = counts.failed.saturating_add(1);
    }
    Ok(())
}

/// Runs the cases of a file. One that isn't of the form counts as a case that failed.
fn run_file(rt: &HostRuntime, name: &str, counts: &mut Counts) -> io::Result<()> {
    let bytes = std::fs::read(rt, name)?;
    let mut file = CaseFile::new(rt.alloc());
    if let Err(fault) = file.read(bytes.as_slice()) {
        let line = file.line;
        let reason = fault.label();
        counts.failed = counts.failed.saturating_add(1);
        return println!(rt; "{name}:{line}: {reason}");
    }
    for case in file.cases {
        run_case(rt, name, case, counts)?;
    }
    Ok(())
}

/// Runs all files, and tells whether no case failed.
fn run_files(rt: &HostRuntime) -> io::Result<bool> {
    let mut counts = Counts {
        passed: 0,
        failed: 0,
    };
    for name in &words(rt)? {
        run_file(rt, name.as_str(), &mut counts)?;
    }
    let passed = counts.passed;
    let failed = counts.failed;
    println!(rt; "{passed} passed, {failed} failed")?;
    Ok(failed == 0)
}

fn main(rt: HostRuntime) -> ExitCode {
    ExitCode::from(match run_files(&rt) {
        Ok(true) => 0,
        Ok(false) => 1,
        Err(_) => 2,
    })
}
