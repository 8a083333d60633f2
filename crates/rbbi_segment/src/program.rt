//! A run of the program.
ghost use Rattle.std.specs.Prelude.{◌≡◌, ◌<◌, IfOk, OnOk};
ghost use Rattle.rbbi_io.specs.Sinks.{Takes};
ghost use Rattle.rbbi_segment.specs.Runs.{AreMeans, IsAnswered, IsDone, colors_of};

use crate::arguments::{Meaning, parse};
use crate::basis::table_of;
use crate::colors::{Colors, Surroundings};
use crate::explaining::explain;
use crate::failure::{Failure, Status};
use crate::faults::{append_reason, unread};
use crate::filters::filter_of;
use crate::linting::lint_file;
use crate::named::{Means, put_texts};
use crate::options::{Request, Task};
use crate::reading::say_replaced;
use crate::system::System;
use rbbi_io::{Files, Sink, put_all};
use rbbi_text::{Steps, append};
use std::alloc::{AllocError, Global};
use std::io;
use std::io::{ErrorKind, Read};
use std::sync::ledger::Ledger;

/// The arguments after the program's name, and what they ask for.
#[derive(Drop)]
pub struct CommandLine<'a> {
    pub(crate) meaning: Meaning<'a>,
}

impl<'a> CommandLine<'a> {
    /// What these arguments ask for, or what is printed in its place.
    pub fn parse(alloc: Global, words: &'a Vec<String>) -> CommandLine<'a> {
        CommandLine {
            meaning: parse(alloc, words),
        }
    }
}

/// The table and the filter that are asked for. What the files hold stays.
fn means_of<F: Files, R: Read, L: Ledger>(
    alloc: Global,
    request: &Request<'_>,
    faults: Colors,
    files: &mut F,
    input: &mut R,
    steps: &mut Steps<L>,
) -> Result<Means, Failure>
    ensures means { IfOk result (λ means. AreMeans (F.contents files.old)
        (R.remaining input.old) request.now means.table means.filter (R.remaining input.new)) }
    ensures same { F.contents files.new ≡ F.contents files.old }
{
    let table = table_of(alloc, request, faults, files, input, steps)?;
    let filter = filter_of(alloc, request.filtering, faults, files, input, steps)?;
    Ok(Means { table, filter })
}

/// Prints the segments that a request asks for, or looks for a fault of its rule file alone. It
/// answers how many sequences of each text's bytes were replaced.
fn perform<F: Files, R: Read, K: Sink, S: System, L: Ledger>(
    alloc: Global,
    request: &Request<'_>,
    surroundings: Surroundings,
    system: &S,
    files: &mut F,
    input: &mut R,
    out: &mut K,
    steps: &mut Steps<L>,
) -> Result<Vec<u32>, Failure>
    ensures { OnOk result (IsDone request.now.task None request.now
        (colors_of request.now surroundings) (F.contents files.old) (S.contents system.now)
        (record { taken = K.taken out.old; left = R.remaining input.old })
        (record { taken = K.taken out.new; left = R.remaining input.new })) }
{
    let faults = surroundings.fault_colors(request.color);
    let means = means_of(alloc, request, faults, files, input, steps)?;
    match request.task {
        Task::Check => Ok(Vec::new(alloc)),
        Task::Lint(_, _) => Ok(Vec::new(alloc)),
        Task::Segment => put_texts(
            alloc,
            request,
            surroundings,
            &means,
            system,
            input,
            out,
            steps,
        ),
    }
}

/// The counts of a run with one text, of which this is the count.
fn counted(alloc: Global, count: Result<u32, Failure>) -> Result<Vec<u32>, Failure> {
    let count = count?;
    Ok(vec![in alloc; count; 1]?)
}

/// Does what a request asks for. It answers how many sequences of each text's bytes were replaced.
fn answer<F: Files, R: Read, K: Sink, S: System, L: Ledger>(
    alloc: Global,
    request: &Request<'_>,
    surroundings: Surroundings,
    system: &S,
    files: &mut F,
    input: &mut R,
    out: &mut K,
    steps: &mut Steps<L>,
) -> Result<Vec<u32>, Failure>
    ensures { OnOk result (IsDone request.now.task request.now.explain request.now
        (colors_of request.now surroundings) (F.contents files.old) (S.contents system.now)
        (record { taken = K.taken out.old; left = R.remaining input.old })
        (record { taken = K.taken out.new; left = R.remaining input.new })) }
{
    if let Task::Lint(name, why) = request.task {
        let linted = lint_file(
            alloc,
            request,
            name,
            why,
            surroundings,
            files,
            input,
            out,
            steps,
        );
        return counted(alloc, linted);
    }
    match request.explain {
        Some(asked) => {
            let explained = explain(
                alloc,
                request,
                asked,
                surroundings,
                files,
                input,
                out,
                steps,
            );
            counted(alloc, explained)
        }
        None => perform(
            alloc,
            request,
            surroundings,
            system,
            files,
            input,
            out,
            steps,
        ),
    }
}

/// The exit status of a run whose output can't be written, and the message. If nobody reads it any
/// more, as with `head`, nothing is said.
fn unwritten(alloc: Global, reason: Option<io::Error>) -> Result<(Status, Vec<u8>), AllocError> {
    let mut message = Vec::new(alloc);
    let Some(reason) = reason else {
        append(b"segment: the output can't be written\n", &mut message)?;
        return Ok((Status::IsRefused, message));
    };
    if reason.kind() == ErrorKind::BrokenPipe {
        return Ok((Status::IsClosed, message));
    }
    append(b"segment: the output can't be written: ", &mut message)?;
    append_reason(alloc, reason, &mut message)?;
    append(b"\n", &mut message)?;
    Ok((Status::IsRefused, message))
}

/// The exit status and the message of a run that ended early.
fn ending<S: System>(
    alloc: Global,
    failure: &Failure,
    system: &S,
) -> Result<(Status, Vec<u8>), AllocError> {
    match failure {
        Failure::Told(status, message) => Ok((*status, message.as_slice().to_vec(alloc)?)),
        Failure::Unread(name, reason, colors) => {
            let message = unread(alloc, name.as_str(), *reason, *colors)?;
            Ok((Status::IsRefused, message))
        }
        Failure::Unwritten => unwritten(alloc, system.unwritten()),
        Failure::Memory => Err(AllocError),
    }
}

/// Says why a run ended early, as far as possible, and answers the exit status, which isn't 0.
fn tell<E: Sink, S: System>(alloc: Global, failure: &Failure, system: &S, errors: &mut E) -> u8
    ensures { 0 < result }
{
    match ending(alloc, failure, system) {
        Ok((status, message)) => {
            let _ = put_all(errors, &message);
            status.number()
        }
        Err(_) => {
            let _ = put_all(errors, b"segment: memory ran out\n");
            Status::IsRefused.number()
        }
    }
}

/// Prints help or the version, and answers the exit status.
fn show<K: Sink, E: Sink, S: System>(
    alloc: Global,
    text: &[u8],
    system: &S,
    out: &mut K,
    errors: &mut E,
) -> u8
    ensures { result ≡ 0 → Takes (K.taken out.old) (K.taken out.new) text.now }
{
    match put_all(out, text) {
        Ok(()) => 0,
        Err(error) => tell(alloc, &error.into(), system, errors),
    }
}

/// Does what a request asks for, says what is to be said of it, and answers the exit status.
fn carry_out<F: Files, R: Read, K: Sink, E: Sink, S: System, L: Ledger>(
    alloc: Global,
    request: &Request<'_>,
    surroundings: Surroundings,
    system: &S,
    files: &mut F,
    input: &mut R,
    out: &mut K,
    errors: &mut E,
    steps: &mut Steps<L>,
) -> u8
    ensures { result ≡ 0 → IsDone request.now.task request.now.explain request.now
        (colors_of request.now surroundings) (F.contents files.old) (S.contents system.now)
        (record { taken = K.taken out.old; left = R.remaining input.old })
        (record { taken = K.taken out.new; left = R.remaining input.new }) }
{
    match answer(
        alloc,
        request,
        surroundings,
        system,
        files,
        input,
        out,
        steps,
    ) {
        Ok(replaced) => {
            say_replaced(alloc, &request.names, &replaced, errors);
            0
        }
        Err(failure) => tell(alloc, &failure, system, errors),
    }
}

/// Runs the program on its arguments, and answers the exit status: 0 if all is done, 1 if the rule
/// file has a fault, 3 if `--lint` found something in it, 141 if nobody reads the output any more,
/// and 2 if the arguments are invalid, a file can't be read or used, the output can't be written,
/// or memory runs out.
///
/// So 0 says, where segments are asked for and each is printed by itself: the output took those of
/// the texts that are named, as the annex, the rule file or the table file has them.
pub fn segment<F: Files, R: Read, K: Sink, E: Sink, S: System, L: Ledger>(
    alloc: Global,
    line: &CommandLine<'_>,
    surroundings: Surroundings,
    system: &S,
    files: &mut F,
    input: &mut R,
    out: &mut K,
    errors: &mut E,
    steps: &mut Steps<L>,
) -> u8
    ensures { result ≡ 0 → IsAnswered line.now.meaning surroundings (F.contents files.old)
        (S.contents system.now) (record { taken = K.taken out.old; left = R.remaining input.old })
        (record { taken = K.taken out.new; left = R.remaining input.new }) }
{
    match &line.meaning {
        Meaning::Asks(request) => carry_out(
            alloc,
            request,
            surroundings,
            system,
            files,
            input,
            out,
            errors,
            steps,
        ),
        Meaning::Shows(text) => show(alloc, text, system, out, errors),
        Meaning::Fails(failure) => tell(alloc, failure, system, errors),
    }
}
