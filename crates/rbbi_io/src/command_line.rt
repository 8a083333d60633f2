//! The command-line arguments.
use std::rt::Env;
use std::{env, io};

/// The arguments after the program's name. Refused if the system doesn't give them, one isn't
/// UTF-8, or memory runs out.
pub fn words<R: Env + AllocGlobal>(rt: &R) -> io::Result<Vec<String>> {
    let mut words = Vec::new(rt.alloc());
    for word in env::args(rt)?.skip(1) {
        words.push(word)?;
    }
    Ok(words)
}
