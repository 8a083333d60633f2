//! A case, as the lines of its file say it.
use crate::entry::Entry;
use crate::error::CaseErr;
use crate::escapes::{split_once, unescaped, unescaped_name, unescaped_string};
use rbbi_io::{MemFiles, MemSink};
use rbbi_segment::Sizes;
use rbbi_text::{append, decimal};
use std::alloc::Global;

/// A case: the line of its name, from 1, its name, what is run over files and outputs in memory,
/// and what is wanted of that.
#[derive(Drop)]
pub(crate) struct Case {
    pub(crate) alloc: Global,
    pub(crate) line: usize,
    pub(crate) name: String,
    /// Whether the program is `segment`, and not `rbbi`.
    pub(crate) is_segment: bool,
    pub(crate) words: Vec<String>,
    pub(crate) files: MemFiles,
    /// The same files, as `segment` reads texts.
    pub(crate) texts: MemFiles,
    /// How many bytes of a text `segment` reads at once, and in how many characters it looks for a
    /// segment's end.
    pub(crate) sizes: Sizes,
    pub(crate) input: Vec<u8>,
    pub(crate) out: MemSink,
    pub(crate) errors: MemSink,
    pub(crate) status: u32,
    /// The wanted output, or none where its length alone is compared.
    pub(crate) output: Option<Vec<u8>>,
    pub(crate) error_output: Vec<u8>,
    pub(crate) wanted: Vec<Wanted>,
}

/// What is wanted beside the status and the outputs.
#[derive(Drop)]
pub(crate) enum Wanted {
    /// What a file holds afterwards.
    Written(String, Vec<u8>),
    /// A file that isn't there afterwards.
    Absent(String),
    /// How many of these there are.
    Count(Counted, u64),
}

/// What is counted in a run.
#[derive(Clone, Copy)]
pub(crate) enum Counted {
    OutputBytes,
    Calls,
    Puts,
}

impl Case {
    /// A case that says nothing so far.
    pub(crate) fn new(alloc: Global, line: usize, name: &[u8]) -> Result<Case, CaseErr> {
        Ok(Case {
            alloc,
            line,
            name: String::from_str(alloc, str::from_utf8(name)?)?,
            is_segment: false,
            words: Vec::new(alloc),
            files: MemFiles::new(alloc),
            texts: MemFiles::new(alloc),
            sizes: Sizes::USUAL,
            input: Vec::new(alloc),
            out: MemSink::new(alloc),
            errors: MemSink::new(alloc),
            status: 0,
            output: Some(Vec::new(alloc)),
            error_output: Vec::new(alloc),
            wanted: Vec::new(alloc),
        })
    }

    /// Takes what an entry says.
    pub(crate) fn take(&mut self, entry: &Entry) -> Result<(), CaseErr> {
        match &entry.name {
            Some(name) => self.take_named(entry.key.as_str(), name.as_str(), &entry.text),
            None => self.take_text(entry.key.as_str(), &entry.text),
        }
    }

    /// Takes what a key with the name of a file says.
    fn take_named(&mut self, key: &str, name: &str, text: &[u8]) -> Result<(), CaseErr> {
        match key {
            "file" => self.hold(name, &unescaped(self.alloc, text)?)?,
            "written" => {
                let name = String::from_str(self.alloc, name)?;
                let bytes = unescaped(self.alloc, text)?;
                self.wanted.push(Wanted::Written(name, bytes))?;
            }
            "cut" => {
                let held = self.held(name);
                let len = held.len().min(number(text)? as usize);
                let bytes = held[..len].to_vec(self.alloc)?;
                self.hold(name, &bytes)?;
            }
            "change" => self.change(name, text)?,
            _ => return Err(CaseErr::Wrong("no such key with a name")),
        }
        Ok(())
    }

    /// Puts a file there.
    fn hold(&mut self, name: &str, bytes: &[u8]) -> Result<(), CaseErr> {
        self.files.add(name, bytes)?;
        self.texts.add(name, bytes)?;
        Ok(())
    }

    /// From a place on the file holds these bytes.
    fn change(&mut self, name: &str, text: &[u8]) -> Result<(), CaseErr> {
        let (at, new) = split_once(text, b' ').ok_or(CaseErr::Wrong(
            "a place and bytes are wanted",
        ))?;
        let new = unescaped(self.alloc, new)?;
        let held = self.held(name);
        let at = held.len().min(number(at)? as usize);
        let end = held.len().min(at.saturating_add(new.len()));
        let mut bytes = held[..at].to_vec(self.alloc)?;
        append(&new, &mut bytes)?;
        append(&held[end..], &mut bytes)?;
        self.hold(name, &bytes)?;
        Ok(())
    }

    /// What a file holds, or nothing where it isn't there.
    pub(crate) fn held(&self, name: &str) -> &[u8] {
        self.files.get(name).unwrap_or(&[])
    }

    /// Takes what a key without a name says.
    fn take_text(&mut self, key: &str, text: &[u8]) -> Result<(), CaseErr> {
        let alloc = self.alloc;
        match key {
            "args" => self.words = words(alloc, text)?,
            "part" => self.output = Some(unescaped(alloc, text)?),
            "out" => self.output = Some(lines(alloc, text)?),
            "errors" => self.error_output = lines(alloc, text)?,
            "input" => self.input = unescaped(alloc, text)?,
            "program" if text == b"segment".as_slice() => self.is_segment = true,
            "bytes" => {
                self.output = None;
                self.want(Wanted::Count(Counted::OutputBytes, number(text)?.into()))?;
            }
            "absent" => self.want(Wanted::Absent(unescaped_name(alloc, text)?))?,
            "status" => self.status = number(text)?,
            "fail-call" => self.files.fail_at(number(text)?.into())?,
            "fail-put" => self.out.fail_at(number(text)?.into())?,
            "put-at-most" => self.out.at_most((number(text)? as usize).max(1)),
            "calls" => self.want(Wanted::Count(Counted::Calls, number(text)?.into()))?,
            "block" => self.sizes.block = number(text)?,
            "limit" => self.sizes.limit = number(text)?,
            "puts" => self.want(Wanted::Count(Counted::Puts, number(text)?.into()))?,
            _ => return Err(CaseErr::Wrong("no such key")),
        }
        Ok(())
    }

    fn want(&mut self, wanted: Wanted) -> Result<(), CaseErr> {
        self.wanted.push(wanted)?;
        Ok(())
    }
}

fn number(text: &[u8]) -> Result<u32, CaseErr> {
    decimal(text, u32::MAX).ok_or(CaseErr::Wrong("a number is wanted"))
}

/// Lines, each of which ends with LF.
fn lines(alloc: Global, text: &[u8]) -> Result<Vec<u8>, CaseErr> {
    let mut lines = unescaped(alloc, text)?;
    lines.push(b'\n')?;
    Ok(lines)
}

/// The words of a text with one space between them. An empty text has none.
fn words(alloc: Global, text: &[u8]) -> Result<Vec<String>, CaseErr> {
    let mut words = Vec::new(alloc);
    if text.is_empty() {
        return Ok(words);
    }
    for word in text.split(|byte| *byte == b' ') {
        words.push(unescaped_string(alloc, word)?)?;
    }
    Ok(words)
}
