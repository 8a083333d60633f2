//! The cases of a file.
use crate::case::Case;
use crate::entry::Entry;
use crate::error::CaseErr;
use std::alloc::Global;

/// The cases of a file, and what holds for each case that doesn't say otherwise.
#[derive(Drop)]
pub(crate) struct CaseFile {
    alloc: Global,
    for_all: Vec<Entry>,
    pub(crate) cases: Vec<Case>,
    /// The line that is being read, from 1.
    pub(crate) line: usize,
    /// The entry that the next line may continue, and its line.
    last: Option<(usize, Entry)>,
    /// What the case that is being read says so far: each key with its name.
    heads: Vec<String>,
}

impl CaseFile {
    /// A file with no lines so far.
    pub(crate) fn new(alloc: Global) -> CaseFile {
        CaseFile {
            alloc,
            for_all: Vec::new(alloc),
            cases: Vec::new(alloc),
            line: 0,
            last: None,
            heads: Vec::new(alloc),
        }
    }

    /// Reads all lines. After a refusal `line` tells where it came.
    pub(crate) fn read(&mut self, bytes: &[u8]) -> Result<(), CaseErr> {
        for line in bytes.split(|byte| *byte == b'\n') {
            self.line = self.line.saturating_add(1);
            self.read_line(line)?;
        }
        self.end_entry()
    }

    fn read_line(&mut self, line: &[u8]) -> Result<(), CaseErr> {
        if let Some(b' ' | b'\t' | b'\r') = line.last() {
            return Err(CaseErr::Wrong("blanks at the end of a line"));
        }
        if let Some((b'|', text)) = without_spaces(line).split_first() {
            return match &mut self.last {
                Some((_, entry)) if entry.has_lines() => entry.push_line(text),
                _ => Err(CaseErr::Wrong("nothing to continue")),
            };
        }
        self.end_entry()?;
        if !line.is_empty() && line[0] != b'#' {
            self.last = Some((self.line, Entry::from_line(self.alloc, line)?));
        }
        Ok(())
    }

    /// Keeps what the last entry says, now that all its lines are read.
    fn end_entry(&mut self) -> Result<(), CaseErr> {
        let Some((line, entry)) = self.last.take() else {
            return Ok(());
        };
        if entry.is_case() {
            self.heads.clear();
            return self.begin_case(line, &entry);
        }
        if !entry.may_be_repeated() {
            self.keep_head(entry.head.as_str())?;
        }
        if let Some(case) = self.cases.last_mut() {
            return case.take(&entry);
        }
        // It is refused here, and not at the first case.
        Case::new(self.alloc, line, b"")?.take(&entry)?;
        if !entry.is_for_all() {
            return Err(CaseErr::Wrong("no case yet"));
        }
        self.for_all.push(entry)?;
        Ok(())
    }

    /// Begins a case, by what holds for all.
    fn begin_case(&mut self, line: usize, entry: &Entry) -> Result<(), CaseErr> {
        let mut case = Case::new(self.alloc, line, &entry.text)?;
        for entry in &self.for_all {
            case.take(entry)?;
        }
        self.cases.push(case)?;
        Ok(())
    }

    /// Keeps a key with its name. Refused where the case has said it before.
    fn keep_head(&mut self, head: &str) -> Result<(), CaseErr> {
        for other in &self.heads {
            if other.as_str() == head {
                return Err(CaseErr::Wrong("said twice"));
            }
        }
        self.heads.push(String::from_str(self.alloc, head)?)?;
        Ok(())
    }
}

/// The line without the spaces at its start.
fn without_spaces(line: &[u8]) -> &[u8] {
    let mut rest = line;
    for _ in 0..line.len() {
        match rest.split_first() {
            Some((b' ', after)) => rest = after,
            _ => break,
        }
    }
    rest
}
