//! What the lines of a case file say, before it is read.
use crate::error::CaseErr;
use crate::escapes::{split_once, unescaped_name};
use std::alloc::Global;

/// A line and those that continue it: the key, the name of a file, and the text.
#[derive(Drop)]
pub(crate) struct Entry {
    /// All before the colon.
    pub(crate) head: String,
    pub(crate) key: String,
    pub(crate) name: Option<String>,
    pub(crate) text: Vec<u8>,
}

impl Entry {
    /// What a line says before its escapes are read: `KEY: TEXT` or `KEY NAME: TEXT`.
    pub(crate) fn from_line(alloc: Global, line: &[u8]) -> Result<Entry, CaseErr> {
        let (head, text) = split_once(line, b':').ok_or(CaseErr::Wrong(
            "KEY: or KEY NAME: is wanted",
        ))?;
        let (key, name) = match split_once(head, b' ') {
            Some((key, name)) => (key, Some(unescaped_name(alloc, name)?)),
            None => (head, None),
        };
        Ok(Entry {
            head: String::from_str(alloc, str::from_utf8(head)?)?,
            key: String::from_str(alloc, str::from_utf8(key)?)?,
            name,
            text: after_space(text)?.to_vec(alloc)?,
        })
    }

    /// Whether it is the name of a case.
    pub(crate) fn is_case(&self) -> bool {
        self.head.as_str() == "case" && !self.text.is_empty()
    }

    /// Whether a line that begins with `|` may go on with it.
    pub(crate) fn has_lines(&self) -> bool {
        matches!(
            self.key.as_str(),
            "file" | "written" | "input" | "out" | "part" | "errors"
        )
    }

    /// Whether it may stand before the first case.
    pub(crate) fn is_for_all(&self) -> bool {
        matches!(self.key.as_str(), "program" | "args" | "file" | "status")
    }

    /// Whether a case may say it more than once.
    pub(crate) fn may_be_repeated(&self) -> bool {
        matches!(self.key.as_str(), "change" | "fail-call" | "fail-put")
    }

    /// Continues it with a line.
    pub(crate) fn push_line(&mut self, line: &[u8]) -> Result<(), CaseErr> {
        self.text.push(b'\n')?;
        self.text.extend_from_slice(after_space(line)?)?;
        Ok(())
    }
}

/// The text after the space that it begins with. There may be neither.
fn after_space(text: &[u8]) -> Result<&[u8], CaseErr> {
    match text.split_first() {
        None => Ok(text),
        Some((b' ', rest)) => Ok(rest),
        Some(_) => Err(CaseErr::Wrong("a space is wanted after : and |")),
    }
}
