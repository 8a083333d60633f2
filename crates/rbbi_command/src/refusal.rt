//! What ends a run before its output, and where in a file it was found.
ghost use Rattle.std.specs.Prelude.{◌≡◌, ◌≤◌, ◌⊎◌, length, IfOk};
ghost use Rattle.std.specs.Str.{chars};
ghost use Rattle.rbbi_command.specs.declared.refusal.Refusal.TheVariants as refusal;
ghost use Rattle.rbbi_command.specs.declared.refusal.Subject.TheVariants as file;
ghost use Rattle.rbbi_command.specs.Refusals as spec;
ghost use Rattle.rbbi_model.specs.Lines.{unread_line, row_of, column_of};
ghost use Rattle.rbbi_text.specs.Bytes.{most_bytes};

use crate::Name;
use std::alloc::{AllocError, Global};

/// The file that a fault is reported for.
#[derive(Drop)]
pub enum Subject {
    /// The rule file, or the first of two.
    Rules,
    /// The second rule file.
    OtherRules,
    /// The table file.
    Table,
    /// A file that is reported under its name.
    File(Name),
}

/// Where in a file a fault stands.
#[derive(Clone, Copy)]
pub enum Place {
    /// In the file as a whole.
    Whole,
    /// At a byte, from 0.
    Byte(u32),
    /// At a line, from 1.
    Row(u32),
    /// At a line and a column, each from 1.
    Within { row: u32, column: u32 },
}

/// What ends a run before its output.
#[derive(Drop)]
pub enum Refusal {
    /// The arguments are invalid.
    Usage,
    /// The read of the file with this name failed.
    Unread(Name),
    /// A fault of this label stands in a file.
    Fault {
        subject: Subject,
        label: Name,
        place: Place,
    },
    /// Memory ran out.
    Memory,
}

impl From<AllocError> for Refusal {
    ghost from_gives = { λ _ e. e ≡ refusal.Memory };

    fn from(_error: AllocError) -> Refusal {
        Refusal::Memory
    }
}

impl Subject {
    /// The name under which faults are reported.
    fn printed_name(&self) -> &str
        ensures { result.now ≡ spec.printed_name self.now }
    {
        match self {
            Subject::Rules => "rules",
            Subject::OtherRules => "rules2",
            Subject::Table => "table",
            Subject::File(name) => name.as_str(),
        }
    }

    /// The exit status of a fault.
    fn status(&self) -> u8
        ensures { result ≡ spec.status_of_subject self.now }
    {
        match self {
            Subject::Rules | Subject::OtherRules => 3,
            Subject::Table => 4,
            Subject::File(_) => 5,
        }
    }
}

/// A fault of this label, or `Memory`.
pub fn fault(alloc: Global, subject: Subject, label: &str, place: Place) -> Refusal
    ensures { (result ≡ Refusal.Memory) ⊎ (result ≡ Refusal.Fault subject label.now place) }
{
    match Name::new(alloc, label) {
        Ok(label) => Refusal::Fault {
            subject,
            label,
            place,
        },
        Err(AllocError) => Refusal::Memory,
    }
}

/// A fault of this label in the file of this name, or `Memory`.
pub fn file_fault(alloc: Global, name: &str, label: &str, place: Place) -> Refusal
    ensures { (result ≡ Refusal.Memory)
        ⊎ (result ≡ Refusal.Fault (file.File name.now) label.now place) }
{
    match Name::new(alloc, name) {
        Ok(name) => fault(alloc, Subject::File(name), label, place),
        Err(AllocError) => Refusal::Memory,
    }
}

/// The line of a fault, by the name of its file.
fn fault_line(alloc: Global, name: &str, label: &str, place: Place) -> Result<Vec<u8>, AllocError>
    ensures { IfOk result (λ line. line.items ≡ spec.told_at name.now label.now place) }
{
    let line = match place {
        Place::Whole => format!(in alloc; "{name}: {label}\n")?,
        Place::Byte(at) => format!(in alloc; "{name}: {label} {at}\n")?,
        Place::Row(row) => format!(in alloc; "{name}:{row}: {label}\n")?,
        Place::Within { row, column } => format!(in alloc; "{name}:{row}:{column}: {label}\n")?,
    };
    Ok(line.into_bytes())
}

/// The line of a file that can't be read.
fn unread_line(alloc: Global, name: &str) -> Result<Vec<u8>, AllocError>
    ensures { IfOk result (λ line. line.items ≡ unread_line name.now) }
{
    let line = format!(in alloc; "cannot read {name}\n")?;
    Ok(line.into_bytes())
}

impl Refusal {
    /// The exit status.
    pub fn status(&self) -> u8
        ensures { result ≡ spec.status_of self.now }
    {
        match self {
            Refusal::Usage => 2,
            Refusal::Unread(_) => 6,
            Refusal::Fault { subject, .. } => subject.status(),
            Refusal::Memory => 8,
        }
    }

    /// All that is written: for `Memory` nothing.
    pub fn line(&self, alloc: Global) -> Result<Vec<u8>, AllocError>
        ensures { IfOk result (λ line. line.items ≡ spec.line_of self.now) }
    {
        match self {
            Refusal::Usage => {
                Vec::from_slice(alloc, b"usage: rbbi COMMAND [OPTIONS] OPERANDS\n")
            }
            Refusal::Unread(name) => unread_line(alloc, name.as_str()),
            Refusal::Fault {
                subject,
                label,
                place,
            } => fault_line(alloc, subject.printed_name(), label.as_str(), *place),
            Refusal::Memory => Ok(Vec::new(alloc)),
        }
    }
}

/// The line and the column of a place of the text, in characters from 0. A line ends at LF.
fn position_of(text: &str, place: u32) -> (u32, u32)
    requires { length text.now ≤ most_bytes }
    ensures row { result.0 ≡ row_of (chars text.now) place }
    ensures column { result.1 ≡ column_of (chars text.now) place }
{
    let mut row = 1;
    let mut column = 1;
    let mut left = place;
    for c in text.chars() {
        if left == 0 {
            return (row, column);
        }
        left -= 1;
        if c == '\n' {
            row += 1;
            column = 1;
        } else {
            column += 1;
        }
    }
    (row, column)
}

/// The line and the column of a place of the text, each from 1. Without a place, which is in
/// characters from 0, it is the file as a whole.
pub fn place_in(text: &str, place: Option<u32>) -> Place
    requires { length text.now ≤ most_bytes }
    ensures { result ≡ spec.place_in (chars text.now) place }
{
    match place {
        Some(place) => {
            let (row, column) = position_of(text, place);
            Place::Within { row, column }
        }
        None => Place::Whole,
    }
}
