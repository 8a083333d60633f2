//! The files that the arguments name to be read, each with its limit.
ghost use Rattle.std.specs.Prelude.{◌≡◌, ◌++◌, length, map, IfOk, IfErr, OnOk, OnSome};
ghost use Rattle.std.specs.String.{string_bytes};
ghost use Rattle.rbbi_io.specs.Counts.{EachGoesOn, EachStays, OthersStay};
ghost use Rattle.rbbi_command.specs.Files as spec;
ghost use Rattle.rbbi_command.specs.Words.{operands_of};
ghost use Rattle.rbbi_command.specs.Requests.{asked_by};
ghost use Rattle.rbbi_command.specs.inner.Reads.{IsReadOf, EndsRead, ReadsOnce};

use crate::{Name, Operand, Place, Refusal, Request, Subject, fault};
use rbbi_io::{Files, ReadErr};
use rbbi_text::{MOST_BYTES, Raw};
use std::alloc::{AllocError, Global};

/// What a file is to the program.
#[derive(Clone, Copy)]
pub enum Role {
    /// A property file.
    Property,
    /// A filter file.
    Filter,
    /// The rule file, or the first of two.
    Rules,
    /// The second rule file.
    OtherRules,
    /// The table file.
    Table,
    /// The text.
    Text,
    /// The script.
    Script,
    /// The test file.
    Tests,
}

/// A file that is to be read.
#[derive(Drop)]
pub struct Source {
    pub role: Role,
    pub name: Name,
}

impl Role {
    /// The most bytes that a file may have.
    fn limit(self) -> u64
        ensures { result ≡ spec.limit_of self }
    {
        match self {
            Role::Property => 8_388_608,
            Role::Filter => 65_536,
            Role::Rules | Role::OtherRules => 1_048_576,
            Role::Table => MOST_BYTES as u64,
            Role::Text => 67_108_864,
            Role::Script => 1_048_576,
            Role::Tests => 16_777_216,
        }
    }

    /// The file that faults in this role are reported for.
    fn subject(self, alloc: Global, name: &str) -> Result<Subject, AllocError>
        ensures { IfOk result (λ subject. subject ≡ spec.subject_of self name.now) }
    {
        match self {
            Role::Rules => Ok(Subject::Rules),
            Role::OtherRules => Ok(Subject::OtherRules),
            Role::Table => Ok(Subject::Table),
            Role::Property | Role::Filter | Role::Text | Role::Script | Role::Tests => {
                Ok(Subject::File(Name::new(alloc, name)?))
            }
        }
    }
}

/// The bytes of a file, by one read.
pub(crate) fn read_one<F: Files>(
    alloc: Global,
    source: &Source,
    files: &mut F,
) -> Result<Raw, Refusal>
    ensures read { IfOk result (IsReadOf source.now (F.contents files.old)) }
    ensures refused { IfErr result (EndsRead source.now (F.contents files.old)
        (F.failed_reads files.old) (F.failed_reads files.new)) }
    ensures once { ReadsOnce F.read_gives source.now files.old result files.new }
    ensures calm { OnOk result (EachStays (F.failed_reads files.old) (F.failed_reads files.new)) }

    ensures same { F.contents files.new ≡ F.contents files.old }
    ensures reads { EachGoesOn (F.failed_reads files.old) (F.failed_reads files.new) }
    ensures writes { EachStays (F.failed_writes files.old) (F.failed_writes files.new) }
    ensures others { OnSome (F.contents files.old)
        (OthersStay source.now.name (F.failed_reads files.old) (F.failed_reads files.new)) }
{
    let name = source.name.as_str();
    match files.read(alloc, name, source.role.limit()) {
        Ok(bytes) => Ok(bytes),
        Err(ReadErr::Failed) => Err(Refusal::Unread(Name::new(alloc, name)?)),
        Err(ReadErr::TooLong) => {
            let subject = source.role.subject(alloc, name)?;
            Err(fault(alloc, subject, "TooLong", Place::Whole))
        }
        Err(ReadErr::Memory) => Err(Refusal::Memory),
    }
}

/// A copy of files, in order.
fn copies(alloc: Global, files: &[Source]) -> Result<Vec<Source>, AllocError>
    ensures { IfOk result (λ sources. sources.items ≡ files.now) }
{
    let mut sources = Vec::new(alloc);
    for file in files {
        let name = Name::new(alloc, file.name.as_str())?;
        sources.push(Source {
            role: file.role,
            name,
        })?;
    }
    Ok(sources)
}

/// Adds the file of an operand, where it is read.
fn add_operand(
    sources: &mut Vec<Source>,
    alloc: Global,
    operand: Operand,
    name: &str,
) -> Result<(), AllocError>
    ensures { OnOk result
        (sources.new.items ≡ sources.old.items ++ spec.operand_source operand name.now) }
{
    if let Operand::Read(role) = operand {
        let name = Name::new(alloc, name)?;
        sources.push(Source { role, name })?;
    }
    Ok(())
}

/// Adds the files of the operands that are read.
fn add_operands(
    sources: &mut Vec<Source>,
    alloc: Global,
    operands: &[Operand],
    names: &[String],
) -> Result<(), AllocError>
    requires { length names.now ≡ length operands.now }
    ensures { OnOk result (sources.new.items ≡ sources.old.items
        ++ spec.operand_sources operands.now (map string_bytes names.now)) }
{
    for i in 0..operands.len() {
        add_operand(sources, alloc, operands[i], names[i].as_str())?;
    }
    Ok(())
}

/// The files that a request names to be read, in the order of the arguments.
pub fn sources_of(alloc: Global, request: &Request) -> Result<Vec<Source>, AllocError>
    requires { length request.now.operands.now
        ≡ length (operands_of request.now.command request.now.options.by_table) }
    ensures { IfOk result (λ sources. sources.items ≡ spec.sources_of (asked_by request.now)) }
{
    let mut sources = copies(alloc, &request.options.files)?;
    let operands = request.command.operands(request.options.by_table);
    add_operands(&mut sources, alloc, operands, request.operands)?;
    Ok(sources)
}
