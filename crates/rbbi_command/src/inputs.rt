//! The files of a request as they were read, each by its role.
ghost use Rattle.std.specs.Prelude.{◌≡◌, [], IfOk, IfErr, IfSome, OnOk};
ghost use Rattle.rbbi_io.specs.Counts.{EachGoesOn, EachStays};
ghost use Rattle.rbbi_command.specs.declared.inputs.Input.{Input};
ghost use Rattle.rbbi_command.specs.Inputs as spec;
ghost use Rattle.rbbi_command.specs.inner.Inputs.{IsNamed};
ghost use Rattle.rbbi_command.specs.Reads.{AreRead, EndsReading, MakesSomeReads};
ghost use Rattle.rbbi_command.specs.Reads.{EndsAtRefusedRead};

use crate::files::read_one;
use crate::{Name, Refusal, Role, Source};
use rbbi_io::Files;
use rbbi_text::Raw;
use std::alloc::{AllocError, Global};

/// A file whose faults are reported under its name.
#[derive(Drop)]
pub struct Input {
    pub name: Name,
    pub bytes: Raw,
}

/// What was read, by what it is to the program. A file that a request doesn't name is empty.
#[derive(Drop)]
pub struct Inputs {
    /// The property files, in order.
    pub properties: Vec<Raw>,
    /// The filter file.
    pub filter: Input,
    /// The rule file, or the first of two.
    pub rules: Raw,
    /// The second rule file.
    pub other_rules: Raw,
    /// The table file.
    pub table: Raw,
    /// The text.
    pub text: Input,
    /// The script.
    pub script: Input,
    /// The test file.
    pub tests: Input,
}

impl Input {
    /// A file of this name that holds these bytes.
    fn new(alloc: Global, name: &str, bytes: Raw) -> Result<Input, AllocError>
        ensures { IfOk result (λ input. input ≡ record { name = name.now; bytes = bytes }) }
    {
        let name = Name::new(alloc, name)?;
        Ok(Input { name, bytes })
    }

    /// A file that a request doesn't name.
    fn none(alloc: Global) -> Input
        ensures { result ≡ record { name = []; bytes = [] } }
    {
        Input {
            name: Name::empty(alloc),
            bytes: Raw::new(Vec::new(alloc)),
        }
    }
}

impl Inputs {
    /// No file is read yet.
    fn new(alloc: Global) -> Inputs
        ensures { spec.inputs_in result ≡ spec.no_inputs }
    {
        Inputs {
            properties: Vec::new(alloc),
            filter: Input::none(alloc),
            rules: Raw::new(Vec::new(alloc)),
            other_rules: Raw::new(Vec::new(alloc)),
            table: Raw::new(Vec::new(alloc)),
            text: Input::none(alloc),
            script: Input::none(alloc),
            tests: Input::none(alloc),
        }
    }

    /// Puts a file whose faults are reported under its name in the place of its role.
    fn put_named(&mut self, role: Role, input: Input)
        requires { IsNamed role }
        ensures { spec.inputs_in self.new
            ≡ spec.put role input.name input.bytes (spec.inputs_in self.old) }
    {
        match role {
            Role::Filter => self.filter = input,
            Role::Text => self.text = input,
            Role::Script => self.script = input,
            _ => self.tests = input,
        }
    }

    /// Puts what a file holds in the place of its role.
    fn put(&mut self, alloc: Global, source: &Source, bytes: Raw) -> Result<(), AllocError>
        ensures { OnOk result (spec.inputs_in self.new
            ≡ spec.put source.now.role source.now.name bytes (spec.inputs_in self.old)) }
    {
        match source.role {
            Role::Property => self.properties.push(bytes)?,
            Role::Rules => self.rules = bytes,
            Role::OtherRules => self.other_rules = bytes,
            Role::Table => self.table = bytes,
            role => {
                let input = Input::new(alloc, source.name.as_str(), bytes)?;
                self.put_named(role, input);
            }
        }
        Ok(())
    }
}

/// Reads the files in order, each once, into the places of their roles, up to the first that is
/// refused.
fn read_into<F: Files>(
    alloc: Global,
    sources: &[Source],
    files: &mut F,
    inputs: &mut Inputs,
) -> Result<(), Refusal>
    requires { spec.inputs_in inputs.old ≡ spec.no_inputs }
    ensures short { OnOk result (spec.AreShort (spec.inputs_in inputs.new)) }
    ensures read { OnOk result
        (IfSome (F.contents files.old) (AreRead sources.now (spec.inputs_in inputs.new))) }
    ensures refused { IfErr result (EndsReading sources.now (F.contents files.old)
        (F.failed_reads files.old) (F.failed_reads files.new)) }
    ensures order { IfSome (F.contents files.old) (MakesSomeReads sources.now
        (F.failed_reads files.old) (F.failed_reads files.new)) }
    ensures calls { EndsAtRefusedRead F.read_gives sources.now files.old result files.new }
    ensures calm { OnOk result (EachStays (F.failed_reads files.old) (F.failed_reads files.new)) }

    ensures same { F.contents files.new ≡ F.contents files.old }
    ensures reads { EachGoesOn (F.failed_reads files.old) (F.failed_reads files.new) }
    ensures writes { EachStays (F.failed_writes files.old) (F.failed_writes files.new) }
{
    for source in sources {
        let bytes = read_one(alloc, source, files)?;
        inputs.put(alloc, source, bytes)?;
    }
    Ok(())
}

/// Reads the files in order, each once, into the places of their roles. The first that can't be
/// read or is too long ends the reading: it is reported, and no read comes after it.
pub fn read_all<F: Files>(
    alloc: Global,
    sources: &[Source],
    files: &mut F,
) -> Result<Inputs, Refusal>
    ensures short { IfOk result (λ inputs. spec.AreShort (spec.inputs_in inputs)) }
    ensures read { IfOk result (λ inputs.
        IfSome (F.contents files.old) (AreRead sources.now (spec.inputs_in inputs))) }
    ensures refused { IfErr result (EndsReading sources.now (F.contents files.old)
        (F.failed_reads files.old) (F.failed_reads files.new)) }
    ensures order { IfSome (F.contents files.old) (MakesSomeReads sources.now
        (F.failed_reads files.old) (F.failed_reads files.new)) }
    ensures calls { EndsAtRefusedRead F.read_gives sources.now files.old result files.new }
    ensures calm { OnOk result (EachStays (F.failed_reads files.old) (F.failed_reads files.new)) }

    ensures same { F.contents files.new ≡ F.contents files.old }
    ensures reads { EachGoesOn (F.failed_reads files.old) (F.failed_reads files.new) }
    ensures writes { EachStays (F.failed_writes files.old) (F.failed_writes files.new) }
{
    let mut inputs = Inputs::new(alloc);
    match read_into(alloc, sources, files, &mut inputs) {
        Ok(()) => Ok(inputs),
        Err(refusal) => Err(refusal),
    }
}
