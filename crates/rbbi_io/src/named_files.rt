//! Files in a list, each with its name.
ghost use Rattle.std.specs.Prelude.{◌≡◌, OnOk, OnErr, MatchOption, option_copied};
ghost use Rattle.rbbi_io.specs.Memory.{file_of, with_file};
ghost use Rattle.rbbi_io.specs.inner.Memory.{IsAbsent, IsIndexOf};

use std::alloc::{AllocError, Global};
use std::marker::Model;

/// One file in memory. Contracts see its name and its bytes.
#[derive(Drop)]
pub(crate) struct MemFile {
    name: String,
    bytes: Vec<u8>,
}

impl Model for MemFile {
    ghost use Rattle.std.specs.Prelude.{List, ℕ, string_bytes};

    ghost Value = { List ℕ × List ℕ };

    ghost view = { λ file. (string_bytes file.name, file.bytes.items) };
}

impl MemFile {
    /// The name.
    fn name(&self) -> &str
        ensures { result.now ≡ self.now.0 }
    {
        self.name.as_str()
    }

    /// The bytes.
    fn bytes(&self) -> &[u8]
        ensures { result.now ≡ self.now.1 }
    {
        self.bytes.as_slice()
    }

    /// Holds these bytes in place of its own.
    fn replace(&mut self, bytes: Vec<u8>)
        ensures { self.new ≡ (self.old.0, bytes.items) }
    {
        self.bytes = bytes;
    }
}

/// The number of the first file of this name.
fn place_of(files: &[MemFile], name: &str) -> Option<usize>
    ensures { MatchOption result (IsAbsent files.now name.now) (IsIndexOf files.now name.now) }
{
    for (i, file) in files.iter().enumerate() {
        if file.name() == name {
            return Some(i);
        }
    }
    None
}

/// Puts these bytes under the name: in place of the first file of this name, or else at the end.
pub(crate) fn store(
    alloc: Global,
    files: &mut Vec<MemFile>,
    name: &str,
    bytes: Vec<u8>,
) -> Result<(), AllocError>
    ensures ok { OnOk result (files.new.items ≡ with_file files.old.items name.now bytes.items) }
    ensures err { OnErr result (files.new.items ≡ files.old.items) }
{
    match place_of(files.as_slice(), name) {
        Some(place) => files[place].replace(bytes),
        None => {
            let name = String::from_str(alloc, name)?;
            files.push(MemFile { name, bytes })?;
        }
    }
    Ok(())
}

/// The bytes of the first file of this name, or nothing where there is none.
pub(crate) fn find<'a>(files: &'a [MemFile], name: &str) -> Option<&'a [u8]>
    ensures { option_copied result ≡ file_of files.now name.now }
{
    let place = place_of(files, name)?;
    Some(files[place].bytes())
}
