//! A file that is replaced by a new one, or written in place where that can't be.
ghost use Rattle.std.specs.Prelude.{◌≡◌, ◌⊎◌, [], ℕ, List, Option, IfOk, IfSome, OnOk, OnErr};
ghost use Rattle.std.specs.Prelude.{IsTrue};
ghost use Rattle.rbbi_io.specs.Sinks.{Takes};

use crate::WriteErr;
use std::io;
use std::io::ErrorKind;

/// A name that is to hold new bytes, the target, and its draft, a new file that takes the name once
/// it is whole. Contracts see what the two hold, where the target tells it.
///
/// Only `rename` and `overwrite` change what the target holds, and `overwrite` is called only where
/// the target can't be replaced. Elsewhere the target holds, wherever a run ends, what it held or
/// all that the draft held.
pub(crate) trait Target {
    /// What the draft holds, or nothing if the target doesn't tell.
    ghost drafted: { Self → Option (List ℕ) };

    /// What the target holds, or nothing if it doesn't tell.
    ghost held: { Self → Option (List ℕ) };

    /// The device has all that the draft holds.
    ghost is_synced: { Self → Type 0 };

    /// The target can't be replaced: it is no regular file, its folder takes no draft, or its name
    /// can't be given to another file.
    ghost is_fixed: { Self → Type 0 };

    /// Makes an empty draft. The result is whether there is one; where there is none, the target is
    /// fixed. Refused also where the target may not be written.
    fn make_draft(&mut self) -> io::Result<bool>
        ensures made { IfOk result (λ made. IsTrue made
            → IfSome (drafted self.new) (λ draft. draft ≡ [])) }
        ensures fixed { IfOk result (λ made. ¬ IsTrue made → is_fixed self.new) }
        ensures target { held self.new ≡ held self.old };

    /// Appends these bytes to the draft.
    fn write(&mut self, bytes: &[u8]) -> io::Result<()>
        ensures ok { OnOk result (Takes (drafted self.old) (drafted self.new) bytes.now) }
        ensures target { held self.new ≡ held self.old };

    /// Hands what the draft holds to the device.
    fn sync(&mut self) -> io::Result<()>
        ensures ok { OnOk result (is_synced self.new) }
        ensures draft { drafted self.new ≡ drafted self.old }
        ensures target { held self.new ≡ held self.old };

    /// Gives the draft the name of the target, in one step. The result is whether that was done;
    /// where it was not, the target is fixed.
    fn rename(&mut self) -> io::Result<bool>
        requires { is_synced self.old }
        ensures done { IfOk result (λ done. IsTrue done → held self.new ≡ drafted self.old) }
        ensures fixed { IfOk result (λ done. ¬ IsTrue done → is_fixed self.new) }
        ensures err { OnErr result (held self.new ≡ held self.old) };

    /// Removes the draft. Where that fails, it stays.
    fn remove(&mut self)
        ensures { held self.new ≡ held self.old };

    /// Removes the draft, if there is one, and writes the target in place. After a refusal the
    /// target may hold anything.
    fn overwrite(&mut self, bytes: &[u8]) -> Result<(), WriteErr>
        requires { is_fixed self.old }
        ensures ok { OnOk result (IfSome (held self.new) (λ held. held ≡ bytes.now)) }
        ensures fixed { is_fixed self.new };
}

/// `Memory` if memory ran out, and otherwise a fault.
pub(crate) fn refused_write(fault: &io::Error) -> WriteErr {
    if fault.kind() == ErrorKind::OutOfMemory {
        WriteErr::Memory
    } else {
        WriteErr::Failed
    }
}

/// Writes the draft, and gives it the name of the target. The result is whether that was done.
fn finish<T: Target>(target: &mut T, bytes: &[u8]) -> io::Result<bool>
    ensures done { IfOk result (λ done. IsTrue done
        → Takes (T.drafted target.old) (T.held target.new) bytes.now) }
    ensures fixed { IfOk result (λ done. ¬ IsTrue done → T.is_fixed target.new) }
    ensures err { OnErr result (T.held target.new ≡ T.held target.old) }
{
    target.write(bytes)?;
    target.sync()?;
    target.rename()
}

/// Makes the target hold these bytes, by a draft that is empty.
fn fill<T: Target>(target: &mut T, bytes: &[u8]) -> Result<(), WriteErr>
    requires { IfSome (T.drafted target.old) (λ draft. draft ≡ []) }
    ensures ok { OnOk result (IfSome (T.held target.new) (λ held. held ≡ bytes.now)) }
    ensures err { OnErr result ((T.held target.new ≡ T.held target.old) ⊎ T.is_fixed target.new) }
{
    match finish(target, bytes) {
        Ok(true) => Ok(()),
        Ok(false) => target.overwrite(bytes),
        Err(_) => {
            target.remove();
            Err(WriteErr::Failed)
        }
    }
}

/// Makes the target hold these bytes: by a draft, or in place where it is fixed.
///
/// After a refusal the target holds what it held, and the draft is removed, as far as that can be.
/// A target that is fixed may hold anything then.
pub(crate) fn replace<T: Target>(target: &mut T, bytes: &[u8]) -> Result<(), WriteErr>
    ensures ok { OnOk result (IfSome (T.held target.new) (λ held. held ≡ bytes.now)) }
    ensures err { OnErr result ((T.held target.new ≡ T.held target.old) ⊎ T.is_fixed target.new) }
{
    match target.make_draft() {
        Ok(true) => fill(target, bytes),
        Ok(false) => target.overwrite(bytes),
        Err(fault) => Err(refused_write(&fault)),
    }
}
