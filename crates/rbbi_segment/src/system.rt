//! The texts that a run reads, and why the system refuses its output.
ghost use Rattle.std.specs.Prelude.{◌≡◌, ℕ, List, Option, Some, IfOk, IfSome};

use std::io;
use std::io::Read;

/// What the system opens, and what it says of a write that failed.
pub trait System {
    /// A file that is open.
    type Reader: Read + Drop;

    /// What each name holds, or nothing where the system doesn't tell.
    ghost contents: { Self → Option (List ℕ → List ℕ) };

    /// Opens the file of this name. Its reads give, one after the other, what the name holds.
    fn open(&self, name: &str) -> io::Result<Self::Reader>
        ensures { IfOk result (λ reader. IfSome (contents self.now)
            (λ held. Self.Reader.remaining reader ≡ Some (held name.now))) };

    /// Why the output couldn't be written, if that is known.
    fn unwritten(&self) -> Option<io::Error>;
}
