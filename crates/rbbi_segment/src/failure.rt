//! How a run ends early.
ghost use Rattle.std.specs.Prelude.{◌≡◌};
ghost use Rattle.rbbi_segment.specs.Statuses.{number_of};

use crate::colors::Colors;
use rbbi_io::WriteErr;
use std::alloc::{AllocError, AllocFailed};
use std::io;

/// The exit status of a run that ends early.
#[derive(Clone, Copy)]
pub(crate) enum Status {
    /// The rule file has a fault.
    HasFault,
    /// The arguments are invalid, a file can't be read, used or written, or memory ran out.
    IsRefused,
    /// Something is found in the rule file that changes nothing.
    HasFindings,
    /// Nobody reads the output any more: that of a program that `SIGPIPE` ends.
    IsClosed,
}

impl Status {
    /// Its number.
    pub(crate) fn number(self) -> u8
        ensures { result ≡ number_of self }
    {
        match self {
            Status::HasFault => 1,
            Status::IsRefused => 2,
            Status::HasFindings => 3,
            Status::IsClosed => 141,
        }
    }
}

/// Why a run ends early.
#[derive(Drop)]
pub(crate) enum Failure {
    /// The exit status, and what goes to the standard error.
    Told(Status, Vec<u8>),
    /// The file of this name couldn't be read, and what the system said of the read that failed, if
    /// that is known. What is reported has these colours.
    Unread(String, Option<io::Error>, Colors),
    /// The output couldn't be written.
    Unwritten,
    /// Memory ran out.
    Memory,
}

impl From<AllocError> for Failure {
    fn from(_error: AllocError) -> Failure {
        Failure::Memory
    }
}

impl<T: Drop> From<AllocFailed<T>> for Failure {
    fn from(_error: AllocFailed<T>) -> Failure {
        Failure::Memory
    }
}

impl From<WriteErr> for Failure {
    fn from(error: WriteErr) -> Failure {
        match error {
            WriteErr::Failed => Failure::Unwritten,
            WriteErr::Memory => Failure::Memory,
        }
    }
}
