//! The output of a command.

use crate::Name;
use std::marker::Model;

/// A file that is written. Contracts see its name and its bytes.
#[derive(Drop)]
pub struct Written {
    /// The name of the file.
    pub name: Name,
    /// What it holds then.
    pub bytes: Vec<u8>,
}

impl Model for Written {
    ghost use Rattle.rbbi_command.specs.Refusals as spec;

    ghost Value = { spec.Written };

    ghost view = { λ written. record { name = written.name; bytes = written.bytes.items } };
}

/// The output of a command. Contracts see the status, the bytes and the file.
#[derive(Drop)]
pub struct Output {
    /// The exit status.
    pub status: u8,
    /// What is written to standard output.
    pub bytes: Vec<u8>,
    /// The file that is written before, if one is.
    pub file: Option<Written>,
}

impl Model for Output {
    ghost use Rattle.rbbi_command.specs.Refusals.{Outcome};

    ghost Value = { Outcome };

    ghost view = { λ output. record {
      status = output.status;
      bytes = output.bytes.items;
      file =
          output.file;
    } };
}

impl Output {
    ghost use Rattle.std.specs.Prelude.{◌≡◌};
    ghost use Rattle.rbbi_command.specs.Refusals.{printed};

    /// Success, with these bytes as the output.
    pub fn printed(bytes: Vec<u8>) -> Output
        ensures { result ≡ printed bytes.items }
    {
        Output {
            status: 0,
            bytes,
            file: None,
        }
    }
}
