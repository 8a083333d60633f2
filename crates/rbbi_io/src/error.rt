//! The refusals of files and sinks.
ghost use Rattle.std.specs.Prelude.{◌≡◌, None};
ghost use Rattle.rbbi_io.specs.Errors.{read_err_label, write_err_label};
ghost use Rattle.rbbi_io.specs.declared.error.ReadErr.TheVariants as read;
ghost use Rattle.rbbi_io.specs.declared.error.WriteErr.TheVariants as write;

use std::alloc::AllocError;
use thiserror::Error;

/// Why a file is not read.
#[derive(Debug, Drop, Error)]
pub enum ReadErr {
    /// The read failed, and the count of failed reads of the name rose.
    #[error("the file cannot be read")]
    Failed,
    /// The file has more bytes than the limit.
    #[error("the file is too long")]
    TooLong,
    /// There is not enough memory.
    #[error("out of memory")]
    Memory,
}

/// Why bytes are not written.
#[derive(Debug, Drop, Error)]
pub enum WriteErr {
    /// The write failed, and the count of faults rose.
    #[error("the bytes cannot be written")]
    Failed,
    /// There is not enough memory.
    #[error("out of memory")]
    Memory,
}

impl From<AllocError> for ReadErr {
    ghost from_gives = { λ _ e. e ≡ read.Memory };

    fn from(_error: AllocError) -> ReadErr {
        ReadErr::Memory
    }
}

impl From<AllocError> for WriteErr {
    ghost from_gives = { λ _ e. e ≡ write.Memory };

    fn from(_error: AllocError) -> WriteErr {
        WriteErr::Memory
    }
}

impl ReadErr {
    /// The name of the variant.
    pub fn label(&self) -> &str
        ensures { result.now ≡ read_err_label self.now }
    {
        match self {
            ReadErr::Failed => "Failed",
            ReadErr::TooLong => "TooLong",
            ReadErr::Memory => "Memory",
        }
    }

    /// The place that the refusal carries: none.
    pub fn place(&self) -> Option<u32>
        ensures { result ≡ None }
    {
        None
    }
}

impl WriteErr {
    /// The name of the variant.
    pub fn label(&self) -> &str
        ensures { result.now ≡ write_err_label self.now }
    {
        match self {
            WriteErr::Failed => "Failed",
            WriteErr::Memory => "Memory",
        }
    }

    /// The place that the refusal carries: none.
    pub fn place(&self) -> Option<u32>
        ensures { result ≡ None }
    {
        None
    }
}
