//! Why a case file is refused.
use std::alloc::{AllocError, AllocFailed};
use std::str::Utf8Error;

/// Why a case file is refused.
#[derive(Drop)]
pub(crate) enum CaseErr {
    /// A line isn't of the form, for this reason.
    Wrong(&'static str),
    /// Memory ran out.
    Memory,
}

impl CaseErr {
    /// The reason in words.
    pub(crate) fn label(&self) -> &str {
        match self {
            CaseErr::Wrong(reason) => reason,
            CaseErr::Memory => "memory ran out",
        }
    }
}

impl From<AllocError> for CaseErr {
    fn from(_fault: AllocError) -> CaseErr {
        CaseErr::Memory
    }
}

impl<T: Drop> From<AllocFailed<T>> for CaseErr {
    fn from(_fault: AllocFailed<T>) -> CaseErr {
        CaseErr::Memory
    }
}

impl From<Utf8Error> for CaseErr {
    fn from(_fault: Utf8Error) -> CaseErr {
        CaseErr::Wrong("no UTF-8")
    }
}
