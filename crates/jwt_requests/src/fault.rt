//! The faults that leave a command without an answer.

ghost use Rattle.std.specs.Prelude.{◌≡◌, ◌⊎◌, ◌↔◌, IsTrue};
ghost use Rattle.jwt_base.specs.KindOf.{IsMemory};

use jwt_base::errors::{Error, ErrorKind};
use std::alloc::{AllocError, AllocFailed};

/// The reason for which there is no answer.
#[derive(Debug, Drop, thiserror::Error)]
pub enum Fault<'a> {
    /// The arguments ask for nothing that can be done.
    #[error("{0}")]
    Usage(&'static str),
    /// A file could not be read, or holds something else than it has to.
    #[error("{path}: {problem}")]
    File {
        path: &'a str,
        problem: &'static str,
    },
    /// Standard input could not be read, or is too long.
    #[error("{0}")]
    Input(&'static str),
    /// Standard output could not be written.
    #[error("standard output could not be written")]
    Output,
    /// The system's clock could not be read, or shows a time before 1970.
    #[error("the system's clock could not be read; --now gives a time")]
    Clock,
    /// A request for memory was refused.
    #[error("out of memory")]
    Memory,
}

impl Fault<'_> {
    /// Returns the exit status: 2 for arguments, and 3 for files, streams, the clock and memory.
    pub fn status(&self) -> u8
        ensures { (result ≡ 2) ⊎ (result ≡ 3) }
    {
        match self {
            Fault::Usage(_) => 2,
            _ => 3,
        }
    }
}

impl From<AllocError> for Fault<'_> {
    fn from(_refused: AllocError) -> Self {
        Fault::Memory
    }
}

impl<T: Drop> From<AllocFailed<T>> for Fault<'_> {
    fn from(_refused: AllocFailed<T>) -> Self {
        Fault::Memory
    }
}

/// Returns whether an error says that memory ran out.
pub fn is_memory(error: &Error) -> bool
    ensures { IsTrue result ↔ IsMemory error.now }
{
    matches!(error.kind(), ErrorKind::OutOfMemory)
}

/// Returns the fault that an error is, unless it says that memory ran out.
pub fn fault_of<'a>(error: &Error, fault: Fault<'a>) -> Fault<'a>
    ensures memory { IsMemory error.now → result ≡ Fault.Memory }
    ensures other { ¬ IsMemory error.now → result ≡ fault.entry }
{
    if is_memory(error) {
        return Fault::Memory;
    }
    fault
}
