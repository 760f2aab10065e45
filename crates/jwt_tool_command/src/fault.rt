//! The fault of the program.

use thiserror::Error;

/// The reason for which the program printed no result.
#[derive(Debug, Drop, PartialEq, Eq, Error)]
pub enum ToolFault {
    /// The arguments or the input could not be read, or the input did not end.
    #[error("read failed")]
    Read,
    /// The line could not be written.
    #[error("write failed")]
    Write,
    /// Memory ran out while the input was gathered or a line was built.
    #[error("out of memory")]
    Memory,
}
