//! The faults that end the program.

use jsonwebtoken::errors::Error;
use std::alloc::{AllocError, AllocFailed};
use std::io;

/// The reason for which the program stopped.
#[derive(Debug, Drop, thiserror::Error)]
pub enum Fault {
    /// A call of the library was refused.
    #[error("refused: {0}")]
    Refused(Error),
    /// A line could not be printed.
    #[error("output failed")]
    Output,
}

impl From<Error> for Fault {
    fn from(refusal: Error) -> Fault {
        Fault::Refused(refusal)
    }
}

impl From<io::Error> for Fault {
    fn from(_fault: io::Error) -> Fault {
        Fault::Output
    }
}

impl From<AllocError> for Fault {
    fn from(refused: AllocError) -> Fault {
        Fault::Refused(Error::from(refused))
    }
}

impl<T: Drop> From<AllocFailed<T>> for Fault {
    fn from(refused: AllocFailed<T>) -> Fault {
        Fault::Refused(Error::from(refused))
    }
}
