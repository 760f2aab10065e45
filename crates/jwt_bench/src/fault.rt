//! The faults of the program.

use jsonwebtoken::errors::Error;
use std::alloc::AllocError;
use std::io;

/// The reason for which nothing was measured.
#[derive(Debug, Drop, thiserror::Error)]
pub enum BenchFault {
    /// The arguments are not among those that `start` takes.
    #[error("usage: jwt_bench [decode|encode|header|prepared-decode|prepared-encode|decode-jwk|compare-first|compare-last FILE COUNT]")]
    Words,
    /// The file, the clock or the output failed.
    #[error("input or output failed")]
    Io,
    /// The token or the claims were refused.
    #[error("refused")]
    Refused,
    /// Memory ran out.
    #[error("out of memory")]
    Memory,
}

impl From<io::Error> for BenchFault {
    fn from(_fault: io::Error) -> BenchFault {
        BenchFault::Io
    }
}

impl From<AllocError> for BenchFault {
    fn from(_fault: AllocError) -> BenchFault {
        BenchFault::Memory
    }
}

impl From<Error> for BenchFault {
    fn from(_fault: Error) -> BenchFault {
        BenchFault::Refused
    }
}
