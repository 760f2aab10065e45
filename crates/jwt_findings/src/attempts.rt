//! Calls of the library whose refusal is an answer, unless memory ran out.

ghost use Rattle.std.specs.Prelude.{◌≡◌, IsErr, Ok, Err, Some, None};
ghost use Rattle.jwt_base.specs.KindOf.{IsMemory};

use jsonwebtoken::errors::{Error, ErrorKind};
use std::alloc::AllocError;

/// Returns the value that a call made, or `None` if it was refused for another reason than memory.
pub fn value_unless_refused<R>(made: Result<R, Error>) -> Result<Option<R>, AllocError>
    ensures value { (value : R) → made ≡ Ok value → result ≡ Ok (Some value) }
    ensures memory { (error : Error) → made ≡ Err error → IsMemory error → IsErr result }
    ensures none { (error : Error) → made ≡ Err error → ¬ IsMemory error → result ≡ Ok None }
{
    match made {
        Ok(value) => Ok(Some(value)),
        Err(error) if matches!(error.kind(), ErrorKind::OutOfMemory) => Err(AllocError),
        Err(_) => Ok(None),
    }
}
