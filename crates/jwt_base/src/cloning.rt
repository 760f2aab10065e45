//! Copies that are made with an allocator.

// A copy of a value that may be absent is one generic call, `clone_option`, over a trait of one
// call (`CloneIn`). A call with a closure would need no trait, but each caller would have to prove
// what its closure returns.

ghost use Rattle.std.specs.Prelude.{◌≡◌, IfOk, IfErr};
ghost use Rattle.jwt_base.specs.KindOf.{IsMemory};

use crate::errors::Result;
use std::alloc::Global;

/// A type whose values are copied with an allocator.
pub trait CloneIn: Sized + Drop {
    /// Returns a copy. The only refusal is `OutOfMemory`.
    fn clone_in(&self, alloc: Global) -> Result<Self>
        ensures ok { IfOk result (λ copy. copy ≡ self.now) }
        ensures err { IfErr result IsMemory };
}

/// Returns a copy of a value that may be absent. The only refusal is `OutOfMemory`.
pub fn clone_option<T: CloneIn>(alloc: Global, value: &Option<T>) -> Result<Option<T>>
    ensures ok { IfOk result (λ copy. copy ≡ value.now) }
    ensures err { IfErr result IsMemory }
{
    match value {
        Some(value) => Ok(Some(value.clone_in(alloc)?)),
        None => Ok(None),
    }
}
