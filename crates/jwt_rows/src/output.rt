//! Results of calls, as rows want them.

mod errors;
mod keys;
mod names;
mod plain;
mod tokens;
mod types;
mod validations;

use crate::answer::Answer;
pub use plain::{Bytes, Found, List};
use std::alloc::Global;
pub use tokens::{JwkValue, Verdict};

/// A type whose values are results.
pub trait Output: Drop {
    /// Returns the value that shows it.
    fn show(&self, alloc: Global) -> Answer;
}

/// A type whose values are refusals.
pub trait Refuse: Drop {
    /// Returns the result of a call that refused.
    fn refuse(&self, alloc: Global) -> Answer;
}
