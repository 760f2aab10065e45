//! Values of the library, as rows describe them.

use serde_json::Value;
use std::alloc::Global;

/// A type of which rows describe values.
pub trait Input: Sized + Drop {
    /// Returns the value that is described, if there is one and memory did not run out.
    fn read(alloc: Global, described: &Value) -> Option<Self>;
}

/// Sets a field to the value that is described, if one is.
pub fn set_optional<T: Input>(
    alloc: Global,
    field: &mut Option<T>,
    described: Option<&Value>,
) -> Option<()> {
    if let Some(described) = described {
        *field = Some(T::read(alloc, described)?);
    }
    Some(())
}
