//! JSON values: types that are read from them and written as them, their equality, and the members
//! of an object.

pub mod claims;
pub mod equality;
pub mod members;

pub use claims::{Claims, value_text};
pub use equality::{has_float, value_eq};
