//! The calls that many types have: `==`, hashing and `Debug`.

use crate::answer::Answer;
use crate::input::Input;
use crate::row::Row;
use std::fmt::Debug;
use std::hash::{DefaultHasher, Hash, Hasher};

/// Returns whether the values at `left` and `right` are equal.
pub fn eq<T: Input + PartialEq>(row: &Row<'_>) -> Answer {
    let left = row.input::<T>("left")?;
    let right = row.input::<T>("right")?;
    row.begin();
    let are_equal = *left == *right;
    row.give(&are_equal)
}

/// Returns whether the values at `left` and `right` leave a hasher with the same number.
pub fn hash<T: Input + Hash>(row: &Row<'_>) -> Answer {
    let left = row.input::<T>("left")?;
    let right = row.input::<T>("right")?;
    let mut one = DefaultHasher::new();
    let mut other = DefaultHasher::new();
    right.hash(&mut other);
    row.begin();
    left.hash(&mut one);
    let are_equal = one.finish() == other.finish();
    row.give(&are_equal)
}

/// Returns what `Debug` writes of the value at a name.
pub fn debug<T: Input + Debug>(row: &Row<'_>, name: &'static str) -> Answer {
    let value = row.input::<T>(name)?;
    let text = format!(in row.alloc(); "{:?}", *value).ok()?;
    row.give(&text)
}
