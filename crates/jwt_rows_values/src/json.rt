//! The calls that types with a JSON value have in common.

mod headers;
mod names;
mod parameters;

use jsonwebtoken::errors;
use jwt_rows::calls::{debug, eq, hash};
use jwt_rows::{Answer, Input, Output, Row};
use serde_json::{Map, Value};
use std::alloc::Global;
use std::fmt::Debug;
use std::hash::Hash;

/// A type of the library that is read from a JSON value and written as one.
pub trait Json: Input + Output {
    /// Calls `from_value`.
    fn from_json(alloc: Global, value: &Value) -> errors::Result<Self>;

    /// Calls `to_value`.
    fn to_json(&self, alloc: Global) -> errors::Result<Value>;

    /// Calls `clone`.
    fn copy(&self, alloc: Global) -> errors::Result<Self>;
}

/// A type whose values have names.
pub trait Named: Json {
    /// Calls `name`.
    fn own_name(&self) -> &'static str;
}

/// A type of parameters that lists their members.
pub trait Membered: Json {
    /// Calls `members`.
    fn list(&self, alloc: Global) -> errors::Result<Map<String, Value>>;
}

/// Makes a call that all types with a JSON value have.
pub fn json_call<T: Json + PartialEq + Hash + Debug>(method: &str, row: &Row<'_>) -> Answer {
    match method {
        "from_value" => from_value::<T>(row),
        "to_value" => to_value::<T>(row),
        "eq" => eq::<T>(row),
        "hash" => hash::<T>(row),
        "clone" => clone::<T>(row),
        "debug" => debug::<T>(row, "value"),
        _ => None,
    }
}

/// Makes a call of a type whose values have names.
pub fn named_call<T: Named + Default + PartialEq + Hash + Debug>(
    method: &str,
    row: &Row<'_>,
) -> Answer {
    match method {
        "name" => {
            let value = row.input::<T>("value")?;
            row.begin();
            row.give(&value.own_name())
        }
        "default" => {
            row.begin();
            row.give(&T::default())
        }
        _ => json_call::<T>(method, row),
    }
}

/// Makes a call of a type of parameters.
pub fn membered_call<T: Membered + PartialEq + Hash + Debug>(
    method: &str,
    row: &Row<'_>,
) -> Answer {
    match method {
        "members" => {
            let parameters = row.input::<T>("value")?;
            row.end(parameters.list(row.begin()))
        }
        _ => json_call::<T>(method, row),
    }
}

/// Returns the value that the row describes at `value`, or in the text that `value_json` describes.
pub fn json_input<T: Input>(row: &Row<'_>) -> Option<Box<T>> {
    let value = row.json("value", "value_json");
    Box::new(row.alloc(), T::read(row.alloc(), &value)?).ok()
}

fn from_value<T: Json>(row: &Row<'_>) -> Answer {
    row.choose_form();
    let value = row.json("value", "value_json");
    row.end(T::from_json(row.begin(), &value))
}

fn to_value<T: Json>(row: &Row<'_>) -> Answer {
    row.choose_form();
    let value = json_input::<T>(row)?;
    row.end(value.to_json(row.begin()))
}

fn clone<T: Json + PartialEq>(row: &Row<'_>) -> Answer {
    let value = json_input::<T>(row)?;
    let alloc = row.begin();
    match value.copy(alloc) {
        Ok(copy) => row.give(&(copy == *value)),
        Err(refusal) => row.refuse(&refusal),
    }
}
