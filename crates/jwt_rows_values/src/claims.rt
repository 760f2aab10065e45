//! JSON values: claims of the plain types, equality, and floats.

use jsonwebtoken::json::{Claims, has_float, value_eq, value_text};
use jwt_rows::{Answer, Input, Output, Row};

/// Makes a call that reads claims of a type, or writes them.
pub fn claims<T: Claims + Input + Output>(method: &str, row: &Row<'_>) -> Answer {
    let value = row.json("value", "value_json");
    match method {
        "from_value" => { row.end(T::from_value(row.begin(), &value)) }
        "from_owned" => { row.end(T::from_owned(row.begin(), value)) }
        _ => {
            let claims = T::read(row.alloc(), &value)?;
            write(method, row, &claims)
        }
    }
}

/// Makes a call about a JSON value.
pub fn value(call: &str, row: &Row<'_>) -> Answer {
    let value = row.json("value", "value_json");
    let alloc = row.begin();
    match call {
        "has_float" => row.give(&has_float(&value)),
        "value_text" => row.end(value_text(alloc, &value)),
        _ => None,
    }
}

/// Calls `value_eq`.
pub fn are_equal(row: &Row<'_>) -> Answer {
    let left = row.json("left", "left_json");
    let right = row.json("right", "right_json");
    row.begin();
    row.give(&value_eq(&left, &right))
}

fn write<T: Claims>(method: &str, row: &Row<'_>, claims: &T) -> Answer {
    let alloc = row.begin();
    match method {
        "to_value" => row.end(claims.to_value(alloc)),
        "to_text" => row.end(claims.to_text(alloc)),
        _ => None,
    }
}
