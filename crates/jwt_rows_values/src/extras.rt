//! The members of a header that the standards do not name.

use crate::json::json_call;
use jsonwebtoken::Extras;
use jsonwebtoken::json::Claims;
use jwt_rows::output::Found;
use jwt_rows::{Answer, Input, Output, Row};
use serde_json::Value;

/// Makes a call of `Extras`.
pub fn extras(method: &str, row: &Row<'_>) -> Answer {
    match method {
        "new" => {
            let alloc = row.begin();
            row.give(&Extras::new(alloc))
        }
        "inner" => {
            let extras = row.input::<Extras>("value")?;
            row.begin();
            row.give(extras.inner())
        }
        "contains" => {
            let extras = row.input::<Extras>("extras")?;
            let name = row.text("name");
            row.begin();
            row.give(&extras.contains(name))
        }
        "get" | "insert" => by_type(method, row),
        _ => json_call::<Extras>(method, row),
    }
}

fn by_type(method: &str, row: &Row<'_>) -> Answer {
    match row.text("as") {
        "Value" => of_member::<Value>(method, row),
        "String" => of_member::<String>(method, row),
        "bool" => of_member::<bool>(method, row),
        "u32" => of_member::<u32>(method, row),
        "u64" => of_member::<u64>(method, row),
        "i32" => of_member::<i32>(method, row),
        "i64" => of_member::<i64>(method, row),
        _ => None,
    }
}

fn of_member<T: Claims + Input + Output>(method: &str, row: &Row<'_>) -> Answer {
    if method == "get" {
        return get::<T>(row);
    }
    let value = row.read::<T>("value")?;
    insert(row, &value)
}

fn get<T: Claims + Output>(row: &Row<'_>) -> Answer {
    let extras = row.input::<Extras>("extras")?;
    let name = row.text("name");
    let member = extras.get::<T>(row.begin(), name);
    row.end(member.map(Found))
}

fn insert<T: Claims>(row: &Row<'_>, value: &T) -> Answer {
    let before = row.input::<Extras>("extras")?;
    let mut after = row.input::<Extras>("extras")?;
    let name = row.text("name");
    let answer = after.insert(row.begin(), name, value);
    row.end_change(answer, &*before, &*after)
}
