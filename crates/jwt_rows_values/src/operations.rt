//! Lists of the operations that a key may be used for.

use crate::json::json_call;
use jsonwebtoken::jwk::{KeyOperationList, KeyOperations};
use jwt_rows::output::List;
use jwt_rows::{Answer, Row};

/// Makes a call of `KeyOperationList`.
pub fn list(method: &str, row: &Row<'_>) -> Answer {
    match method {
        "from" | "from_slice" | "as_slice" | "into_vec" => of_operations(method, row),
        _ => json_call::<KeyOperationList>(method, row),
    }
}

fn of_operations(method: &str, row: &Row<'_>) -> Answer {
    let operations = row.read::<Vec<KeyOperations>>("value")?;
    if method == "from_slice" {
        let alloc = row.begin();
        return row.end(KeyOperationList::from_slice(alloc, operations.as_slice()));
    }
    row.begin();
    let list = KeyOperationList::from(operations);
    match method {
        "from" => row.give(&list),
        "as_slice" => row.give(&List(list.as_slice())),
        _ => row.give(&List(list.into_vec().as_slice())),
    }
}
