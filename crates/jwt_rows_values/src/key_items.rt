//! Key sets that are read item by item.

use jwt_key_items::KeyItems;
use jwt_rows::output::List;
use jwt_rows::{Answer, Row};
use std::alloc::Global;

/// Makes a call of `KeyItems`: `from_slice`, or `kept` after it.
pub fn key_items(method: &str, row: &Row<'_>) -> Answer {
    let bytes = row.bytes("bytes");
    let alloc = row.begin();
    match KeyItems::from_slice(alloc, bytes.as_slice()) {
        Ok(items) => match method {
            "kept" => row.end(items.kept(alloc)),
            _ => usages(alloc, row, &items),
        },
        Err(refused) => row.refuse(&refused),
    }
}

/// Returns the usage of each item, as `Debug` shows it.
fn usages(alloc: Global, row: &Row<'_>, items: &KeyItems) -> Answer {
    row.stop();
    let mut usages = Vec::new(alloc);
    for item in &items.items {
        let usage = format!(in alloc; "{:?}", item.usage).ok()?;
        usages.push(usage).ok()?;
    }
    row.give(&List(usages.as_slice()))
}
