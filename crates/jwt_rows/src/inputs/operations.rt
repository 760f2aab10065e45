//! The operations that a key may be used for: names, and lists of names.

use crate::input::Input;
use jsonwebtoken::Text;
use jsonwebtoken::jwk::{KeyOperationList, KeyOperations};
use serde_json::Value;
use std::alloc::Global;

impl Input for KeyOperations {
    fn read(alloc: Global, described: &Value) -> Option<KeyOperations> {
        match described.get("other") {
            Some(name) => Some(KeyOperations::Other(Text::read(alloc, name)?)),
            None => KeyOperations::from_value(alloc, described).ok(),
        }
    }
}

impl Input for KeyOperationList {
    fn read(alloc: Global, described: &Value) -> Option<KeyOperationList> {
        let operations = Vec::<KeyOperations>::read(alloc, described)?;
        Some(KeyOperationList::from(operations))
    }
}
