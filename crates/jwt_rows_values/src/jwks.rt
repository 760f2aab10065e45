//! JSON Web Keys (RFC 7517), and sets of them.

use crate::json::{json_call, json_input};
use jsonwebtoken::jwk::{Jwk, JwkSet};
use jwt_rows::{Answer, Row};

/// Makes a call of `Jwk`.
pub fn jwk(method: &str, row: &Row<'_>) -> Answer {
    match method {
        "is_supported" => {
            let key = row.input::<Jwk>("value")?;
            row.begin();
            row.give(&key.is_supported())
        }
        "to_text" => {
            let key = json_input::<Jwk>(row)?;
            row.end(key.to_text(row.begin()))
        }
        "from_slice" => {
            let bytes = row.bytes("bytes");
            row.end(Jwk::from_slice(row.begin(), bytes.as_slice()))
        }
        _ => json_call::<Jwk>(method, row),
    }
}

/// Makes a call of `JwkSet`.
pub fn jwk_set(method: &str, row: &Row<'_>) -> Answer {
    match method {
        "new" => {
            let alloc = row.begin();
            row.give(&JwkSet::new(alloc))
        }
        "find" => {
            let set = row.input::<JwkSet>("set")?;
            let kid = row.text("kid");
            row.begin();
            row.give(&set.find(kid))
        }
        "to_text" => {
            let set = json_input::<JwkSet>(row)?;
            row.end(set.to_text(row.begin()))
        }
        "from_slice" => {
            let bytes = row.bytes("bytes");
            row.end(JwkSet::from_slice(row.begin(), bytes.as_slice()))
        }
        _ => json_call::<JwkSet>(method, row),
    }
}
