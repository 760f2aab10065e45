//! JSON Web Keys and sets of them: the JSON value that reads as the key, or, for a key of the type
//! `Other` that no JSON value reads as, an object whose member `other` has the key's own members,
//! besides those that keys of every type may have.

use crate::input::Input;
use crate::row::{Row, has_only};
use jsonwebtoken::jwk::{AlgorithmParameters, CommonParameters, Jwk, JwkSet, OtherKeyParameters};
use serde_json::Value;
use std::alloc::Global;

// The members that stand next to `other`.
const DESCRIBED: [&str; 9] = [
    "other", "use", "key_ops", "alg", "kid", "x5u", "x5c", "x5t", "x5t#S256",
];

impl Input for Jwk {
    fn read(alloc: Global, described: &Value) -> Option<Jwk> {
        match described.get("other") {
            Some(members) => other_key(alloc, described, members),
            None => Jwk::from_value(alloc, described).ok(),
        }
    }
}

impl Input for JwkSet {
    fn read(alloc: Global, described: &Value) -> Option<JwkSet> {
        let keys = Vec::<Jwk>::read(alloc, described.get("keys")?)?;
        Some(JwkSet { keys })
    }
}

/// Returns the key that the JSON value at `jwk` reads as, or that of the text which `jwk_json`
/// describes.
pub fn jwk(row: &Row<'_>) -> Option<Box<Jwk>> {
    let value = row.json("jwk", "jwk_json");
    Box::new(row.alloc(), Jwk::from_value(row.alloc(), &value).ok()?).ok()
}

/// Returns the set of keys that the JSON value at `set` reads as.
pub fn key_set(row: &Row<'_>) -> Option<Box<JwkSet>> {
    let value = row.value("set")?;
    Box::new(row.alloc(), JwkSet::from_value(row.alloc(), value).ok()?).ok()
}

fn other_key(alloc: Global, described: &Value, members: &Value) -> Option<Jwk> {
    if !has_only(described, &DESCRIBED) {
        return None;
    }
    let other = OtherKeyParameters::read(alloc, members)?;
    Some(Jwk {
        common: CommonParameters::from_value(alloc, described).ok()?,
        algorithm: AlgorithmParameters::Other(other),
    })
}
