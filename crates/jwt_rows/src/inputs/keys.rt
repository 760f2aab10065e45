//! Keys: an object whose one member is named after the constructor, such as `{"secret": ..}`.

use crate::bytes::bytes_of;
use crate::input::Input;
use jsonwebtoken::jwk::Jwk;
use jsonwebtoken::{DecodingKey, DecodingKeyKind, EncodingKey};
use jwt_key_files::pem::public_key_from_pem;
use serde_json::Value;
use std::alloc::Global;

impl Input for EncodingKey {
    fn read(alloc: Global, described: &Value) -> Option<EncodingKey> {
        let (name, given) = constructor(described)?;
        let bytes = bytes_of(alloc, given)?;
        let bytes = bytes.as_slice();
        match name {
            "secret" => EncodingKey::from_secret(alloc, bytes).ok(),
            "rsa_der" => EncodingKey::from_rsa_der(alloc, bytes).ok(),
            "ec_der" => EncodingKey::from_ec_der(alloc, bytes).ok(),
            "ed_der" => EncodingKey::from_ed_der(alloc, bytes).ok(),
            _ => None,
        }
    }
}

impl Input for DecodingKey {
    fn read(alloc: Global, described: &Value) -> Option<DecodingKey> {
        let (name, given) = constructor(described)?;
        match name {
            "jwk" => key_of_jwk(alloc, given),
            "rsa_components" | "ec_components" => key_of_components(alloc, name, given),
            _ => key_of_bytes(alloc, name, bytes_of(alloc, given)?.as_slice()),
        }
    }
}

/// The content of the key that is described.
impl Input for DecodingKeyKind {
    fn read(alloc: Global, described: &Value) -> Option<DecodingKeyKind> {
        DecodingKey::read(alloc, described)?
            .kind()
            .clone(alloc)
            .ok()
    }
}

// Returns the name of the constructor, and its argument.
fn constructor(described: &Value) -> Option<(&str, &Value)> {
    let mut members = described.as_object()?.iter();
    let (name, given) = members.next()?;
    match members.next() {
        Some(_) => None,
        None => Some((name.as_str(), given)),
    }
}

fn key_of_jwk(alloc: Global, described: &Value) -> Option<DecodingKey> {
    let jwk = Box::new(alloc, Jwk::from_value(alloc, described).ok()?).ok()?;
    DecodingKey::from_jwk(alloc, &jwk).ok()
}

fn key_of_components(alloc: Global, name: &str, given: &Value) -> Option<DecodingKey> {
    let first = given.get(0)?.as_str()?;
    let second = given.get(1)?.as_str()?;
    let key = match name {
        "rsa_components" => DecodingKey::from_rsa_components(alloc, first, second),
        _ => DecodingKey::from_ec_components(alloc, first, second),
    };
    key.ok()
}

fn key_of_bytes(alloc: Global, name: &str, bytes: &[u8]) -> Option<DecodingKey> {
    let key = match name {
        "secret" => DecodingKey::from_secret(alloc, bytes),
        "rsa_der" => DecodingKey::from_rsa_der(alloc, bytes),
        "ec_der" => DecodingKey::from_ec_der(alloc, bytes),
        "ed_der" => DecodingKey::from_ed_der(alloc, bytes),
        "pem" => public_key_from_pem(alloc, bytes),
        _ => return None,
    };
    key.ok()
}
