//! Providers of signatures, as a row describes them at `provider`:
//! `{"prepared": [[ALGORITHM, SECRET], ..]}` for a `PreparedHmac` of these secrets, with zeros in
//! their place if `zeroize` is true, `{"prepared_rsa": [[N, E], ..]}` for a `PreparedRsa` of these
//! keys, or `{"table": [[ALGORITHM, KEY, MESSAGE, SIGNATURE], ..]}` for a `TableProvider` of these
//! rows.

use crate::bytes::bytes_of;
use crate::input::Input;
use jsonwebtoken::Algorithm;
use jsonwebtoken::crypto::hmac::PreparedHmac;
use jwt_rsa::PreparedRsa;
use jwt_test_providers::providers::{self, TableProvider};
use serde_json::Value;
use std::alloc::Global;

impl Input for PreparedHmac {
    fn read(alloc: Global, described: &Value) -> Option<PreparedHmac> {
        let (first, others) = described.get("prepared")?.as_array()?.split_first()?;
        let mut prepared = new_prepared(alloc, first)?;
        for other in others {
            add_secret(alloc, &mut prepared, other)?;
        }
        if described.get("zeroize").and_then(Value::as_bool) == Some(true) {
            prepared.zeroize();
        }
        Some(Box::into_inner(prepared))
    }
}

impl Input for PreparedRsa {
    fn read(alloc: Global, described: &Value) -> Option<PreparedRsa> {
        let keys = described.get("prepared_rsa")?.as_array()?;
        let mut prepared = PreparedRsa::new(alloc);
        for key in keys {
            add_key(alloc, &mut prepared, key)?;
        }
        Some(prepared)
    }
}

impl Input for TableProvider {
    fn read(alloc: Global, described: &Value) -> Option<TableProvider> {
        let rows = Vec::<providers::Row>::read(alloc, described.get("table")?)?;
        Some(TableProvider::new(rows))
    }
}

impl Input for providers::Row {
    fn read(alloc: Global, described: &Value) -> Option<providers::Row> {
        let (algorithm, key) = secret_of(alloc, described)?;
        let message = bytes_at(alloc, described, 2)?;
        let signature = bytes_at(alloc, described, 3)?;
        let (key, message) = (key.as_slice(), message.as_slice());
        providers::Row::new(alloc, algorithm, key, message, signature.as_slice()).ok()
    }
}

/// Returns the algorithm and the secret that a list describes.
pub fn secret_of(alloc: Global, list: &Value) -> Option<(Algorithm, Vec<u8>)> {
    let algorithm = Algorithm::read(alloc, list.get(0)?)?;
    Some((algorithm, bytes_at(alloc, list, 1)?))
}

/// Returns the bytes, such as modulus and exponent, that a list describes.
pub fn two_of(alloc: Global, list: &Value) -> Option<(Vec<u8>, Vec<u8>)> {
    Some((bytes_at(alloc, list, 0)?, bytes_at(alloc, list, 1)?))
}

fn bytes_at(alloc: Global, list: &Value, place: usize) -> Option<Vec<u8>> {
    bytes_of(alloc, list.get(place)?)
}

fn new_prepared(alloc: Global, described: &Value) -> Option<Box<PreparedHmac>> {
    let (algorithm, secret) = secret_of(alloc, described)?;
    let prepared = PreparedHmac::new(alloc, algorithm, secret.as_slice()).ok()?;
    Box::new(alloc, prepared).ok()
}

fn add_secret(alloc: Global, prepared: &mut PreparedHmac, described: &Value) -> Option<()> {
    let (algorithm, secret) = secret_of(alloc, described)?;
    prepared.add(alloc, algorithm, secret.as_slice()).ok()
}

fn add_key(alloc: Global, prepared: &mut PreparedRsa, described: &Value) -> Option<()> {
    let (n, e) = two_of(alloc, described)?;
    prepared.add(alloc, n.as_slice(), e.as_slice()).ok()
}
