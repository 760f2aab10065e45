//! Signatures on curves, verified by the bytes of a key and by the key that is prepared.

use crate::arithmetic::octets;
use ecdsa::curves::{is_es256, is_es384};
use ecdsa::prepared_curves::{is_es256_by, is_es384_by, prepare_p256, prepare_p384};
use ed25519::prepared::{is_signature_by, prepare_key};
use ed25519::verification;
use jwt_rows::{Answer, Row};
use std::alloc::{AllocError, Global};

/// Returns whether the signature is one of the message by the algorithm and key, if both ways of
/// verifying say the same.
pub fn is_signature(row: &Row<'_>) -> Answer {
    let key = octets(row, "key");
    let message = octets(row, "message");
    let signature = octets(row, "signature");
    let (key, message, signature) = (key.as_slice(), message.as_slice(), signature.as_slice());
    let algorithm = row.text("algorithm");
    let by_bytes = by_bytes(algorithm, key, message, signature);
    match by_prepared(row.begin(), algorithm, key, message, signature) {
        Ok(verdict) if verdict != by_bytes => row.found("the same by a prepared key", None, None),
        answer => row.end(answer),
    }
}

fn by_bytes(algorithm: &str, key: &[u8], message: &[u8], signature: &[u8]) -> bool {
    match algorithm {
        "ES256" => is_es256(key, message, signature),
        "ES384" => is_es384(key, message, signature),
        _ => verification::is_signature(key, message, signature),
    }
}

fn by_prepared(
    alloc: Global,
    algorithm: &str,
    key: &[u8],
    message: &[u8],
    signature: &[u8],
) -> Result<bool, AllocError> {
    match algorithm {
        "ES256" => es256(alloc, key, message, signature),
        "ES384" => es384(alloc, key, message, signature),
        _ => eddsa(alloc, key, message, signature),
    }
}

fn es256(alloc: Global, key: &[u8], message: &[u8], signature: &[u8]) -> Result<bool, AllocError> {
    let Some(prepared) = prepare_p256(alloc, key)? else {
        return Ok(false);
    };
    Ok(is_es256_by(&prepared, message, signature))
}

fn es384(alloc: Global, key: &[u8], message: &[u8], signature: &[u8]) -> Result<bool, AllocError> {
    let Some(prepared) = prepare_p384(alloc, key)? else {
        return Ok(false);
    };
    Ok(is_es384_by(&prepared, message, signature))
}

fn eddsa(alloc: Global, key: &[u8], message: &[u8], signature: &[u8]) -> Result<bool, AllocError> {
    let Some(prepared) = prepare_key(alloc, key)? else {
        return Ok(false);
    };
    Ok(is_signature_by(&prepared, message, signature))
}
