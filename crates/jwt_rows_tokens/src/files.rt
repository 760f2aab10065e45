//! Keys as files hold them, signatures in DER, and the comparison of signatures.

use jsonwebtoken::crypto::is_same;
use jsonwebtoken::{DecodingKey, errors};
use jwt_key_files::certificate::{
    unverified_key_from_certificate, unverified_key_from_certificate_pem,
};
use jwt_key_files::jwk::jwk_from_pem;
use jwt_key_files::pem::public_key_from_pem;
use jwt_key_files::public_key::{public_key_from_der, rsa_components_from_der};
use jwt_key_files::signature::ecdsa_signature;
use jwt_rows::output::JwkValue;
use jwt_rows::{Answer, Row};
use std::alloc::Global;

/// Makes a call that reads a key in DER.
pub fn of_der(call: &str, row: &Row<'_>) -> Answer {
    let der = row.bytes("der");
    row.end(key_of_der(row.begin(), call, der.as_slice()))
}

/// Returns the key that the call of this name reads.
pub fn key_of_der(alloc: Global, call: &str, der: &[u8]) -> errors::Result<DecodingKey> {
    if call == "public_key_from_der" {
        public_key_from_der(alloc, der)
    } else {
        unverified_key_from_certificate(alloc, der)
    }
}

/// Makes a call that reads a key in PEM.
pub fn of_pem(call: &str, row: &Row<'_>) -> Answer {
    let pem = row.bytes("pem");
    let pem = pem.as_slice();
    let alloc = row.begin();
    match call {
        "public_key_from_pem" => row.end(public_key_from_pem(alloc, pem)),
        "jwk_from_pem" => row.end(jwk_from_pem(alloc, pem).map(JwkValue)),
        _ => row.end(unverified_key_from_certificate_pem(alloc, pem)),
    }
}

/// Calls `rsa_components_from_der`.
pub fn components_of_der(row: &Row<'_>) -> Answer {
    let der = row.bytes("der");
    row.begin();
    let found = rsa_components_from_der(der.as_slice());
    row.stop();
    match found {
        Some((n, e)) => components(row, n, e),
        None => row.give(&()),
    }
}

/// Calls `ecdsa_signature`.
pub fn signature_of_der(row: &Row<'_>) -> Answer {
    let algorithm = row.algorithm("algorithm");
    let der = row.bytes("der");
    row.end(ecdsa_signature(row.begin(), der.as_slice(), algorithm))
}

/// Calls `is_same`.
pub fn are_same(row: &Row<'_>) -> Answer {
    let expected = row.bytes("expected");
    let given = row.bytes("given");
    row.begin();
    row.give(&is_same(expected.as_slice(), given.as_slice()))
}

fn components(row: &Row<'_>, n: &[u8], e: &[u8]) -> Answer {
    let n = n.to_vec(row.alloc()).ok()?;
    let e = e.to_vec(row.alloc()).ok()?;
    row.give(&(n, e))
}
