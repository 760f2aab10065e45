//! Tokens whose signatures are made elsewhere.

use crate::fault::Fault;
use jsonwebtoken::crypto::signature::SignatureProvider;
use jsonwebtoken::errors::Result;
use jsonwebtoken::prelude::*;
use jsonwebtoken::{encode_by_signature, signing_input};
use jwt_key_files::signature::ecdsa_signature;
use serde_json::Value;
use std::alloc::Global;
use std::rt::Runtime;

/// Returns an ES256 token, signed with a key that is kept in a KMS.
pub fn sign_elsewhere(alloc: Global, header: &Header, claims: &Value) -> Result<String> {
    let input = signing_input(alloc, header, claims)?;
    let message = input.message.as_bytes();
    let der = my_kms_signs(alloc, message)?; // ECDSA with SHA-256
    let signature = ecdsa_signature(alloc, der.as_slice(), Algorithm::ES256)?;
    let given = SignatureProvider::new(Algorithm::ES256, message, signature.as_slice());
    encode_by_signature(alloc, header, claims, &given)
}

/// A signature of the header `{"alg":"ES256","typ":"JWT"}` and the claims
/// `{"aud":"my-service","exp":2532524891}`, by Python's cryptography.
const DER: [u8; 71] = [
    48, 69, 2, 33, 0, 155, 158, 226, 40, 132, 85, 140, 161, 255, 196, 89, 147, 107, 4, 163, 243,
    89, 78, 80, 180, 33, 91, 191, 254, 165, 225, 126, 63, 236, 56, 141, 28, 2, 32, 97, 18, 16, 148,
    120, 60, 27, 189, 60, 135, 245, 15, 184, 142, 227, 19, 229, 231, 212, 48, 141, 255, 43, 37,
    202, 118, 99, 158, 232, 158, 16, 223,
];

/// Prints the token of the claims.
pub fn show<T: Runtime + AllocGlobal>(rt: &T, claims: &Value) -> Result<(), Fault> {
    let alloc = rt.alloc();
    let header = Box::new(alloc, Header::new(alloc, Algorithm::ES256)?)?;
    let token = sign_elsewhere(alloc, &header, claims)?;
    println!(rt; "{token}")?;
    Ok(())
}

/// Stands for the caller's KMS: it signs one message, with the key of RFC 7515 appendix A.3.
fn my_kms_signs(alloc: Global, _message: &[u8]) -> Result<Vec<u8>> {
    Ok(DER.as_slice().to_vec(alloc)?)
}
