//! Tokens whose signature is made or checked elsewhere, and the providers of this signature and of
//! the verdict on it. A row describes it by the members `algorithm`, `message` and `signature`, and
//! a verdict by `yes` too; `verdict` next to these members of the row itself is the verdict alone.

use crate::providers::{of_der, sign, verify_each};
use jsonwebtoken::crypto::signature::SignatureProvider;
use jsonwebtoken::crypto::verdict::VerdictProvider;
use jsonwebtoken::crypto::{CryptoProvider, JwtVerifier};
use jsonwebtoken::{
    Algorithm, DecodingKey, EncodingKey, Header, Validation, decode_by_verdict,
    encode_by_signature, signing_input,
};
use jwt_rows::bytes::bytes_of;
use jwt_rows::{Answer, Input, Row};
use serde_json::Value;
use std::alloc::Global;

/// A signature that is made or checked elsewhere, and what it signs.
#[derive(Drop)]
struct Elsewhere {
    algorithm: Algorithm,
    message: Vec<u8>,
    signature: Vec<u8>,
    is_valid: bool,
}

impl Elsewhere {
    fn signature(&self) -> SignatureProvider<'_> {
        let (message, signature) = (self.message.as_slice(), self.signature.as_slice());
        SignatureProvider::new(self.algorithm, message, signature)
    }

    fn verdict(&self) -> VerdictProvider<'_> {
        let (message, signature) = (self.message.as_slice(), self.signature.as_slice());
        VerdictProvider::new(self.algorithm, message, signature, self.is_valid)
    }
}

impl Input for Elsewhere {
    fn read(alloc: Global, described: &Value) -> Option<Elsewhere> {
        Some(Elsewhere {
            algorithm: Algorithm::read(alloc, described.get("algorithm")?)?,
            message: bytes_of(alloc, described.get("message")?)?,
            signature: bytes_of(alloc, described.get("signature")?)?,
            is_valid: described.get("yes").and_then(Value::as_bool) == Some(true),
        })
    }
}

/// Calls `signing_input`.
pub fn input(row: &Row<'_>) -> Answer {
    let header = row.input::<Header>("header")?;
    let claims = row.json("claims", "claims_json");
    row.end(signing_input(row.begin(), &header, &claims))
}

/// Calls `encode_by_signature`.
pub fn encode(row: &Row<'_>) -> Answer {
    let header = row.input::<Header>("header")?;
    let claims = row.json("claims", "claims_json");
    let given = of_row(row, false);
    row.end(encode_by_signature(row.begin(), &header, &claims, &given.signature()))
}

/// Calls `decode_by_verdict`.
pub fn decode(row: &Row<'_>) -> Answer {
    let token = row.bytes("token");
    let given = of_row(row, row.flag("verdict"));
    let options = row.input::<Validation>("validation")?;
    let time = row.number("now");
    let token = token.as_slice();
    row.end(decode_by_verdict::<Value>(row.begin(), token, &given.verdict(), &options, time))
}

/// Makes a call of `SignatureProvider`.
pub fn signature(method: &str, row: &Row<'_>) -> Answer {
    let given = row.read::<Elsewhere>("given")?;
    by_signature(method, row, &given.signature())
}

/// Makes a call of `VerdictProvider`.
pub fn verdict(method: &str, row: &Row<'_>) -> Answer {
    let given = row.read::<Elsewhere>("verdict")?;
    by_verdict(method, row, &given.verdict())
}

fn by_signature(method: &str, row: &Row<'_>, provider: &SignatureProvider<'_>) -> Answer {
    if method == "key" {
        return row.end(provider.key(row.begin()));
    }
    let algorithm = row.algorithm("algorithm");
    if method == "verifier_factory" {
        let key = row.input::<DecodingKey>("key")?;
        return make_verifier(row, provider, algorithm, &key);
    }
    let key = signing_key(row, provider)?;
    by_signer(method, row, provider, algorithm, &key)
}

fn by_verdict(method: &str, row: &Row<'_>, provider: &VerdictProvider<'_>) -> Answer {
    if method == "key" {
        return row.end(provider.key(row.begin()));
    }
    if method.starts_with("rsa_pub") {
        return of_der(method, row, provider);
    }
    let algorithm = row.algorithm("algorithm");
    if method == "signer_factory" {
        let key = row.input::<EncodingKey>("key")?;
        return by_signer(method, row, provider, algorithm, &key);
    }
    let key = verification_key(row, provider)?;
    by_verifier(method, row, provider, algorithm, &key)
}

// Returns the signature that the row itself describes, with a verdict on it.
fn of_row(row: &Row<'_>, is_valid: bool) -> Elsewhere {
    Elsewhere {
        algorithm: row.algorithm("algorithm"),
        message: row.bytes("message"),
        signature: row.bytes("signature"),
        is_valid,
    }
}

// Returns the key at `key`, or the given signature's own if the row has none.
fn signing_key(row: &Row<'_>, given: &SignatureProvider<'_>) -> Option<Box<EncodingKey>> {
    if row.value("key").is_some() {
        return row.input::<EncodingKey>("key");
    }
    Box::new(row.alloc(), given.key(row.alloc()).ok()?).ok()
}

fn by_signer<P: CryptoProvider>(
    method: &str,
    row: &Row<'_>,
    provider: &P,
    algorithm: Algorithm,
    key: &EncodingKey,
) -> Answer {
    if method == "signer_factory, sign" {
        let signer = provider.signer_factory(row.alloc(), &algorithm, key).ok()?;
        return sign(row, &signer);
    }
    let alloc = row.begin();
    match provider.signer_factory(alloc, &algorithm, key) {
        Ok(_signer) => row.give(&()),
        Err(refusal) => row.refuse(&refusal),
    }
}

fn by_verifier<P: CryptoProvider>(
    method: &str,
    row: &Row<'_>,
    provider: &P,
    algorithm: Algorithm,
    key: &DecodingKey,
) -> Answer {
    let is_each = method == "verifier_factory, verify each";
    if !is_each && method != "verifier_factory, verify" {
        return make_verifier(row, provider, algorithm, key);
    }
    let verifier = provider
        .verifier_factory(row.alloc(), &algorithm, key)
        .ok()?;
    if is_each {
        return verify_each(row, &verifier);
    }
    verify(row, &verifier)
}

fn make_verifier<P: CryptoProvider>(
    row: &Row<'_>,
    provider: &P,
    algorithm: Algorithm,
    key: &DecodingKey,
) -> Answer {
    let alloc = row.begin();
    match provider.verifier_factory(alloc, &algorithm, key) {
        Ok(_verifier) => row.give(&()),
        Err(refusal) => row.refuse(&refusal),
    }
}

// Returns the key at `key`, or the verdict's own if the row has none.
fn verification_key(row: &Row<'_>, given: &VerdictProvider<'_>) -> Option<Box<DecodingKey>> {
    if row.value("key").is_some() {
        return row.input::<DecodingKey>("key");
    }
    Box::new(row.alloc(), given.key(row.alloc()).ok()?).ok()
}

fn verify<V: JwtVerifier>(row: &Row<'_>, verifier: &V) -> Answer {
    let message = row.bytes("message");
    let signature = row.bytes("signature");
    row.end(verifier.verify(row.begin(), message.as_slice(), signature.as_slice()))
}
