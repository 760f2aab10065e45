//! Secrets and RSA keys that are prepared. The row lists at `asked` of which ones the result says
//! whether they are prepared.

use crate::providers::verify_each;
use jsonwebtoken::crypto::CryptoProvider;
use jsonwebtoken::crypto::hmac::PreparedHmac;
use jsonwebtoken::{Algorithm, DecodingKey};
use jwt_rows::inputs::providers::{secret_of, two_of};
use jwt_rows::{Answer, Row};
use jwt_rsa::PreparedRsa;
use serde_json::Value;
use std::alloc::Global;

/// Makes a call of `PreparedHmac`.
pub fn hmac(method: &str, row: &Row<'_>) -> Answer {
    if method == "zeroize" {
        return zeroize(row);
    }
    let algorithm = row.algorithm("algorithm");
    if method == "verifier_factory, zeroize, verify each" {
        return verify_after_zeroize(row, algorithm);
    }
    let secret = row.bytes("secret");
    match method {
        "new" => new_hmac(row, algorithm, secret.as_slice()),
        _ => of_secret(method, row, algorithm, secret.as_slice()),
    }
}

/// Makes a call of `PreparedRsa`.
pub fn rsa(method: &str, row: &Row<'_>) -> Answer {
    if method == "new" {
        return new_rsa(row);
    }
    let mut provider = row.input::<PreparedRsa>("provider")?;
    let n = row.bytes("n");
    let e = row.bytes("e");
    match method {
        "is_prepared" => {
            row.begin();
            row.give(&provider.is_prepared(n.as_slice(), e.as_slice()))
        }
        _ => add_key(row, &mut provider, n.as_slice(), e.as_slice()),
    }
}

fn zeroize(row: &Row<'_>) -> Answer {
    let mut provider = row.input::<PreparedHmac>("provider")?;
    let asked = row.list("asked");
    row.begin();
    provider.zeroize();
    give_secrets(row, asked, &provider)
}

fn new_hmac(row: &Row<'_>, algorithm: Algorithm, secret: &[u8]) -> Answer {
    let asked = row.list("asked");
    match PreparedHmac::new(row.begin(), algorithm, secret) {
        Ok(provider) => give_secrets(row, asked, &provider),
        Err(refusal) => row.refuse(&refusal),
    }
}

fn of_secret(method: &str, row: &Row<'_>, algorithm: Algorithm, secret: &[u8]) -> Answer {
    let mut provider = row.input::<PreparedHmac>("provider")?;
    match method {
        "is_prepared" => {
            row.begin();
            row.give(&provider.is_prepared(algorithm, secret))
        }
        _ => add_secret(row, &mut provider, algorithm, secret),
    }
}

fn new_rsa(row: &Row<'_>) -> Answer {
    let alloc = row.begin();
    let provider = PreparedRsa::new(alloc);
    row.stop();
    let flags = keys(alloc, row.list("asked"), &provider)?;
    row.give(&flags)
}

fn give_secrets(row: &Row<'_>, asked: &[Value], provider: &PreparedHmac) -> Answer {
    row.stop();
    let flags = secrets(row.alloc(), asked, provider)?;
    row.give(&flags)
}

// Returns which of these secrets the provider has prepared.
fn secrets(alloc: Global, asked: &[Value], provider: &PreparedHmac) -> Option<Vec<bool>> {
    let mut flags = Vec::new(alloc);
    for described in asked {
        let (algorithm, secret) = secret_of(alloc, described)?;
        let is_there = provider.is_prepared(algorithm, secret.as_slice());
        flags.push(is_there).ok()?;
    }
    Some(flags)
}

// Makes a verifier, zeroizes its key and its provider, and asks it in turn.
fn verify_after_zeroize(row: &Row<'_>, algorithm: Algorithm) -> Answer {
    let mut provider = row.input::<PreparedHmac>("provider")?;
    let mut key = row.input::<DecodingKey>("key")?;
    let verifier = provider
        .verifier_factory(row.alloc(), &algorithm, &key)
        .ok()?;
    key.zeroize();
    provider.zeroize();
    verify_each(row, &verifier)
}

fn add_secret(
    row: &Row<'_>,
    provider: &mut PreparedHmac,
    algorithm: Algorithm,
    secret: &[u8],
) -> Answer {
    let asked = row.list("asked");
    let before = secrets(row.alloc(), asked, provider)?;
    let answer = provider.add(row.begin(), algorithm, secret);
    row.stop();
    let after = secrets(row.alloc(), asked, provider)?;
    row.end_change(answer, &before, &after)
}

// Returns which of these keys the provider has prepared.
fn keys(alloc: Global, asked: &[Value], provider: &PreparedRsa) -> Option<Vec<bool>> {
    let mut flags = Vec::new(alloc);
    for described in asked {
        let (n, e) = two_of(alloc, described)?;
        let is_there = provider.is_prepared(n.as_slice(), e.as_slice());
        flags.push(is_there).ok()?;
    }
    Some(flags)
}

fn add_key(row: &Row<'_>, provider: &mut PreparedRsa, n: &[u8], e: &[u8]) -> Answer {
    let asked = row.list("asked");
    let before = keys(row.alloc(), asked, provider)?;
    let answer = provider.add(row.begin(), n, e);
    row.stop();
    let after = keys(row.alloc(), asked, provider)?;
    row.end_change(answer, &before, &after)
}
