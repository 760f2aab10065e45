//! Round trips at small and large sizes. A row gives the way (`way`), the thing that has the size
//! (`of`), and the first and the last size (`from_size`, `to_size`) that is tried. The result is
//! null, or the first size at which the token does not come back, or at which a key of another
//! secret accepts it.

mod token;

use jsonwebtoken::crypto::CryptoProvider;
use jsonwebtoken::crypto::hmac::{HmacProvider, PreparedHmac};
use jsonwebtoken::errors::{ErrorKind, Result as Outcome};
use jsonwebtoken::jwk::{Jwk, JwkSet, ThumbprintHash};
use jsonwebtoken::jws::{self, Jws};
use jsonwebtoken::{
    Algorithm, DecodingKey, EncodingKey, TokenData, Validation, decode, decode_header,
    decode_with_set, encode,
};
use jwt_base::json::value_eq;
use jwt_rows::{Answer, Row};
use serde_json::Value;
use std::alloc::Global;
use token::{Token, named_token, with_header, with_lists, with_text};

/// Makes the call `sizes`.
pub fn answer(row: &Row<'_>) -> Answer {
    let alloc = row.alloc();
    let (way, of) = (row.text("way"), row.text("of"));
    let last = row.number("to_size");
    for size in row.number("from_size")..last.saturating_add(1) {
        if !is_well(alloc, way, of, usize::try_from(size).ok()?)? {
            return row.give(&size);
        }
    }
    row.give(&())
}

// Returns whether the round trip succeeds at a size, or none if there is no such way or thing.
fn is_well(alloc: Global, way: &str, of: &str, size: usize) -> Option<bool> {
    let answer = match way {
        "decode_with_set" => comes_back_by_set(alloc, size),
        "Jwk::thumbprint" => has_thumbprint(alloc, size),
        _ => {
            let token = token_of(alloc, of, size)?;
            match way {
                "encode, decode" => comes_back(alloc, &HmacProvider, &token),
                "jws::encode, jws::decode" => comes_back_in_parts(alloc, &token),
                "PreparedHmac::new, encode, decode" => comes_back_prepared(alloc, &token),
                _ => return None,
            }
        }
    };
    Some(matches!(answer, Ok(true)))
}

fn token_of(alloc: Global, of: &str, size: usize) -> Option<Box<Token>> {
    let token = match of {
        "a text and a secret" => with_text(alloc, size),
        "a header" => with_header(alloc, size),
        "lists in lists" => with_lists(alloc, size),
        _ => return None,
    };
    token.ok()
}

// Returns whether the issued token reads as its header and claims, and is refused under another
// key.
fn comes_back<P: CryptoProvider>(alloc: Global, provider: &P, token: &Token) -> Outcome<bool> {
    let secret = token.secret.as_bytes();
    let key = EncodingKey::from_secret(alloc, secret)?;
    let text = encode(alloc, provider, &token.header, &token.claims, &key)?;
    let text = text.as_bytes();
    Ok(
        header_comes_back(alloc, text, token)
            && is_read(alloc, provider, text, token)
            && is_refused(alloc, provider, text),
    )
}

fn header_comes_back(alloc: Global, text: &[u8], token: &Token) -> bool {
    match decode_header(alloc, text) {
        Ok(header) => {
            let is_back = header == token.header;
            // one drop
            drop(header);
            is_back
        }
        Err(_refusal) => false,
    }
}

fn is_read<P: CryptoProvider>(alloc: Global, provider: &P, text: &[u8], token: &Token) -> bool {
    is_back(
        read_back(alloc, provider, text, token.secret.as_bytes()),
        token,
    )
}

fn is_refused<P: CryptoProvider>(alloc: Global, provider: &P, text: &[u8]) -> bool {
    is_forged(read_back(alloc, provider, text, b"secret"))
}

fn read_back<P: CryptoProvider>(
    alloc: Global,
    provider: &P,
    text: &[u8],
    secret: &[u8],
) -> Outcome<TokenData<Value>> {
    let key = DecodingKey::from_secret(alloc, secret)?;
    let options = Box::new(alloc, Validation::new(alloc, Algorithm::HS256)?)?;
    decode(alloc, provider, text, &key, &options, 0)
}

fn is_back(answer: Outcome<TokenData<Value>>, token: &Token) -> bool {
    match answer {
        Ok(data) => {
            let is_back = value_eq(&data.claims, &token.claims) && data.header == token.header;
            drop(data);
            is_back
        }
        Err(_refusal) => false,
    }
}

fn is_forged(answer: Outcome<TokenData<Value>>) -> bool {
    match answer {
        Ok(data) => {
            drop(data);
            false
        }
        Err(refusal) => *refusal.kind() == ErrorKind::InvalidSignature,
    }
}

// Returns the same by a provider that has the secret prepared.
fn comes_back_prepared(alloc: Global, token: &Token) -> Outcome<bool> {
    let provider = PreparedHmac::new(alloc, Algorithm::HS256, token.secret.as_bytes())?;
    comes_back(alloc, &*Box::new(alloc, provider)?, token)
}

// Returns the same for a token in parts.
fn comes_back_in_parts(alloc: Global, token: &Token) -> Outcome<bool> {
    let secret = token.secret.as_bytes();
    let key = EncodingKey::from_secret(alloc, secret)?;
    let claims = Some(&token.claims);
    let parts: Jws<Value> = jws::encode(alloc, &HmacProvider, &token.header, claims, &key)?;
    Ok(are_read(alloc, &parts, token) && are_refused(alloc, &parts))
}

fn are_read(alloc: Global, parts: &Jws<Value>, token: &Token) -> bool {
    is_back(read_parts(alloc, parts, token.secret.as_bytes()), token)
}

fn are_refused(alloc: Global, parts: &Jws<Value>) -> bool {
    is_forged(read_parts(alloc, parts, b"secret"))
}

fn read_parts(alloc: Global, parts: &Jws<Value>, secret: &[u8]) -> Outcome<TokenData<Value>> {
    let key = DecodingKey::from_secret(alloc, secret)?;
    let options = Box::new(alloc, Validation::new(alloc, Algorithm::HS256)?)?;
    jws::decode(alloc, &HmacProvider, parts, &key, &options, 0)
}

// Returns whether a token is verified by the last key of a set, after this many others.
fn comes_back_by_set(alloc: Global, count: usize) -> Outcome<bool> {
    let token = named_token(alloc)?;
    let key = EncodingKey::from_secret(alloc, token.secret.as_bytes())?;
    let text = encode(alloc, &HmacProvider, &token.header, &token.claims, &key)?;
    Ok(is_read_by_set(alloc, text.as_bytes(), count, &token))
}

fn is_read_by_set(alloc: Global, text: &[u8], count: usize, token: &Token) -> bool {
    is_back(read_by_set(alloc, text, count), token)
}

fn read_by_set(alloc: Global, text: &[u8], count: usize) -> Outcome<TokenData<Value>> {
    let set = key_set(alloc, count)?;
    let options = Box::new(alloc, Validation::new(alloc, Algorithm::HS256)?)?;
    decode_with_set(alloc, &HmacProvider, text, &set, &options, 0)
}

// Returns a set of this many keys, and a last one.
fn key_set(alloc: Global, count: usize) -> Outcome<Box<JwkSet>> {
    let mut text = String::from_str(alloc, "{\"keys\":[")?;
    for at in 0..count {
        let key = format!(in alloc; "{{\"kty\":\"oct\",\"k\":\"YWE\",\"kid\":\"{at}\"}},")?;
        text.push_str(key.as_str())?;
    }
    text.push_str("{\"kty\":\"oct\",\"k\":\"YW5vdGhlcg\",\"kid\":\"last\"}]}")?;
    Ok(Box::new(alloc, JwkSet::from_slice(alloc, text.as_bytes())?)?)
}

// Returns whether a key whose secret has this many characters has a thumbprint.
fn has_thumbprint(alloc: Global, size: usize) -> Outcome<bool> {
    let secret = token::repeat(alloc, 'a', size)?;
    let text = format!(in alloc; "{{\"kty\":\"oct\",\"k\":\"{secret}\"}}")?;
    let key = Box::new(alloc, Jwk::from_slice(alloc, text.as_bytes())?)?;
    let thumbprint = key.thumbprint(alloc, &HmacProvider, ThumbprintHash::SHA256)?;
    Ok(thumbprint.len() == 43)
}
