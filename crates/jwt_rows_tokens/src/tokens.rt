//! Tokens that are verified or read, and the moments at which they are accepted.

use jsonwebtoken::crypto::CryptoProvider;
use jsonwebtoken::dangerous::{insecure_decode, insecure_decode_claims};
use jsonwebtoken::jwk::JwkSet;
use jsonwebtoken::jws::{self, Jws};
use jsonwebtoken::{
    DecodingKey, KeysOfSet, OneKey, TokenData, Validation, decode, decode_by_family, decode_header,
    decode_or_refusal, decode_with_set, decode_with_set_by_own_algorithm,
    decode_with_set_or_refusal, failed_test, first_and_last_moment, signed_part,
};
use jwt_rows::calls::debug;
use jwt_rows::inputs::jwks::key_set;
use jwt_rows::{Answer, Row};
use serde_json::Value;

/// A token, and the key and the options to verify it with.
#[derive(Drop)]
struct WithKey {
    token: Vec<u8>,
    key: Box<DecodingKey>,
    options: Box<Validation>,
}

/// A token, and the key set and the options to verify it with.
#[derive(Drop)]
struct WithSet {
    token: Vec<u8>,
    set: Box<JwkSet>,
    options: Box<Validation>,
}

/// Makes a call that verifies a token with a key.
pub fn check_by_key<P: CryptoProvider>(call: &str, row: &Row<'_>, provider: &P) -> Answer {
    let given = with_key(row)?;
    let time = row.number("now");
    let (token, key, options) = (given.token.as_slice(), &*given.key, &*given.options);
    let a = row.begin();
    match call {
        "decode" => row.end(decode::<P, Value>(a, provider, token, key, options, time)),
        "decode::<u64>" => row.end(decode::<P, u64>(a, provider, token, key, options, time)),
        "decode_or_refusal" => {
            row.end(decode_or_refusal::<P, Value>(a, provider, token, key, options, time))
        }
        "decode_or_refusal::<u64>" => {
            row.end(decode_or_refusal::<P, u64>(a, provider, token, key, options, time))
        }
        "failed_test" => {
            let keys = OneKey { provider, key };
            row.end(failed_test::<_, Value>(a, &keys, token, options, time))
        }
        _ => {
            let keys = OneKey { provider, key };
            row.end(failed_test::<_, u64>(a, &keys, token, options, time))
        }
    }
}

/// Makes a call that verifies a token with the key of a set.
pub fn check_by_set<P: CryptoProvider>(call: &str, row: &Row<'_>, provider: &P) -> Answer {
    let given = with_set(row)?;
    let time = row.number("now");
    let (token, set, options) = (given.token.as_slice(), &*given.set, &*given.options);
    let a = row.begin();
    match call {
        "decode_with_set" => {
            row.end(decode_with_set::<P, Value>(a, provider, token, set, options, time))
        }
        "decode_with_set_or_refusal" => {
            row.end(decode_with_set_or_refusal::<P, Value>(a, provider, token, set, options, time))
        }
        "decode_by_family" => {
            let keys = KeysOfSet { provider, set };
            row.end(decode_by_family::<_, Value>(a, &keys, token, options, time))
        }
        "decode_with_set_by_own_algorithm" => {
            let (_, decoded) = decode_with_set_by_own_algorithm::<P, Value>(
                a, provider, token, set, options, time,
            );
            row.end(decoded)
        }
        _ => {
            let keys = KeysOfSet { provider, set };
            row.end(failed_test::<_, Value>(a, &keys, token, options, time))
        }
    }
}

/// Makes a call that returns the moments at which a token is accepted with a key.
pub fn moments_by_key<P: CryptoProvider>(call: &str, row: &Row<'_>, provider: &P) -> Answer {
    let given = with_key(row)?;
    let (token, key, options) = (given.token.as_slice(), &*given.key, &*given.options);
    let keys = OneKey { provider, key };
    let alloc = row.begin();
    let answer = match call {
        "first_and_last_moment" => first_and_last_moment::<_, Value>(alloc, &keys, token, options),
        _ => first_and_last_moment::<_, u64>(alloc, &keys, token, options),
    };
    row.end(answer)
}

/// Calls `first_and_last_moment` with the keys of a set.
pub fn moments_by_set<P: CryptoProvider>(row: &Row<'_>, provider: &P) -> Answer {
    let given = with_set(row)?;
    let (token, set, options) = (given.token.as_slice(), &*given.set, &*given.options);
    let keys = KeysOfSet { provider, set };
    row.end(first_and_last_moment::<_, Value>(row.begin(), &keys, token, options))
}

/// Calls `jws::decode`.
pub fn check_parts<P: CryptoProvider>(row: &Row<'_>, provider: &P) -> Answer {
    let token = row.input::<Jws<Value>>("parts")?;
    let key = row.input::<DecodingKey>("key")?;
    let options = row.input::<Validation>("validation")?;
    let time = row.number("now");
    row.end(jws::decode(row.begin(), provider, &token, &key, &options, time))
}

/// Makes a call of `Jws`, a token in parts (RFC 7515 section 7.2.2).
pub fn parts(method: &str, row: &Row<'_>) -> Answer {
    match method {
        "from_value" => {
            let value = row.value("value")?;
            row.end(Jws::<Value>::from_value(row.begin(), value))
        }
        "to_value" => {
            let token = row.input::<Jws<Value>>("parts")?;
            row.end(token.to_value(row.begin()))
        }
        "clone" => {
            let token = row.input::<Jws<Value>>("parts")?;
            row.end(token.clone(row.begin()))
        }
        "debug" => debug::<Jws<Value>>(row, "parts"),
        _ => None,
    }
}

/// Makes a call that reads a token and verifies nothing.
pub fn read_token(call: &str, row: &Row<'_>) -> Answer {
    let token = row.bytes("token");
    let token = token.as_slice();
    let alloc = row.begin();
    match call {
        "decode_header" => row.end(decode_header(alloc, token)),
        "signed_part" => row.end(signed_part(alloc, token)),
        "dangerous::insecure_decode" => row.end(insecure_decode::<Value>(alloc, token)),
        "dangerous::insecure_decode_claims" => {
            row.end(insecure_decode_claims::<Value>(alloc, token))
        }
        _ => row.end(insecure_decode_claims::<u64>(alloc, token)),
    }
}

/// Returns what `Debug` writes of a token's data.
pub fn debug_text(row: &Row<'_>) -> Answer {
    let token = row.bytes("token");
    let data = insecure_decode::<Value>(row.alloc(), token.as_slice()).ok()?;
    let data = Box::new(row.alloc(), data).ok()?;
    give_text(row, &data)
}

fn with_key(row: &Row<'_>) -> Option<WithKey> {
    let key = row.input::<DecodingKey>("key")?;
    let options = row.input::<Validation>("validation")?;
    let token = row.bytes("token");
    Some(WithKey {
        token,
        key,
        options,
    })
}

fn with_set(row: &Row<'_>) -> Option<WithSet> {
    let token = row.bytes("token");
    let set = key_set(row)?;
    let options = row.input::<Validation>("validation")?;
    Some(WithSet {
        token,
        set,
        options,
    })
}

fn give_text(row: &Row<'_>, data: &TokenData<Value>) -> Answer {
    let text = format!(in row.alloc(); "{data:?}").ok()?;
    row.give(&text)
}
