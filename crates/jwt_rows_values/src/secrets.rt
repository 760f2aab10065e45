//! Secrets by which anyone can sign, those that are the text of a key, and keys with them.

use jsonwebtoken::DecodingKey;
use jwt_rows::inputs::jwks::{jwk, key_set};
use jwt_rows::{Answer, Row};
use jwt_secrets::key_texts::{is_key_text, jwk_has_key_text, set_has_key_text};
use jwt_secrets::{has_blank_key, is_blank, is_blank_jwk, is_blank_key};

/// Makes a call about a secret.
pub fn of_secret(call: &str, row: &Row<'_>) -> Answer {
    let secret = row.bytes("secret");
    let alloc = row.begin();
    match call {
        "is_blank" => row.give(&is_blank(secret.as_slice())),
        _ => row.end(is_key_text(alloc, secret.as_slice())),
    }
}

/// Calls `is_blank_key`.
pub fn of_key(row: &Row<'_>) -> Answer {
    let key = row.input::<DecodingKey>("key")?;
    row.begin();
    row.give(&is_blank_key(&key))
}

/// Makes a call about a JSON Web Key.
pub fn of_jwk(call: &str, row: &Row<'_>) -> Answer {
    let jwk = jwk(row)?;
    let alloc = row.begin();
    let answer = match call {
        "is_blank_jwk" => is_blank_jwk(alloc, &jwk),
        _ => jwk_has_key_text(alloc, &jwk),
    };
    row.end(answer)
}

/// Makes a call about a set of JSON Web Keys.
pub fn of_set(call: &str, row: &Row<'_>) -> Answer {
    let set = key_set(row)?;
    let alloc = row.begin();
    let answer = match call {
        "has_blank_key" => has_blank_key(alloc, &set),
        _ => set_has_key_text(alloc, &set),
    };
    row.end(answer)
}
