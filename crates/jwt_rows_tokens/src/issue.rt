//! Tokens that are issued, and signatures as base64url strings.

use jsonwebtoken::crypto::{CryptoProvider, sign, verify};
use jsonwebtoken::{DecodingKey, EncodingKey, Header, encode, jws};
use jwt_rows::{Answer, Row};
use serde_json::Value;

/// Makes a call that issues a token.
pub fn encode_claims<P: CryptoProvider>(call: &str, row: &Row<'_>, provider: &P) -> Answer {
    let header = row.input::<Header>("header")?;
    let key = row.input::<EncodingKey>("key")?;
    if call == "encode" {
        let claims = row.json("claims", "claims_json");
        let alloc = row.begin();
        return row.end(encode(alloc, provider, &header, &claims, &key));
    }
    let claims = optional_claims(row)?;
    row.end(jws::encode(row.begin(), provider, &header, claims.as_ref(), &key))
}

/// Calls `sign`.
pub fn sign_message<P: CryptoProvider>(row: &Row<'_>, provider: &P) -> Answer {
    let algorithm = row.algorithm("algorithm");
    let key = row.input::<EncodingKey>("key")?;
    let message = row.bytes("message");
    row.end(sign(row.begin(), provider, message.as_slice(), &key, algorithm))
}

/// Calls `verify`.
pub fn verify_message<P: CryptoProvider>(row: &Row<'_>, provider: &P) -> Answer {
    let algorithm = row.algorithm("algorithm");
    let key = row.input::<DecodingKey>("key")?;
    let signature = row.text("signature");
    let message = row.bytes("message");
    let message = message.as_slice();
    row.end(verify(row.begin(), provider, signature, message, &key, algorithm))
}

// Returns the claims, if the row has them.
fn optional_claims(row: &Row<'_>) -> Option<Option<Value>> {
    if row.value("claims").is_none() && row.value("claims_json").is_none() {
        return Some(None);
    }
    Some(Some(row.json("claims", "claims_json")))
}
