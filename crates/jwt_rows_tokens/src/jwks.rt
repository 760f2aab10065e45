//! The JSON Web Keys of keys, and their thumbprints (RFC 7638).

use jsonwebtoken::crypto::CryptoProvider;
use jsonwebtoken::jwk::{Jwk, ThumbprintHash};
use jsonwebtoken::{Algorithm, DecodingKey, EncodingKey};
use jwt_rows::inputs::jwks::jwk;
use jwt_rows::output::JwkValue;
use jwt_rows::{Answer, Row};

/// Calls `thumbprint`.
pub fn thumbprint<P: CryptoProvider>(row: &Row<'_>, provider: &P) -> Answer {
    let hash = row.read::<ThumbprintHash>("hash")?;
    let jwk = jwk(row)?;
    row.end(jwk.thumbprint(row.begin(), provider, hash))
}

/// Calls `from_encoding_key`.
pub fn of_encoding_key<P: CryptoProvider>(row: &Row<'_>, provider: &P) -> Answer {
    let algorithm = row.algorithm("algorithm");
    let key = row.input::<EncodingKey>("key")?;
    row.end(Jwk::from_encoding_key(row.begin(), provider, &key, algorithm).map(JwkValue))
}

/// Calls `from_decoding_key`.
pub fn of_decoding_key<P: CryptoProvider>(row: &Row<'_>, provider: &P) -> Answer {
    let key = row.input::<DecodingKey>("key")?;
    let algorithm = optional_algorithm(row)?;
    row.end(Jwk::from_decoding_key(row.begin(), provider, &key, algorithm).map(JwkValue))
}

// Returns the algorithm that the row names, if it names one.
fn optional_algorithm(row: &Row<'_>) -> Option<Option<Algorithm>> {
    if row.value("algorithm").is_none() {
        return Some(None);
    }
    Some(Some(row.algorithm("algorithm")))
}
