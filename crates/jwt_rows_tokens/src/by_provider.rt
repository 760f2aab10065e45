//! Calls that are given a provider of signatures: the one that the row describes.

use crate::{issue, jwks, providers, tokens};
use jsonwebtoken::crypto::CryptoProvider;
use jsonwebtoken::crypto::hmac::{HmacProvider, PreparedHmac};
use jwt_rows::{Answer, Input, Row};
use jwt_rsa::{PreparedRsa, RsaProvider};
use jwt_standard::StandardProvider;
use jwt_test_providers::providers::{NoProvider, TableProvider, YesProvider};
use serde_json::Value;

/// Makes the call of this name, if it is among those that are given a provider.
pub fn answer(call: &str, row: &Row<'_>) -> Answer {
    let Some(described) = row.value("provider") else {
        return answer_by(call, row, &HmacProvider);
    };
    match described {
        Value::String(name) => by_name(name.as_str(), call, row),
        _ if described.get("prepared").is_some() => by_described::<PreparedHmac>(call, row),
        _ if described.get("table").is_some() => by_described::<TableProvider>(call, row),
        _ => {
            let provider = row.input::<PreparedRsa>("provider")?;
            answer_by(call, row, &&*provider)
        }
    }
}

fn by_name(name: &str, call: &str, row: &Row<'_>) -> Answer {
    match name {
        "StandardProvider" => answer_by(call, row, &StandardProvider),
        "RsaProvider" => answer_by(call, row, &RsaProvider),
        "YesProvider" => answer_by(call, row, &YesProvider),
        "NoProvider" => answer_by(call, row, &NoProvider),
        _ => None,
    }
}

fn by_described<P: CryptoProvider + Input>(call: &str, row: &Row<'_>) -> Answer {
    let provider = row.input::<P>("provider")?;
    answer_by(call, row, &*provider)
}

fn answer_by<P: CryptoProvider>(call: &str, row: &Row<'_>, provider: &P) -> Answer {
    match call {
        "decode"
        | "decode::<u64>"
        | "decode_or_refusal"
        | "decode_or_refusal::<u64>"
        | "failed_test"
        | "failed_test::<u64>" => tokens::check_by_key(call, row, provider),
        "decode_with_set"
        | "decode_with_set_or_refusal"
        | "decode_with_set_by_own_algorithm"
        | "decode_by_family"
        | "failed_test, set" => tokens::check_by_set(call, row, provider),
        "first_and_last_moment" | "first_and_last_moment::<u64>" => {
            tokens::moments_by_key(call, row, provider)
        }
        "first_and_last_moment, set" => tokens::moments_by_set(row, provider),
        "jws::decode" => tokens::check_parts(row, provider),
        "encode" | "jws::encode" => issue::encode_claims(call, row, provider),
        "sign" => issue::sign_message(row, provider),
        "verify" => issue::verify_message(row, provider),
        "Jwk::thumbprint" => jwks::thumbprint(row, provider),
        "Jwk::from_encoding_key" => jwks::of_encoding_key(row, provider),
        "Jwk::from_decoding_key" => jwks::of_decoding_key(row, provider),
        _ => answer_of(call, row, provider),
    }
}

// Makes a call of the provider itself, or of its signers and verifiers.
fn answer_of<P: CryptoProvider>(call: &str, row: &Row<'_>, provider: &P) -> Answer {
    match call {
        "CryptoProvider::signer_factory" | "JwtSigner::sign" | "JwtSigner::algorithm" => {
            providers::by_signer(call, row, provider)
        }
        "CryptoProvider::verifier_factory"
        | "JwtVerifier::verify"
        | "JwtVerifier::verify, each"
        | "JwtVerifier::algorithm" => { providers::by_verifier(call, row, provider) }
        "CryptoProvider::compute_digest" => providers::digest(row, provider),
        _ => match call.strip_prefix("CryptoProvider::") {
            Some(method) => providers::of_der(method, row, provider),
            None => None,
        },
    }
}
