//! Reading tokens in their compact form (RFC 7515 section 7.1).

ghost use Rattle.std.specs.Prelude.{◌≡◌, ℕ, List, IfOk};
ghost use Rattle.jwt_base.specs.Algorithm.{family_of};
ghost use Rattle.jwt_keys.specs.Key.{key_family};
ghost use Rattle.jsonwebtoken.specs.Calls.{decoding, Carries, HasHeader};
ghost use Rattle.jsonwebtoken.specs.Laws.{HasLaws};
ghost use Rattle.jsonwebtoken.specs.Order.{Decides};
ghost use Rattle.jsonwebtoken.specs.Refused.{DecidesByTest};
ghost use Rattle.jsonwebtoken.specs.private_clauses.Steps.{IsBeside};
ghost use Rattle.jsonwebtoken.specs.Tests.{Compact, header_order, decode_order, header_call};
ghost use Rattle.jsonwebtoken.specs.Tests.{token_tests};

// These are the modules of `decode`: no module may have the name of a function next to it.
pub(crate) mod crit;
pub(crate) mod engine;
pub(crate) mod finder;
pub(crate) mod key_set;
pub(crate) mod one_key;
pub(crate) mod own;
pub(crate) mod parts;
pub(crate) mod steps;

pub use crate::decoding::engine::{
    decode_by, decode_by_family, decode_by_or_refusal, decode_by_own_algorithm,
};
pub use crate::decoding::finder::KeyFinder;
pub use crate::decoding::key_set::{KeysOfSet, decode_with_set, decode_with_set_or_refusal};
pub use crate::decoding::one_key::OneKey;
pub use crate::decoding::own::decode_with_set_by_own_algorithm;
use crate::decoding::steps::{read_header_noting, token_parts};
use crate::refusal::{Refusal, Test};
use jwt_base::errors::Result;
use jwt_base::json::Claims;
use jwt_header::Header;
use jwt_keys::decoding_key::DecodingKey;
use jwt_keys::provider::CryptoProvider;
use jwt_validation::Validation;
use std::alloc::Global;

/// The contents of a token.
#[derive(Debug, Drop)]
pub struct TokenData<T> {
    /// The header.
    pub header: Header,
    /// The claims.
    pub claims: T,
}

/// Verifies a token like [`decode`]; a refusal has the first test that fails, and its error. If
/// memory ran out, the refusal's error is `OutOfMemory`.
///
/// Whoever issued a refused token need not be told which test failed: the answer is for those who
/// run the verifier.
pub fn decode_or_refusal<P: CryptoProvider, T: Claims>(
    alloc: Global,
    provider: &P,
    token: &[u8],
    key: &DecodingKey,
    validation: &Validation,
    time: u64,
) -> Result<TokenData<T>, Refusal>
    ensures { let call = decoding P.CryptoProvider T.Claims
        provider.now token.now key.now validation.now time in
        DecidesByTest (token_tests call) decode_order (Carries call) result }
{
    let keys = OneKey { provider, key };
    decode_by_or_refusal(alloc, &keys, token, validation, time)
}

/// Verifies a token in its compact form with the key, at the time `time`, in whole seconds since
/// 1970-01-01 00:00:00 UTC, and returns its header and its claims.
///
/// These tests are made in this order, and a refused token has the kind of the first that fails:
///
/// - the text has at least two dots, of which the last two cut it in three parts, else
///   `InvalidToken`;
/// - the header part is canonical base64url (RFC 7515 section 2), else `Base64`;
/// - its bytes are JSON that reads as a header, else `Json`;
/// - the header's `crit`, if there is one, is understood (RFC 7515 section 4.1.11), else
///   `InvalidCrit`;
/// - `validation` lists an algorithm, else `MissingAlgorithm`, and the header's, else
///   `InvalidAlgorithm`;
/// - the provider makes a verifier for that algorithm and the key, else the provider's kind;
/// - every listed algorithm is of the same family, else `InvalidAlgorithm`;
/// - the signature part is canonical base64url, else `Base64`;
/// - the verifier accepts its bytes over the header part, the dot and the payload part, else
///   `InvalidSignature`;
/// - the payload part is canonical base64url, else `Base64`, and its bytes are JSON, else `Json`;
/// - that value reads as `T`, and is an object, else `Json`;
/// - the claim rules of [`validate`](crate::validate) hold, else their kind.
///
/// ```rust
/// let key = DecodingKey::from_secret(alloc, b"secret")?;
/// let mut validation = Validation::new(alloc, Algorithm::HS256)?;
/// validation.set_audience(alloc, &["my-service"])?;
/// let data: TokenData<Value> = decode(alloc, &HmacProvider, token, &key, &validation, time)?;
/// ```
pub fn decode<P: CryptoProvider, T: Claims>(
    alloc: Global,
    provider: &P,
    token: &[u8],
    key: &DecodingKey,
    validation: &Validation,
    time: u64,
) -> Result<TokenData<T>>
    ensures decided { let call = decoding P.CryptoProvider T.Claims
        provider.now token.now key.now validation.now time in
        Decides (token_tests call) decode_order (Carries call) result }

    // The key is of the family of the header's algorithm.
    ensures family { IfOk result (λ r. key_family key.now ≡ family_of r.header.alg) }

    // A token is accepted exactly at the times
    // from the first to the last, and under every looser validation too, with the same header and
    // claims. If the provider accepts at most one signature of each message, the header's and the
    // payload's bytes fix the token.
    ensures laws { HasLaws
        (decoding P.CryptoProvider T.Claims provider.now token.now key.now validation.now time)
        decode_order (List ℕ) Compact token.now }
{
    let keys = OneKey { provider, key };
    decode_by(alloc, &keys, token, validation, time)
}

/// Returns the header of a token in its compact form. Nothing is verified: neither the payload nor
/// the signature is read, except to find the dots before them.
///
/// The tests are the first three of [`decode`], in the same order.
pub fn decode_header(alloc: Global, token: &[u8]) -> Result<Header>
    ensures { Decides (token_tests (header_call token.now)) header_order
        (HasHeader (header_call token.now)) result }
{
    let parts = match token_parts(token) {
        Ok(parts) => parts,
        Err(refusal) => return Err(refusal.error),
    };
    let mut failed = Test::HasThreeParts;
    // named for the proof
    let header = read_header_noting(alloc, parts.header, &mut failed)?;
    Ok(header)
}

/// Returns the header with the claims that were read after it, or their refusal.
// Here the drop of a header at a refusal is proved once. The calls that verify a token in its compact
// form put both together themselves: this would move the header once more, 200 ns a token.
#[inline(always)]
pub(crate) fn token_data<T: Drop>(
    header: Header,
    claims: Result<T, Refusal>,
) -> Result<TokenData<T>, Refusal>
    ensures { IsBeside header claims result }
{
    match claims {
        Ok(claims) => Ok(TokenData { header, claims }),
        Err(refusal) => {
            // one drop
            drop(header);
            Err(refusal)
        }
    }
}
