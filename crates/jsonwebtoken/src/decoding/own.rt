//! Reading tokens by the algorithm that the key of a set is for (RFC 8725 section 3.1).

ghost use Rattle.std.specs.Prelude.{◌≡◌, ◌⊎◌, Option, IsErrAnd};
ghost use Rattle.jwt_base.specs.KindOf.{IsMemory};
ghost use Rattle.jsonwebtoken.specs.Calls.{decoding_by_set, Carries};
ghost use Rattle.jsonwebtoken.specs.Own.{IsNamedBy, named_own, own_of, with_own};
ghost use Rattle.jsonwebtoken.specs.Refused.{DecidesByTest};
ghost use Rattle.jsonwebtoken.specs.Tests.{set_order, token_tests};

use crate::decoding::TokenData;
use crate::decoding::engine::decode_by_own_algorithm;
use crate::decoding::key_set::{KeysOfSet, named_jwk};
use crate::refusal::Refusal;
use jwt_base::algorithms::Algorithm;
use jwt_base::errors::Result;
use jwt_base::json::Claims;
use jwt_header::Header;
use jwt_keys::jwk::Jwk;
use jwt_keys::jwk_set::JwkSet;
use jwt_keys::provider::CryptoProvider;
use jwt_validation::Validation;
use std::alloc::Global;

/// Returns the algorithm of signatures that a key is for, by its `alg` (RFC 7517 section 4.4).
pub fn own_algorithm(jwk: &Jwk) -> Option<Algorithm>
    ensures { result ≡ own_of jwk.now }
{
    match jwk.common.key_algorithm {
        Some(named) => Algorithm::try_from(named).ok(),
        None => None,
    }
}

/// Returns the algorithm that the key of a set which a header names is for.
pub fn named_algorithm(set: &JwkSet, header: &Header) -> Option<Algorithm>
    ensures { result ≡ named_own set.now.keys.items header.now }
{
    match named_jwk(set, header) {
        Some(jwk) => own_algorithm(jwk),
        None => None,
    }
}

/// Verifies a token like [`decode_with_set_or_refusal`](crate::decode_with_set_or_refusal), with the
/// algorithm of its key alone (RFC 8725 section 3.1), and returns that algorithm and the result.
///
/// The key is the one of the set that the token's header names, and its own `alg` is accepted
/// instead of the algorithms of `validation`. If it has none, or there is no such key, no algorithm
/// is accepted. If memory runs out before the header is read, no algorithm is returned.
pub fn decode_with_set_by_own_algorithm<P: CryptoProvider, T: Claims>(
    alloc: Global,
    provider: &P,
    token: &[u8],
    set: &JwkSet,
    validation: &Validation,
    time: u64,
) -> (Option<Algorithm>, Result<TokenData<T>, Refusal>)
    // The algorithm is never that of the token, whose header is not verified.
    ensures own { IsNamedBy set.now.keys.items token.now result.0
        ⊎ ((result.0 ≡ None) × IsErrAnd result.1 (λ refusal. IsMemory refusal.error)) }

    // The result is that of `decode_with_set_or_refusal` with just this algorithm.
    ensures decided { let call = with_own (decoding_by_set P.CryptoProvider T.Claims
        provider.now token.now set.now.keys.items validation.now time) result.0 in
        DecidesByTest (token_tests call) set_order (Carries call) result.1 }
{
    let keys = KeysOfSet { provider, set };
    decode_by_own_algorithm(alloc, &keys, token, validation, time)
}
