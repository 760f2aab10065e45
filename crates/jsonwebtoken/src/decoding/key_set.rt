//! Reading tokens by the key that their header names in a set (RFC 7515 section 4.1.4, RFC 7517
//! section 5).

ghost use Rattle.std.specs.Prelude.{◌≡◌, ℕ, List, option_map};
ghost use Rattle.jwt_base.specs.Kind as kind;
ghost use Rattle.jwt_keys.specs.Key.{Key};
ghost use Rattle.jwt_keys.specs.KeyOfJwk.{IsKeyOf, refusal_of};
ghost use Rattle.jwt_keys.specs.declared.jwk.Jwk.{Jwk as JwkValue};
ghost use Rattle.jsonwebtoken.specs.Calls.{decoding_by_set, Carries};
ghost use Rattle.jsonwebtoken.specs.Finder.{FindsKey};
ghost use Rattle.jsonwebtoken.specs.Laws.{HasLaws, KeepsWithMore};
ghost use Rattle.jsonwebtoken.specs.Order.{Decides};
ghost use Rattle.jsonwebtoken.specs.Refused.{DecidesByTest};
ghost use Rattle.jsonwebtoken.specs.Steps.{Asks, Finds};
ghost use Rattle.jsonwebtoken.specs.Tests.{Compact, InSet, named_key, AgreesWith};
ghost use Rattle.jsonwebtoken.specs.Tests.{KeyAlgMatches, KeyIsUsable};
ghost use Rattle.jsonwebtoken.specs.Tests.{set_order, token_tests};

use crate::decoding::TokenData;
use crate::decoding::engine::{decode_by, decode_by_or_refusal};
use crate::decoding::finder::KeyFinder;
use crate::decoding::own::named_algorithm;
use crate::refusal::{Refusal, Test, with_test};
use jwt_base::algorithms::{Algorithm, AlgorithmFamily, KeyAlgorithm};
use jwt_base::errors::{ErrorKind, Result};
use jwt_base::json::Claims;
use jwt_header::Header;
use jwt_keys::decoding_key::DecodingKey;
use jwt_keys::jwk::Jwk;
use jwt_keys::jwk_set::JwkSet;
use jwt_keys::provider::CryptoProvider;
use jwt_validation::Validation;
use std::alloc::Global;

/// Verifies a token like [`decode_with_set`]; a refusal has the first test that fails, and its
/// error. If memory ran out, the refusal's error is `OutOfMemory`.
pub fn decode_with_set_or_refusal<P: CryptoProvider, T: Claims>(
    alloc: Global,
    provider: &P,
    token: &[u8],
    set: &JwkSet,
    validation: &Validation,
    time: u64,
) -> Result<TokenData<T>, Refusal>
    ensures { let call = decoding_by_set P.CryptoProvider T.Claims
        provider.now token.now set.now.keys.items validation.now time in
        DecidesByTest (token_tests call) set_order (Carries call) result }
{
    let keys = KeysOfSet { provider, set };
    decode_by_or_refusal(alloc, &keys, token, validation, time)
}

/// Verifies a token in its compact form with the key of the set that its header names, at the
/// time `time`, in whole seconds since 1970-01-01 00:00:00 UTC, and returns its header and its
/// claims.
///
/// The tests are those of [`decode`](crate::decode), in the same order, and three more of the key,
/// which stand after that of `crit` and before those of the algorithms:
///
/// - the header has a `kid`, and a key of the set has it too, else `NoKey`; of several keys with
///   that `kid` the first alone counts;
/// - that key has no `alg`, or the header's (RFC 7517 section 4.4), else `InvalidAlgorithm`;
/// - [`DecodingKey::from_jwk`](jwt_keys::decoding_key::DecodingKey::from_jwk) makes a key of it,
///   else its kind.
///
/// ```rust
/// let set = JwkSet::from_slice(alloc, set)?;
/// // ..
/// let provider = &StandardProvider;
/// let data: TokenData<Value> = decode_with_set(alloc, provider, token, &set, &validation, time)?;
/// ```
pub fn decode_with_set<P: CryptoProvider, T: Claims>(
    alloc: Global,
    provider: &P,
    token: &[u8],
    set: &JwkSet,
    validation: &Validation,
    time: u64,
) -> Result<TokenData<T>>
    ensures decided { let call = decoding_by_set P.CryptoProvider T.Claims
        provider.now token.now set.now.keys.items validation.now time in
        Decides (token_tests call) set_order (Carries call) result }

    // The key is of the family of the header's algorithm. A token is accepted exactly at the times
    // from the first to the last, and under every looser validation too, with the same header and
    // claims. If the provider accepts at most one signature of each message, the header's and the
    // payload's bytes fix the token.
    ensures laws { HasLaws
        (decoding_by_set P.CryptoProvider T.Claims provider.now token.now set.now.keys.items
        validation.now time)
        set_order (List ℕ) Compact token.now }

    // A token that it accepts is accepted with more keys after those of the set, with the same
    // header and claims.
    ensures more_keys { KeepsWithMore
        (decoding_by_set P.CryptoProvider T.Claims provider.now token.now set.now.keys.items
        validation.now time)
        set_order set.now.keys.items }
{
    let keys = KeysOfSet { provider, set };
    decode_by(alloc, &keys, token, validation, time)
}

/// A set of keys, of which the header of a token names one, and the provider that verifies with it:
/// [`decode_by`](crate::decode_by) over it is [`decode_with_set`](crate::decode_with_set).
#[derive(Drop)]
pub struct KeysOfSet<'k, P> {
    pub provider: &'k P,
    pub set: &'k JwkSet,
}

impl<'k, P: CryptoProvider> KeyFinder for KeysOfSet<'k, P> {
    type Found = DecodingKey;

    type Verifier = P::Verifier;

    ghost source = { λ keys. InSet keys.set.now.keys.items };

    ghost key = { λ _ found. found };

    ghost refusal = { λ keys. P.verifier_refusal keys.provider.now };

    ghost accepts = { λ keys. P.accepts keys.provider.now };

    fn find(&self, alloc: Global, header: &Header) -> Result<DecodingKey, Refusal> {
        key_in_set(alloc, self.set, header)
    }

    fn own_algorithm(&self, header: &Header) -> Option<Algorithm> {
        named_algorithm(self.set, header)
    }

    fn family(&self, found: &DecodingKey) -> AlgorithmFamily {
        found.family()
    }

    fn verifier(
        &self,
        alloc: Global,
        algorithm: Algorithm,
        found: &DecodingKey,
    ) -> Result<P::Verifier> {
        self.provider.verifier_factory(alloc, &algorithm, found)
    }

    ghost same_family = { λ keys a k made. P.same_family keys.provider.now a k made };
}

/// Returns the key that the header names.
fn key_in_set(alloc: Global, set: &JwkSet, header: &Header) -> Result<DecodingKey, Refusal>
    ensures { FindsKey (InSet set.now.keys.items) (λ key. key) header.now result }
{
    key_for(alloc, named_jwk(set, header), header)
}

/// Returns the first key of the set with the header's `kid`, or `None` if the header has none, or no
/// key has it.
pub(crate) fn named_jwk<'k>(set: &'k JwkSet, header: &Header) -> Option<&'k Jwk>
    ensures { named_key set.now.keys.items header.now ≡ option_map (λ k. k.now) result }
{
    let Some(kid) = &header.kid else {
        return None;
    };
    set.find(kid.as_str())
}

/// Returns the key of the token with this header, given the JSON Web Key that it names in a set, if it
/// names one: for a [`KeyFinder`] whose keys are kept elsewhere. A refusal has the first test of the
/// key that fails: `KeyIsFound` with `NoKey`, `KeyAlgMatches` with `InvalidAlgorithm`, or
/// `KeyIsUsable` with the kind of [`DecodingKey::from_jwk`]. If memory ran out, its error is
/// `OutOfMemory`.
pub fn key_for(alloc: Global, named: Option<&Jwk>, header: &Header) -> Result<DecodingKey, Refusal>
    ensures { (keys : List JwkValue)
        → named_key keys header.now ≡ option_map (λ k. k.now) named.entry
        → FindsKey (InSet keys) (λ key. key) header.now result }
{
    let Some(jwk) = named else {
        return Err(Refusal::new(Test::KeyIsFound, ErrorKind::NoKey));
    };
    check_key_algorithm(jwk, header.alg)?;
    let key = key_of_jwk(alloc, jwk)?;
    Ok(key)
}

/// Refuses with `InvalidAlgorithm` a key that is for another algorithm (RFC 7517 section 4.4).
pub fn check_key_algorithm(jwk: &Jwk, algorithm: Algorithm) -> Result<(), Refusal>
    ensures { Asks KeyAlgMatches (AgreesWith algorithm jwk.now)
        (λ k. k ≡ kind.InvalidAlgorithm) result }
{
    match jwk.common.key_algorithm {
        Some(named) if named != KeyAlgorithm::from(algorithm) => Err(Refusal::new(
            Test::KeyAlgMatches,
            ErrorKind::InvalidAlgorithm,
        )),
        _ => Ok(()),
    }
}

/// Returns the key that a JSON Web Key stands for.
pub fn key_of_jwk(alloc: Global, jwk: &Jwk) -> Result<DecodingKey, Refusal>
    ensures { Finds KeyIsUsable (IsKeyOf jwk.now.algorithm)
        ((k : Key) → ¬ IsKeyOf jwk.now.algorithm k) (λ k. k ≡ refusal_of jwk.now.algorithm) result }
{
    with_test(Test::KeyIsUsable, DecodingKey::from_jwk(alloc, jwk))
}
