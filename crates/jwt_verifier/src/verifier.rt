//! Verifying many tokens with the same keys and options.

// `VerifierRefusal` is an error of its own, since a token that is too long fails no test of `decode`.

ghost use Rattle.std.specs.Prelude.{◌≡◌, ◌↔◌, ◌<◌, ◌≤◌, ℕ, List, Option, length, IfOk, IfErr};
ghost use Rattle.std.specs.Prelude.{IsTrue};
ghost use Rattle.jwt_base.specs.declared.algorithms.AlgorithmFamily.{AlgorithmFamily as Family};
ghost use Rattle.jsonwebtoken.specs.Calls.{Carries};
ghost use Rattle.jsonwebtoken.specs.Family.{AreOfOneFamily, ByFamily, with_family};
ghost use Rattle.jsonwebtoken.specs.Laws.{HasLaws};
ghost use Rattle.jsonwebtoken.specs.Order.{Decides};
ghost use Rattle.jsonwebtoken.specs.Refused.{DecidesByTest};
ghost use Rattle.jsonwebtoken.specs.Tests.{Compact, token_tests};
ghost use Rattle.jwt_verifier.specs.Fitness.{usual_limits, AreFit, IsKeyProblem};
ghost use Rattle.jwt_verifier.specs.Verifying.{call_with, order_of, IsBounded};

use crate::fitness::{KeyProblem, check_keys};
use crate::key_ring::KeyRing;
use crate::keys::Keys;
use crate::limits::Limits;
use jsonwebtoken::errors::Error;
use jsonwebtoken::json::Claims;
use jsonwebtoken::{Algorithm, Refusal, TokenData, Validation, decode_by_family};
use std::alloc::Global;
use std::result::Result;

/// The reason for which a verifier does not accept a token.
#[derive(Debug, Drop)]
pub enum VerifierRefusal<E> {
    /// The token is longer than the verifier allows.
    TooLong,
    /// A test of the token failed, or memory ran out.
    Failed(E),
}

/// Keys and options, which are prepared once and decide many tokens, with all twelve algorithms. The
/// options may list algorithms of several families: the token's key decides which of them count.
#[derive(Drop)]
pub struct Verifier {
    pub keys: KeyRing,
    pub validation: Validation,
    pub limits: Limits,
}

impl Verifier {
    /// Returns the verifier with these keys and options, for tokens of up to 1 MiB.
    ///
    /// Errors: `AllZero` for an empty or all-zero secret (RFC 2104 section 2), then `NoUsableKey` if no
    /// key fits an algorithm of the options: keys of other families, an RSA modulus of a length that
    /// is not allowed, a point that is not on the curve, a set whose other keys have no `kid` or
    /// another `alg`. If one key of a set is usable and others are not, a token that names one of the
    /// others is refused.
    pub fn new(alloc: Global, keys: Keys, validation: Validation) -> Result<Verifier, KeyProblem>
        ensures ok { IfOk result (λ v. (v.keys.keys ≡ keys) × (v.validation ≡ validation)
            × (v.limits ≡ usual_limits) × (v.keys.prepared ≤ usual_limits.max_prepared)
            × AreFit usual_limits.allows_blank validation.algorithms.items keys) }
        ensures err { IfErr result (IsKeyProblem usual_limits.allows_blank
            validation.algorithms.items keys) }
    {
        Verifier::with_limits(alloc, keys, validation, Limits::new())
    }

    /// Returns the verifier with these keys and options, like [`Verifier::new`], under other
    /// limits.
    pub fn with_limits(
        alloc: Global,
        keys: Keys,
        validation: Validation,
        limits: Limits,
    ) -> Result<Verifier, KeyProblem>
        ensures ok { IfOk result (λ v. (v.keys.keys ≡ keys) × (v.validation ≡ validation)
            × (v.limits ≡ limits) × (v.keys.prepared ≤ limits.max_prepared)
            × AreFit limits.allows_blank validation.algorithms.items keys) }
        ensures err { IfErr result (IsKeyProblem limits.allows_blank validation.algorithms.items keys) }
    {
        let keys = ring_of_fit(alloc, keys, validation.algorithms.as_slice(), limits)?;
        Ok(Verifier {
            keys,
            validation,
            limits,
        })
    }

    /// Verifies a token in its compact form at the time `time`, in whole seconds since 1970-01-01
    /// 00:00:00 UTC, and returns its header and its claims: what [`decode`] or [`decode_with_set`]
    /// returns by `StandardProvider` with the verifier's keys and options, where only the algorithms
    /// of the key's family are accepted (see [`decode_by_family`]). A token that is longer than the
    /// limit is refused with `TooLong` before anything of it is read.
    pub fn decode<T: Claims>(
        &self,
        alloc: Global,
        token: &[u8],
        time: u64,
    ) -> Result<TokenData<T>, VerifierRefusal<Error>>
        ensures decided { ByFamily (call_with T.Claims self.now.keys.keys self.now.validation
            token.now time) token.now
            (λ call. IsBounded (Decides (token_tests call) (order_of self.now.keys.keys)
            (Carries call)) self.now.limits.max_len (length token.now) result) }

        // The laws of `decode` and `decode_with_set` hold: the token is accepted exactly at the
        // times from the first to the last, among others.
        ensures laws { length token.now ≤ self.now.limits.max_len
            → (f : Option Family) → HasLaws (with_family
            (call_with T.Claims self.now.keys.keys self.now.validation token.now time) f)
            (order_of self.now.keys.keys) (List ℕ) Compact token.now }
    {
        if self.is_too_long(token) {
            return Err(VerifierRefusal::TooLong);
        }
        match self.decode_whole(alloc, token, time) {
            Ok(decoded) => Ok(decoded),
            Err(refused) => Err(VerifierRefusal::Failed(refused.error)),
        }
    }

    /// Verifies a token like [`Verifier::decode`]; a refusal has the first test that failed, and
    /// its error. Whoever issued the token need not be told which test it was.
    pub fn decode_or_refusal<T: Claims>(
        &self,
        alloc: Global,
        token: &[u8],
        time: u64,
    ) -> Result<TokenData<T>, VerifierRefusal<Refusal>>
        ensures decided { ByFamily (call_with T.Claims self.now.keys.keys self.now.validation
            token.now time) token.now
            (λ call. IsBounded (DecidesByTest (token_tests call) (order_of self.now.keys.keys)
            (Carries call)) self.now.limits.max_len (length token.now) result) }

        // With algorithms of one family it is what `decode` or `decode_with_set` returns.
        ensures one_family { let call = call_with T.Claims self.now.keys.keys self.now.validation
            token.now time in
            AreOfOneFamily call.options.algorithms
            → IsBounded (DecidesByTest (token_tests call) (order_of self.now.keys.keys)
            (Carries call)) self.now.limits.max_len (length token.now) result }
    {
        if self.is_too_long(token) {
            return Err(VerifierRefusal::TooLong);
        }
        match self.decode_whole(alloc, token, time) {
            Ok(decoded) => Ok(decoded),
            Err(refused) => Err(VerifierRefusal::Failed(refused)),
        }
    }

    fn is_too_long(&self, token: &[u8]) -> bool
        ensures { IsTrue result ↔ (self.now.limits.max_len < length token.now) }
    {
        token.len() > self.limits.max_len
    }

    /// Verifies a token of any length.
    fn decode_whole<T: Claims>(
        &self,
        alloc: Global,
        token: &[u8],
        time: u64,
    ) -> Result<TokenData<T>, Refusal>
        ensures decided { ByFamily (call_with T.Claims self.now.keys.keys self.now.validation
            token.now time) token.now
            (λ call. DecidesByTest (token_tests call) (order_of self.now.keys.keys) (Carries call)
            result) }
        ensures one_family { let call = call_with T.Claims self.now.keys.keys self.now.validation
            token.now time in
            AreOfOneFamily call.options.algorithms
            → DecidesByTest (token_tests call) (order_of self.now.keys.keys) (Carries call) result }
        ensures laws { (f : Option Family) → HasLaws (with_family
            (call_with T.Claims self.now.keys.keys self.now.validation token.now time) f)
            (order_of self.now.keys.keys) (List ℕ) Compact token.now }
    {
        let keys = &self.keys;
        decode_by_family(alloc, &keys, token, &self.validation, time)
    }
}

/// Returns the ring of the keys, unless no verifier can be made of them.
fn ring_of_fit(
    alloc: Global,
    keys: Keys,
    algorithms: &[Algorithm],
    limits: Limits,
) -> Result<KeyRing, KeyProblem>
    ensures ok { IfOk result (λ ring. (ring.keys ≡ keys) × (ring.prepared ≤ limits.max_prepared)
        × AreFit limits.allows_blank algorithms.now keys) }
    ensures err { IfErr result (IsKeyProblem limits.allows_blank algorithms.now keys) }
{
    check_keys(alloc, &keys, algorithms, limits.allows_blank)?;
    // named for the proof
    let ring = KeyRing::new(alloc, keys, algorithms, limits.max_prepared)?;
    Ok(ring)
}
