//! Keys on curves that are prepared once.

ghost use Rattle.std.specs.Prelude.{◌≡◌, ◌↔◌, ⊤, ℕ, List, None, IsSome, IsTrue, IfOk, IfErr, IfSome};
ghost use Rattle.std.specs.Prelude.{MatchOption, ◌||◌, false};
ghost use Rattle.jwt_base.specs.KindOf.{IsMemory};
ghost use Rattle.jwt_base.specs.declared.algorithms.AlgorithmFamily.TheVariants as family;
ghost use Rattle.jwt_keys.specs.Key.{Plain};
ghost use Rattle.jwt_curves.specs.CurveKeys.{is_curve_key, refusal, CurveAccepts};
ghost use Rattle.jwt_curves.specs.CurvePrepared.{prepared_key, prepared_algorithm, bytes_of};
ghost use Rattle.jwt_curves.specs.CurvePrepared.{IsPreparedFor, IsSignatureBy};
ghost use Rattle.ed25519.specs.Ed25519.{is_public_key};
ghost use Rattle.ecdsa.specs.Curves.{is_p256_key, is_p384_key};

use crate::keys::bytes_of_family;
use ecdsa::prepared_curves::{
    P256Key, P384Key, is_es256_by, is_es384_by, p256_bytes, p384_bytes, prepare_p256, prepare_p384,
};
use ed25519::prepared::{PreparedKey, is_signature_by, prepare_key, public_bytes};
use jwt_base::algorithms::{Algorithm, AlgorithmFamily};
use jwt_base::errors::Result;
use jwt_keys::decoding_key::DecodingKey;
use jwt_keys::provider::JwtVerifier;
use std::alloc::Global;

/// A public key on a curve that is prepared once, for many signatures. A verification by it takes
/// about a third of the time, allocates no memory, and has the same verdict.
#[derive(Drop)]
pub enum PreparedCurve {
    /// For ES256. Keeps 16 KiB.
    P256(P256Key),
    /// For ES384. Keeps 24 KiB.
    P384(P384Key),
    /// For EdDSA. Keeps 32 KiB.
    Ed25519(PreparedKey),
}

impl PreparedCurve {
    /// Prepares a key. Returns `None` if it is not one that `EcdsaProvider` or `EdDsaProvider` takes:
    /// in the family of ECDSA the bytes of a public key on P-256 or P-384, in that of EdDSA those of
    /// one of Ed25519. The only refusal is `OutOfMemory`.
    pub fn new(alloc: Global, key: &DecodingKey) -> Result<Option<PreparedCurve>>
        ensures ok { IfOk result (λ o. MatchOption o (is_curve_key key.now ≡ false)
            (λ k. prepared_key k ≡ key.now)) }
        ensures err { IfErr result IsMemory }
    {
        let Ok(bytes) = key.try_get_as_bytes() else {
            return Ok(None);
        };
        match key.family() {
            AlgorithmFamily::Ec => elliptic(alloc, bytes),
            AlgorithmFamily::Ed => edwards(alloc, bytes),
            _ => Ok(None),
        }
    }

    /// Returns a verifier by this algorithm and key, if they are those that were prepared. Allocates
    /// no memory.
    pub fn verifier<'a>(
        &'a self,
        algorithm: Algorithm,
        key: &DecodingKey,
    ) -> Option<PreparedCurveVerifier<'a>>
        ensures found { IsSome result ↔ IsPreparedFor self.now algorithm key.now }
        ensures made { IfSome result (λ v. refusal algorithm key.now ≡ None) }
        ensures by { IfSome result (λ v. prepared_algorithm v.key.now ≡ algorithm) }
        ensures accepts { IfSome result (λ v. (m s : List ℕ) →
            IsSignatureBy v.key.now m s ↔ CurveAccepts algorithm key.now m s) }
    {
        if !self.is_for(algorithm, key) {
            return None;
        }
        Some(PreparedCurveVerifier { key: self })
    }

    fn is_for(&self, algorithm: Algorithm, key: &DecodingKey) -> bool
        ensures verdict { IsTrue result ↔ IsPreparedFor self.now algorithm key.now }
        ensures serves { refusal (prepared_algorithm self.now) (prepared_key self.now) ≡ None }
    {
        let public = self.public();
        let Ok(bytes) = bytes_of_family(key, algorithm.family()) else {
            return false;
        };
        algorithm == self.algorithm() && bytes == public
    }

    fn algorithm(&self) -> Algorithm
        ensures { result ≡ prepared_algorithm self.now }
    {
        match self {
            PreparedCurve::P256(_) => Algorithm::ES256,
            PreparedCurve::P384(_) => Algorithm::ES384,
            PreparedCurve::Ed25519(_) => Algorithm::EdDSA,
        }
    }

    // The bytes of the key, by which its algorithm makes a verifier.
    fn public(&self) -> &[u8]
        ensures value { result.now ≡ bytes_of self.now }
        ensures serves { refusal (prepared_algorithm self.now) (prepared_key self.now) ≡ None }
    {
        match self {
            PreparedCurve::P256(key) => p256_bytes(key),
            PreparedCurve::P384(key) => p384_bytes(key),
            PreparedCurve::Ed25519(key) => public_bytes(key),
        }
    }

    fn accepts(&self, message: &[u8], signature: &[u8]) -> bool
        ensures { IsTrue result ↔ IsSignatureBy self.now message.now signature.now }
    {
        match self {
            PreparedCurve::P256(key) => is_es256_by(key, message, signature),
            PreparedCurve::P384(key) => is_es384_by(key, message, signature),
            PreparedCurve::Ed25519(key) => is_signature_by(key, message, signature),
        }
    }
}

/// Verifies signatures by a prepared key on a curve, as `EcdsaVerifier` and `EdDsaVerifier` do by one
/// that is not prepared.
#[derive(Drop)]
pub struct PreparedCurveVerifier<'a> {
    pub(crate) key: &'a PreparedCurve,
}

impl JwtVerifier for PreparedCurveVerifier<'_> {
    ghost verifies_by = { λ v. prepared_algorithm v.key.now };

    ghost accepts = { λ v m s. IsSignatureBy v.key.now m s };

    ghost is_sparing = { λ _. ⊤ };

    fn algorithm(&self) -> Algorithm {
        self.key.algorithm()
    }

    /// Returns whether these bytes are a signature of the message. Never refuses.
    fn verify(&self, _alloc: Global, message: &[u8], signature: &[u8]) -> Result<bool> {
        Ok(self.key.accepts(message, signature))
    }
}

// The prepared key of these bytes, if they are a public key on P-256 or P-384.
fn elliptic(alloc: Global, public: &[u8]) -> Result<Option<PreparedCurve>>
    ensures ok { IfOk result (λ o. MatchOption o
        ((is_p256_key public.now || is_p384_key public.now) ≡ false)
        (λ k. prepared_key k ≡ Plain family.Ec public.now)) }
    ensures err { IfErr result IsMemory }
{
    if let Some(key) = prepare_p256(alloc, public)? {
        return Ok(Some(PreparedCurve::P256(key)));
    }
    let Some(key) = prepare_p384(alloc, public)? else {
        return Ok(None);
    };
    Ok(Some(PreparedCurve::P384(key)))
}

// The prepared key of these bytes, if they are a public key of Ed25519.
fn edwards(alloc: Global, public: &[u8]) -> Result<Option<PreparedCurve>>
    ensures ok { IfOk result (λ o. MatchOption o (is_public_key public.now ≡ false)
        (λ k. prepared_key k ≡ Plain family.Ed public.now)) }
    ensures err { IfErr result IsMemory }
{
    let Some(key) = prepare_key(alloc, public)? else {
        return Ok(None);
    };
    Ok(Some(PreparedCurve::Ed25519(key)))
}
