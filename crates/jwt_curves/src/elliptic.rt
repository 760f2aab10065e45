//! The provider of ECDSA.

ghost use Rattle.std.specs.Prelude.{◌≡◌, ◌↔◌, ⊤, ℕ, List, None, Some, IsTrue, IfOk, IfErr};
ghost use Rattle.std.specs.Prelude.{MatchOption, false, true};
ghost use Rattle.jwt_base.specs.Kind as kind;
ghost use Rattle.jwt_base.specs.KindOf.{kind_of};
ghost use Rattle.jwt_crypto.specs.HmacKeys.{hmac_answers};
ghost use Rattle.jwt_curves.specs.EcdsaKeys.{curve_for, algorithm_for, curve_of, bytes_of};
ghost use Rattle.jwt_curves.specs.EcdsaKeys.{is_key_on, IsSignatureOn, refusal, EcdsaAccepts};
ghost use Rattle.jwt_curves.specs.law_proofs.CurveFamilies.{ecdsa_made};

use crate::curve::{Curve, curve_of_algorithm};
use crate::keys::{bytes_of_family, p256_key, p384_key, unfit_key};
use ecdsa::curves::{is_es256, is_es384};
use jwt_base::algorithms::{Algorithm, AlgorithmFamily};
use jwt_base::errors::{Result, unsupported_algorithm};
use jwt_crypto::{HmacProvider, NoSigner};
use jwt_keys::decoding_key::DecodingKey;
use jwt_keys::encoding_key::EncodingKey;
use jwt_keys::provider::{CryptoProvider, JwtVerifier};
use jwt_params::curves::EllipticCurve;
use jwt_params::thumbprints::ThumbprintHash;
use std::alloc::Global;

// The bytes of a public key on one of the curves.
#[derive(Drop)]
enum PublicKey {
    P256([u8; 65]),
    P384([u8; 97]),
}

impl PublicKey {
    // Returns the key, if the bytes are a public key on the curve.
    fn new(curve: Curve, bytes: &[u8]) -> Option<PublicKey>
        ensures { MatchOption result (is_key_on curve bytes.now ≡ false)
            (λ k. (curve_of k ≡ curve) × (bytes_of k ≡ bytes.now)
            × (is_key_on curve bytes.now ≡ true)) }
    {
        match curve {
            Curve::P256 => p256_key(bytes).map(PublicKey::P256),
            Curve::P384 => p384_key(bytes).map(PublicKey::P384),
        }
    }

    fn algorithm(&self) -> Algorithm
        ensures { result ≡ algorithm_for (curve_of self.now) }
    {
        match self {
            PublicKey::P256(_) => Algorithm::ES256,
            PublicKey::P384(_) => Algorithm::ES384,
        }
    }

    fn verify(&self, message: &[u8], signature: &[u8]) -> bool
        ensures { IsTrue result
            ↔ IsSignatureOn (curve_of self.now) (bytes_of self.now) message.now signature.now }
    {
        match self {
            PublicKey::P256(public) => is_es256(public, message, signature),
            PublicKey::P384(public) => is_es384(public, message, signature),
        }
    }
}

/// Verifies signatures of ECDSA by one key: ES256 on P-256, ES384 on P-384 (RFC 7518 section 3.4).
#[derive(Drop)]
pub struct EcdsaVerifier {
    public: PublicKey,
}

impl JwtVerifier for EcdsaVerifier {
    ghost verifies_by = { λ v. algorithm_for (curve_of v.public) };

    ghost accepts = { λ v m s. IsSignatureOn (curve_of v.public) (bytes_of v.public) m s };

    ghost is_sparing = { λ _. ⊤ };

    fn algorithm(&self) -> Algorithm {
        self.public.algorithm()
    }

    /// Returns whether these bytes are a signature of the message. Never refuses.
    fn verify(&self, _alloc: Global, message: &[u8], signature: &[u8]) -> Result<bool> {
        Ok(self.public.verify(message, signature))
    }
}

/// The provider of ECDSA: it verifies ES256 and ES384 (RFC 7518 section 3.4), with keys that are an
/// uncompressed point: the byte 4 and the two coordinates. Its digests are those of SHA-2. It signs
/// nothing and reads no keys in DER. Its verifiers allocate no memory.
#[derive(Debug, Clone, Copy)]
pub struct EcdsaProvider;

impl CryptoProvider for EcdsaProvider {
    type Signer = NoSigner;

    type Verifier = EcdsaVerifier;

    ghost signer_refusal = { λ _ a k. Some kind.UnsupportedAlgorithm };

    ghost verifier_refusal = { λ _ a k. refusal (curve_for a) k };

    ghost sign_refusal = { λ _ a k m. None };

    ghost signs = { λ _ a k m s. ⊥ };

    ghost accepts = { λ _ a k m s. EcdsaAccepts a k m s };

    ghost is_sparing = { λ _. ⊤ };

    ghost key_answers = { λ _. hmac_answers };

    /// Refuses with `UnsupportedAlgorithm`.
    fn signer_factory(
        &self,
        _alloc: Global,
        _algorithm: &Algorithm,
        _key: &EncodingKey,
    ) -> Result<NoSigner> {
        Err(unsupported_algorithm())
    }

    /// Returns a verifier by this algorithm and key. An algorithm other than ES256 and ES384 is
    /// refused with `UnsupportedAlgorithm`, and then with `InvalidKeyFormat` a key that is not in
    /// the family of ECDSA or whose bytes are no public key on the algorithm's curve: the byte 4
    /// and two coordinates of 32 bytes each on P-256, of 48 on P-384 (RFC 7518 section 6.2.1).
    /// Allocates no memory.
    fn verifier_factory(
        &self,
        _alloc: Global,
        algorithm: &Algorithm,
        key: &DecodingKey,
    ) -> Result<EcdsaVerifier> {
        let Some(curve) = curve_of_algorithm(*algorithm) else {
            return Err(unsupported_algorithm());
        };
        let bytes = bytes_of_family(key, AlgorithmFamily::Ec)?;
        let Some(public) = PublicKey::new(curve, bytes) else {
            return Err(unfit_key());
        };
        Ok(EcdsaVerifier { public })
    }

    fn rsa_pub_components_from_private_key(
        &self,
        _alloc: Global,
        _der: &[u8],
    ) -> Result<(Vec<u8>, Vec<u8>)> {
        Err(unsupported_algorithm())
    }

    fn rsa_pub_components_from_public_key(
        &self,
        _alloc: Global,
        _der: &[u8],
    ) -> Result<(Vec<u8>, Vec<u8>)> {
        Err(unsupported_algorithm())
    }

    fn ec_pub_components_from_private_key(
        &self,
        _alloc: Global,
        _der: &[u8],
        _algorithm: Algorithm,
    ) -> Result<(EllipticCurve, Vec<u8>, Vec<u8>)> {
        Err(unsupported_algorithm())
    }

    fn ed_pub_components_from_private_key(
        &self,
        _alloc: Global,
        _der: &[u8],
        _curve: &EllipticCurve,
    ) -> Result<Vec<u8>> {
        Err(unsupported_algorithm())
    }

    /// Returns the digest by SHA-2. The only refusal is `OutOfMemory`.
    fn compute_digest(&self, alloc: Global, bytes: &[u8], hash: ThumbprintHash) -> Result<Vec<u8>> {
        HmacProvider.compute_digest(alloc, bytes, hash)
    }

    ghost same_family = { λ _ a k h. ecdsa_made a k h };
}
