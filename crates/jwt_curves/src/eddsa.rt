//! The provider of EdDSA.

// Keys are tested when a verifier is made, and not at the signature: a key that is no point of its
// curve is a fault of whoever configured it, and is `InvalidKeyFormat`, while a signature by a
// right key can only be accepted or not.

ghost use Rattle.std.specs.Prelude.{◌≡◌, ◌↔◌, ⊤, ℕ, List, None, Some, IsTrue, IfOk, IfErr};
ghost use Rattle.jwt_base.specs.Kind as kind;
ghost use Rattle.jwt_base.specs.KindOf.{kind_of};
ghost use Rattle.jwt_base.specs.declared.algorithms.Algorithm.TheVariants as algorithm;
ghost use Rattle.jwt_crypto.specs.HmacKeys.{hmac_answers};
ghost use Rattle.jwt_curves.specs.EdDsaKeys.{refusal, EdDsaAccepts};
ghost use Rattle.jwt_curves.specs.law_proofs.CurveFamilies.{eddsa_made};
ghost use Rattle.ed25519.specs.Ed25519.{IsSignature};

use crate::keys::{bytes_of_family, ed25519_key, unfit_key};
use ed25519::verification::is_signature;
use jwt_base::algorithms::{Algorithm, AlgorithmFamily};
use jwt_base::errors::{Result, unsupported_algorithm};
use jwt_crypto::{HmacProvider, NoSigner};
use jwt_keys::decoding_key::DecodingKey;
use jwt_keys::encoding_key::EncodingKey;
use jwt_keys::provider::{CryptoProvider, JwtVerifier};
use jwt_params::curves::EllipticCurve;
use jwt_params::thumbprints::ThumbprintHash;
use std::alloc::Global;

/// Verifies signatures of EdDSA with Ed25519 by one key (RFC 8032 section 5.1.7).
#[derive(Drop)]
pub struct EdDsaVerifier {
    public: [u8; 32],
}

impl JwtVerifier for EdDsaVerifier {
    ghost verifies_by = { λ _. algorithm.EdDSA };

    ghost accepts = { λ v m s. IsSignature v.public m s };

    ghost is_sparing = { λ _. ⊤ };

    fn algorithm(&self) -> Algorithm {
        Algorithm::EdDSA
    }

    /// Returns whether these bytes are a signature of the message. Never refuses.
    fn verify(&self, _alloc: Global, message: &[u8], signature: &[u8]) -> Result<bool> {
        Ok(is_signature(&self.public, message, signature))
    }
}

/// The provider of EdDSA: it verifies Ed25519 signatures (RFC 8037 section 3.1), with keys that are
/// the 32 bytes of a point. Its digests are those of SHA-2. It signs nothing and reads no keys in
/// DER. Its verifiers allocate no memory.
#[derive(Debug, Clone, Copy)]
pub struct EdDsaProvider;

impl CryptoProvider for EdDsaProvider {
    type Signer = NoSigner;

    type Verifier = EdDsaVerifier;

    ghost signer_refusal = { λ _ a k. Some kind.UnsupportedAlgorithm };

    ghost verifier_refusal = { λ _ a k. refusal a k };

    ghost sign_refusal = { λ _ a k m. None };

    ghost signs = { λ _ a k m s. ⊥ };

    ghost accepts = { λ _ a k m s. EdDsaAccepts a k m s };

    ghost is_sparing = { λ _. ⊤ };

    ghost key_answers = { λ _. hmac_answers };

    /// Refuses with `UnsupportedAlgorithm`.
    fn signer_factory(
        &self,
        _alloc: Global,
        _algorithm: &Algorithm,
        _key: &EncodingKey,
    ) -> Result<NoSigner> {
        Err(unsupported_algorithm())
    }

    /// Returns a verifier by this key. An algorithm other than EdDSA is refused with
    /// `UnsupportedAlgorithm`, and then with `InvalidKeyFormat` a key that is not in the family of
    /// EdDSA or whose bytes are no public key: 32 bytes that encode a point of the curve (RFC 8032
    /// section 5.1.3). Allocates no memory.
    fn verifier_factory(
        &self,
        _alloc: Global,
        algorithm: &Algorithm,
        key: &DecodingKey,
    ) -> Result<EdDsaVerifier> {
        if *algorithm != Algorithm::EdDSA {
            return Err(unsupported_algorithm());
        }
        let bytes = bytes_of_family(key, AlgorithmFamily::Ed)?;
        let Some(public) = ed25519_key(bytes) else {
            return Err(unfit_key());
        };
        Ok(EdDsaVerifier { public })
    }

    fn rsa_pub_components_from_private_key(
        &self,
        _alloc: Global,
        _der: &[u8],
    ) -> Result<(Vec<u8>, Vec<u8>)> {
        Err(unsupported_algorithm())
    }

    fn rsa_pub_components_from_public_key(
        &self,
        _alloc: Global,
        _der: &[u8],
    ) -> Result<(Vec<u8>, Vec<u8>)> {
        Err(unsupported_algorithm())
    }

    fn ec_pub_components_from_private_key(
        &self,
        _alloc: Global,
        _der: &[u8],
        _algorithm: Algorithm,
    ) -> Result<(EllipticCurve, Vec<u8>, Vec<u8>)> {
        Err(unsupported_algorithm())
    }

    fn ed_pub_components_from_private_key(
        &self,
        _alloc: Global,
        _der: &[u8],
        _curve: &EllipticCurve,
    ) -> Result<Vec<u8>> {
        Err(unsupported_algorithm())
    }

    /// Returns the digest by SHA-2. The only refusal is `OutOfMemory`.
    fn compute_digest(&self, alloc: Global, bytes: &[u8], hash: ThumbprintHash) -> Result<Vec<u8>> {
        HmacProvider.compute_digest(alloc, bytes, hash)
    }

    ghost same_family = { λ _ a k h. eddsa_made a k h };
}
