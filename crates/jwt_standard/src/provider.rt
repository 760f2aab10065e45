//! The provider of all twelve algorithms.

ghost use Rattle.std.specs.Prelude.{◌≡◌, ◌≢◌, ◌↔◌, ℕ, List, Some, None, Ok, IfOk, IfErr, OnOk};
ghost use Rattle.std.specs.Prelude.{IsTrue};
ghost use Rattle.jwt_base.specs.Algorithm.{family_of};
ghost use Rattle.jwt_base.specs.Kind as kind;
ghost use Rattle.jwt_base.specs.KindOf.{kind_of, Refuses, RefusesAs};
ghost use Rattle.jwt_base.specs.declared.algorithms.AlgorithmFamily.TheVariants as family;
ghost use Rattle.jwt_keys.specs.Key.{Key, Components};
ghost use Rattle.jwt_keys.specs.Provider.{RefusesWith};
ghost use Rattle.jwt_crypto.specs.HmacKeys as hmac;
ghost use Rattle.jwt_key_files.specs.PublicKeys.{IsRsaKey};
ghost use Rattle.jwt_rsa.specs.RsaAnswers.{components_read, no_key_text, rsa_answers, HasJwkOf};
ghost use Rattle.jwt_standard.specs.StandardKeys.{verifier_refusal, StandardAccepts};
ghost use Rattle.jwt_standard.specs.law_proofs.StandardFamilies.{family_made};

use crate::verifier::StandardVerifier;
use jwt_base::algorithms::{Algorithm, AlgorithmFamily};
use jwt_base::errors::Result;
use jwt_crypto::{HmacProvider, HmacSigner};
use jwt_curves::{EcdsaProvider, EdDsaProvider};
use jwt_keys::decoding_key::DecodingKey;
use jwt_keys::encoding_key::EncodingKey;
use jwt_keys::provider::{CryptoProvider, JwtSigner, JwtVerifier};
use jwt_params::curves::EllipticCurve;
use jwt_params::thumbprints::ThumbprintHash;
use jwt_rsa::RsaProvider;
use std::alloc::Global;

/// The provider of all twelve algorithms. It verifies all, each exactly as the provider of its
/// family does, and signs with HMAC:
///
/// | algorithms | verified as by | keys |
/// |---|---|---|
/// | HS256, HS384, HS512 | `HmacProvider` (RFC 7518 section 3.2) | a secret of any length |
/// | RS256, RS384, RS512 | `RsaProvider` (RFC 7518 section 3.3) | a modulus and an exponent |
/// | PS256, PS384, PS512 | `RsaProvider` (RFC 7518 section 3.5) | a modulus and an exponent |
/// | ES256 | `EcdsaProvider` (RFC 7518 section 3.4) | a point of P-256 |
/// | ES384 | `EcdsaProvider` (RFC 7518 section 3.4) | a point of P-384 |
/// | EdDSA | `EdDsaProvider` (RFC 8037 section 3.1) | a point of Ed25519 |
///
/// A key of another family than the algorithm's is refused, so a public key never serves as a
/// secret (RFC 8725 section 2.1). The key of a JSON Web Key serves too, once
/// `DecodingKey::from_jwk` has read it, but no key in DER. Digests are those of SHA-2. It signs
/// HS256, HS384 and HS512 as `HmacProvider` does, and refuses to sign by any other algorithm.
#[derive(Debug, Clone, Copy)]
pub struct StandardProvider;

impl CryptoProvider for StandardProvider {
    type Signer = HmacSigner;

    type Verifier = StandardVerifier;

    ghost signer_refusal = { λ _. hmac.hmac_signer_refusal };

    ghost verifier_refusal = { λ _. verifier_refusal };

    ghost sign_refusal = { λ _ a k m. None };

    ghost signs = { λ _ a k m s. hmac.HmacSigns a k m s };

    ghost accepts = { λ _ a k m s. StandardAccepts a k m s };

    ghost is_sparing = { λ _. ⊥ };

    ghost key_answers = { λ _. rsa_answers };

    /// Returns an HMAC signer. An algorithm of another family is refused with
    /// `UnsupportedAlgorithm`, and then a key of another family with `InvalidKeyFormat`. Allocates
    /// no memory.
    fn signer_factory(
        &self,
        alloc: Global,
        algorithm: &Algorithm,
        key: &EncodingKey,
    ) -> Result<HmacSigner>
        ensures made { OnOk result (hmac.hmac_signer_refusal algorithm.now key.now ≡ None) }
        ensures err { IfErr result (Refuses (hmac.hmac_signer_refusal algorithm.now key.now)) }
        ensures by { IfOk result (λ s. ⟦<HmacSigner as JwtSigner>⟧.signs_by s ≡ algorithm.now) }
        ensures signs { IfOk result (λ s. (m b : List ℕ) →
            ⟦<HmacSigner as JwtSigner>⟧.signs s m b ↔ hmac.HmacSigns algorithm.now key.now m b) }
        ensures sparing { IfErr result (λ e. kind_of e ≢ kind.OutOfMemory) }
    {
        HmacProvider.signer_factory(alloc, algorithm, key)
    }

    /// Returns the verifier that the provider of the algorithm's family makes. A key is refused
    /// with `InvalidKeyFormat`: one of another family, and one that the family's provider refuses.
    /// Allocates memory for RSA alone.
    fn verifier_factory(
        &self,
        alloc: Global,
        algorithm: &Algorithm,
        key: &DecodingKey,
    ) -> Result<StandardVerifier>
        ensures made { OnOk result (verifier_refusal algorithm.now key.now ≡ None) }
        ensures err { IfErr result (Refuses (verifier_refusal algorithm.now key.now)) }
        ensures by { IfOk result (λ v. ⟦<StandardVerifier as JwtVerifier>⟧.verifies_by v
            ≡ algorithm.now) }
        ensures accepts { IfOk result (λ v. (m s : List ℕ) →
            ⟦<StandardVerifier as JwtVerifier>⟧.accepts v m s
            ↔ StandardAccepts algorithm.now key.now m s) }

        // Without RSA neither this call nor the verifier that it makes allocates memory.
        ensures spares { family_of algorithm.now ≢ family.Rsa
            → IfErr result (λ e. kind_of e ≢ kind.OutOfMemory) }
        ensures spares_verifier { family_of algorithm.now ≢ family.Rsa
            → IfOk result (λ v. ⟦<StandardVerifier as JwtVerifier>⟧.is_sparing v) }
    {
        Ok(match algorithm.family() {
            AlgorithmFamily::Hmac => {
                StandardVerifier::Hmac(HmacProvider.verifier_factory(alloc, algorithm, key)?)
            }
            AlgorithmFamily::Rsa => {
                StandardVerifier::Rsa(RsaProvider.verifier_factory(alloc, algorithm, key)?)
            }
            AlgorithmFamily::Ec => {
                StandardVerifier::Ec(EcdsaProvider.verifier_factory(alloc, algorithm, key)?)
            }
            AlgorithmFamily::Ed => {
                StandardVerifier::Ed(EdDsaProvider.verifier_factory(alloc, algorithm, key)?)
            }
        })
    }

    /// Refuses with `UnsupportedAlgorithm`.
    fn rsa_pub_components_from_private_key(
        &self,
        alloc: Global,
        der: &[u8],
    ) -> Result<(Vec<u8>, Vec<u8>)> {
        HmacProvider.rsa_pub_components_from_private_key(alloc, der)
    }

    /// Returns the modulus and the exponent of an RSAPublicKey in DER, as `RsaProvider` does (RFC
    /// 8017 appendix A.1.1). Any other bytes are refused with `InvalidRsaKey` and a string that
    /// says so.
    fn rsa_pub_components_from_public_key(
        &self,
        alloc: Global,
        der: &[u8],
    ) -> Result<(Vec<u8>, Vec<u8>)>
        ensures ok { IfOk result (λ p. components_read der.now ≡ Ok (p.0.items, p.1.items)) }
        ensures err { IfErr result (RefusesWith (components_read der.now)) }
        ensures key { IfOk result (λ p. IsRsaKey der.now (Components p.0.items p.1.items)) }
        ensures no_key { IfErr result (RefusesAs (kind.InvalidRsaKey no_key_text)
            ((k : Key) → ¬ IsRsaKey der.now k)) }
        ensures jwk { IfOk result (λ p. HasJwkOf der.now p.0.items p.1.items) }
    {
        RsaProvider.rsa_pub_components_from_public_key(alloc, der)
    }

    /// Refuses with `UnsupportedAlgorithm`.
    fn ec_pub_components_from_private_key(
        &self,
        alloc: Global,
        der: &[u8],
        algorithm: Algorithm,
    ) -> Result<(EllipticCurve, Vec<u8>, Vec<u8>)> {
        HmacProvider.ec_pub_components_from_private_key(alloc, der, algorithm)
    }

    /// Refuses with `UnsupportedAlgorithm`.
    fn ed_pub_components_from_private_key(
        &self,
        alloc: Global,
        der: &[u8],
        curve: &EllipticCurve,
    ) -> Result<Vec<u8>> {
        HmacProvider.ed_pub_components_from_private_key(alloc, der, curve)
    }

    /// Returns the digest by SHA-2. The only refusal is `OutOfMemory`.
    fn compute_digest(&self, alloc: Global, bytes: &[u8], hash: ThumbprintHash) -> Result<Vec<u8>> {
        HmacProvider.compute_digest(alloc, bytes, hash)
    }

    ghost same_family = { λ _ a k h. family_made a k h };
}
