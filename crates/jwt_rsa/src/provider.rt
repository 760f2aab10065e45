//! The provider of RSA.

// A verifier is made of components alone, so that a key in DER is read once, by
// `public_key_from_der`, and not for each token.

ghost use Rattle.std.specs.Prelude.{◌≡◌, ◌↔◌, ℕ, List, Some, None, Ok, IsTrue, IfOk, IfErr, OnOk};
ghost use Rattle.jwt_base.specs.Kind as kind;
ghost use Rattle.jwt_base.specs.KindOf.{kind_of, IsMemory, RefusesAs};
ghost use Rattle.jwt_keys.specs.Key.{Key, Components};
ghost use Rattle.jwt_keys.specs.Provider.{RefusesWith};
ghost use Rattle.jwt_key_files.specs.PublicKeys.{IsRsaKey};
ghost use Rattle.jwt_rsa.specs.RsaAnswers.{components_read, no_key_text, rsa_answers, HasJwkOf};
ghost use Rattle.jwt_rsa.specs.RsaSchemes.{scheme_for};
ghost use Rattle.jwt_rsa.specs.RsaKeys.{refusal, RsaAccepts};
ghost use Rattle.jwt_rsa.specs.law_proofs.RsaFamilies.{family_made};

use crate::components::components;
use crate::key::PublicKey;
use crate::scheme::scheme_of_algorithm;
use crate::verifier::RsaVerifier;
use jwt_base::algorithms::Algorithm;
use jwt_base::errors::{ErrorKind, Result, new_error, unsupported_algorithm};
use jwt_crypto::{HmacProvider, NoSigner};
use jwt_keys::decoding_key::{DecodingKey, DecodingKeyKind};
use jwt_keys::encoding_key::EncodingKey;
use jwt_keys::provider::CryptoProvider;
use jwt_params::curves::EllipticCurve;
use jwt_params::thumbprints::ThumbprintHash;
use std::alloc::Global;

/// The provider of RSA: it verifies RS256, RS384 and RS512 with RSASSA-PKCS1-v1_5 (RFC 7518 section
/// 3.3), and PS256, PS384 and PS512 with RSASSA-PSS (section 3.5), with keys of a modulus and an
/// exponent. Its digests are those of SHA-2. It reads the modulus and the exponent of a public key
/// in DER, but a verifier is made of the two alone. It signs nothing and reads no private keys.
#[derive(Debug, Clone, Copy)]
pub struct RsaProvider;

impl CryptoProvider for RsaProvider {
    type Signer = NoSigner;

    type Verifier = RsaVerifier;

    ghost signer_refusal = { λ _ a k. Some kind.UnsupportedAlgorithm };

    ghost verifier_refusal = { λ _ a k. refusal (scheme_for a) k };

    ghost sign_refusal = { λ _ a k m. None };

    ghost signs = { λ _ a k m s. ⊥ };

    ghost accepts = { λ _ a k m s. RsaAccepts a k m s };

    ghost is_sparing = { λ _. ⊥ };

    ghost key_answers = { λ _. rsa_answers };

    /// Refuses with `UnsupportedAlgorithm`.
    fn signer_factory(
        &self,
        _alloc: Global,
        _algorithm: &Algorithm,
        _key: &EncodingKey,
    ) -> Result<NoSigner> {
        Err(unsupported_algorithm())
    }

    /// Returns a verifier by this algorithm and key. Another algorithm is refused with
    /// `UnsupportedAlgorithm`, and then these keys with `InvalidKeyFormat`: one that is not of a
    /// modulus and an exponent; a modulus that is even, of fewer than 2048 bits (RFC 7518 section
    /// 3.3) or of more than 16384; an exponent that is even, below 3 or of more than 64 bits
    /// (RFC 8017 section 3.1). Octets of 0 at the front of the two numbers count for nothing.
    fn verifier_factory(
        &self,
        alloc: Global,
        algorithm: &Algorithm,
        key: &DecodingKey,
    ) -> Result<RsaVerifier> {
        let Some(scheme) = scheme_of_algorithm(*algorithm) else {
            return Err(unsupported_algorithm());
        };
        let DecodingKeyKind::RsaModulusExponent { n, e } = key.kind() else {
            return Err(new_error(ErrorKind::InvalidKeyFormat));
        };
        let key = PublicKey::new(alloc, n, e)?;
        Ok(RsaVerifier { scheme, key })
    }

    /// Refuses with `UnsupportedAlgorithm`.
    fn rsa_pub_components_from_private_key(
        &self,
        _alloc: Global,
        _der: &[u8],
    ) -> Result<(Vec<u8>, Vec<u8>)> {
        Err(unsupported_algorithm())
    }

    /// Returns the modulus and the exponent of an RSAPublicKey in DER (RFC 8017 appendix A.1.1),
    /// each as its octets with no leading 0, of any length. Any other bytes, a SubjectPublicKeyInfo
    /// and a private key among them, are refused with `InvalidRsaKey` and a string that says so.
    fn rsa_pub_components_from_public_key(
        &self,
        alloc: Global,
        der: &[u8],
    ) -> Result<(Vec<u8>, Vec<u8>)>
        ensures ok { IfOk result (λ p. components_read der.now ≡ Ok (p.0.items, p.1.items)) }
        ensures err { IfErr result (RefusesWith (components_read der.now)) }
        ensures key { IfOk result (λ p. IsRsaKey der.now (Components p.0.items p.1.items)) }
        ensures no_key { IfErr result (RefusesAs (kind.InvalidRsaKey no_key_text)
            ((k : Key) → ¬ IsRsaKey der.now k)) }
        ensures jwk { IfOk result (λ p. HasJwkOf der.now p.0.items p.1.items) }
    {
        components(alloc, der)
    }

    /// Refuses with `UnsupportedAlgorithm`.
    fn ec_pub_components_from_private_key(
        &self,
        _alloc: Global,
        _der: &[u8],
        _algorithm: Algorithm,
    ) -> Result<(EllipticCurve, Vec<u8>, Vec<u8>)> {
        Err(unsupported_algorithm())
    }

    /// Refuses with `UnsupportedAlgorithm`.
    fn ed_pub_components_from_private_key(
        &self,
        _alloc: Global,
        _der: &[u8],
        _curve: &EllipticCurve,
    ) -> Result<Vec<u8>> {
        Err(unsupported_algorithm())
    }

    /// Returns the digest by SHA-2. The only refusal is `OutOfMemory`.
    fn compute_digest(&self, alloc: Global, bytes: &[u8], hash: ThumbprintHash) -> Result<Vec<u8>> {
        HmacProvider.compute_digest(alloc, bytes, hash)
    }

    ghost same_family = { λ p a k h. family_made a k h };
}
