//! The provider of RSA with keys that are prepared once.

// A reference to `PreparedRsa` is the provider, and not the value: its verifiers borrow the
// prepared key, so their lifetime is that of the reference. A verifier that owned its key would
// have to copy, or to prepare the modulus again.

ghost use Rattle.std.specs.Prelude.{◌≡◌, ◌≢◌, ◌↔◌, ℕ, List, Some, None, IfOk, IfErr, OnOk};
ghost use Rattle.jwt_base.specs.Kind as kind;
ghost use Rattle.jwt_base.specs.KindOf.{kind_of, Refuses};
ghost use Rattle.jwt_rsa.specs.RsaAnswers.{rsa_answers};
ghost use Rattle.jwt_rsa.specs.RsaSchemes.{scheme_for, algorithm_for};
ghost use Rattle.jwt_rsa.specs.RsaKeys.{refusal, RsaAccepts};
ghost use Rattle.jwt_rsa.specs.law_proofs.RsaFamilies.{family_made};
ghost use Rattle.jwt_rsa.specs.RsaPrepared.{IsPreparedKey, IsSignatureBy, IsKeptVerifier};

use crate::prepared::{PreparedRsa, PreparedRsaVerifier};
use crate::provider::RsaProvider;
use crate::scheme::scheme_of_algorithm;
use jwt_base::algorithms::Algorithm;
use jwt_base::errors::{ErrorKind, Result, new_error, unsupported_algorithm};
use jwt_crypto::NoSigner;
use jwt_keys::decoding_key::{DecodingKey, DecodingKeyKind};
use jwt_keys::encoding_key::EncodingKey;
use jwt_keys::provider::CryptoProvider;
use jwt_params::curves::EllipticCurve;
use jwt_params::thumbprints::ThumbprintHash;
use std::alloc::Global;

impl<'a> CryptoProvider for &'a PreparedRsa {
    type Signer = NoSigner;

    type Verifier = PreparedRsaVerifier<'a>;

    ghost signer_refusal = { λ _ a k. Some kind.UnsupportedAlgorithm };

    ghost verifier_refusal = { λ _ a k. refusal (scheme_for a) k };

    ghost sign_refusal = { λ _ a k m. None };

    ghost signs = { λ _ a k m s. ⊥ };

    ghost accepts = { λ _ a k m s. RsaAccepts a k m s };

    ghost is_sparing = { λ _. ⊥ };

    ghost key_answers = { λ _. rsa_answers };

    /// Refuses with `UnsupportedAlgorithm`.
    fn signer_factory(
        &self,
        alloc: Global,
        algorithm: &Algorithm,
        key: &EncodingKey,
    ) -> Result<NoSigner> {
        RsaProvider.signer_factory(alloc, algorithm, key)
    }

    /// Returns a verifier by this algorithm and key, refused as by `RsaProvider`. It uses the key
    /// that is kept exactly when the key's components are prepared.
    fn verifier_factory(
        &self,
        alloc: Global,
        algorithm: &Algorithm,
        key: &DecodingKey,
    ) -> Result<PreparedRsaVerifier<'a>>
        ensures made { OnOk result (refusal (scheme_for algorithm.now) key.now ≡ None) }
        ensures err { IfErr result (Refuses (refusal (scheme_for algorithm.now) key.now)) }
        ensures by { IfOk result (λ v. algorithm_for v.scheme ≡ algorithm.now) }
        ensures accepts { IfOk result (λ v. (m s : List ℕ) →
            IsSignatureBy v.keyed v.scheme m s ↔ RsaAccepts algorithm.now key.now m s) }
        ensures sparing { ⊥ → IfErr result (λ e. kind_of e ≢ kind.OutOfMemory) }
        ensures sparing_verifier { ⊥ → IfOk result (λ v. ⊥) }
        ensures kept { IfOk result (λ v. IsKeptVerifier v ↔ IsPreparedKey self.now.now key.now) }
    {
        let Some(scheme) = scheme_of_algorithm(*algorithm) else {
            return Err(unsupported_algorithm());
        };
        let DecodingKeyKind::RsaModulusExponent { n, e } = key.kind() else {
            return Err(new_error(ErrorKind::InvalidKeyFormat));
        };
        let keyed = self.key_of(alloc, n, e)?;
        Ok(PreparedRsaVerifier { scheme, keyed })
    }

    /// Refuses with `UnsupportedAlgorithm`.
    fn rsa_pub_components_from_private_key(
        &self,
        alloc: Global,
        der: &[u8],
    ) -> Result<(Vec<u8>, Vec<u8>)> {
        RsaProvider.rsa_pub_components_from_private_key(alloc, der)
    }

    /// Returns what `RsaProvider` does.
    fn rsa_pub_components_from_public_key(
        &self,
        alloc: Global,
        der: &[u8],
    ) -> Result<(Vec<u8>, Vec<u8>)> {
        RsaProvider.rsa_pub_components_from_public_key(alloc, der)
    }

    /// Refuses with `UnsupportedAlgorithm`.
    fn ec_pub_components_from_private_key(
        &self,
        alloc: Global,
        der: &[u8],
        algorithm: Algorithm,
    ) -> Result<(EllipticCurve, Vec<u8>, Vec<u8>)> {
        RsaProvider.ec_pub_components_from_private_key(alloc, der, algorithm)
    }

    /// Refuses with `UnsupportedAlgorithm`.
    fn ed_pub_components_from_private_key(
        &self,
        alloc: Global,
        der: &[u8],
        curve: &EllipticCurve,
    ) -> Result<Vec<u8>> {
        RsaProvider.ed_pub_components_from_private_key(alloc, der, curve)
    }

    /// Returns the digest by SHA-2. The only refusal is `OutOfMemory`.
    fn compute_digest(&self, alloc: Global, bytes: &[u8], hash: ThumbprintHash) -> Result<Vec<u8>> {
        RsaProvider.compute_digest(alloc, bytes, hash)
    }

    ghost same_family = { λ p a k h. family_made a k h };
}
