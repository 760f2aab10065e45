//! A provider over another: HMAC that requires secrets as long as the code, which RFC 7518 section
//! 3.2 asks and this library leaves to the caller.

ghost use Rattle.std.specs.Prelude.{◌≡◌, ℕ, List, None, Some, ⊤};
ghost use Rattle.jwt_base.specs.Kind as kind;
ghost use Rattle.jwt_crypto.specs.HmacKeys.{hmac_answers, HmacSigns, HmacAccepts};
ghost use Rattle.jwt_test_providers.specs.LongSecrets.{least_length, secret_length, signer_refusal_of};
ghost use Rattle.jwt_test_providers.specs.LongSecrets.{verifier_refusal_of, family_made};

use jwt_base::algorithms::Algorithm;
use jwt_base::errors::{ErrorKind, Result, new_error};
use jwt_crypto::{HmacProvider, HmacSigner, HmacVerifier};
use jwt_keys::decoding_key::DecodingKey;
use jwt_keys::encoding_key::EncodingKey;
use jwt_keys::provider::CryptoProvider;
use jwt_params::curves::EllipticCurve;
use jwt_params::thumbprints::ThumbprintHash;
use std::alloc::Global;

/// `HmacProvider`, but a secret that is shorter than the algorithm's codes is refused with
/// `InvalidKeyFormat`.
#[derive(Debug, Clone, Copy)]
pub struct LongSecrets;

impl CryptoProvider for LongSecrets {
    type Signer = HmacSigner;

    type Verifier = HmacVerifier;

    ghost signer_refusal = { λ _ a k. signer_refusal_of a k };

    ghost verifier_refusal = { λ _ a k. verifier_refusal_of a k };

    ghost sign_refusal = { λ _ a k m. None };

    ghost signs = { λ _ a k m s. HmacSigns a k m s };

    ghost accepts = { λ _ a k m s. HmacAccepts a k m s };

    ghost is_sparing = { λ _. ⊤ };

    ghost key_answers = { λ _. hmac_answers };

    fn signer_factory(
        &self,
        alloc: Global,
        algorithm: &Algorithm,
        key: &EncodingKey,
    ) -> Result<HmacSigner> {
        if key.as_bytes().len() < least_length(*algorithm) {
            return Err(new_error(ErrorKind::InvalidKeyFormat));
        }
        HmacProvider.signer_factory(alloc, algorithm, key)
    }

    fn verifier_factory(
        &self,
        alloc: Global,
        algorithm: &Algorithm,
        key: &DecodingKey,
    ) -> Result<HmacVerifier> {
        if secret_length(key) < least_length(*algorithm) {
            return Err(new_error(ErrorKind::InvalidKeyFormat));
        }
        HmacProvider.verifier_factory(alloc, algorithm, key)
    }

    fn rsa_pub_components_from_private_key(
        &self,
        alloc: Global,
        der: &[u8],
    ) -> Result<(Vec<u8>, Vec<u8>)> {
        HmacProvider.rsa_pub_components_from_private_key(alloc, der)
    }

    fn rsa_pub_components_from_public_key(
        &self,
        alloc: Global,
        der: &[u8],
    ) -> Result<(Vec<u8>, Vec<u8>)> {
        HmacProvider.rsa_pub_components_from_public_key(alloc, der)
    }

    fn ec_pub_components_from_private_key(
        &self,
        alloc: Global,
        der: &[u8],
        algorithm: Algorithm,
    ) -> Result<(EllipticCurve, Vec<u8>, Vec<u8>)> {
        HmacProvider.ec_pub_components_from_private_key(alloc, der, algorithm)
    }

    fn ed_pub_components_from_private_key(
        &self,
        alloc: Global,
        der: &[u8],
        curve: &EllipticCurve,
    ) -> Result<Vec<u8>> {
        HmacProvider.ed_pub_components_from_private_key(alloc, der, curve)
    }

    fn compute_digest(&self, alloc: Global, bytes: &[u8], hash: ThumbprintHash) -> Result<Vec<u8>> {
        HmacProvider.compute_digest(alloc, bytes, hash)
    }

    ghost same_family = { λ _ a k h. family_made a k h };
}

/// Returns the least number of bytes of a secret for this algorithm: as many as its codes have.
fn least_length(algorithm: Algorithm) -> usize
    ensures { result ≡ least_length algorithm }
{
    match algorithm {
        Algorithm::HS256 => 32,
        Algorithm::HS384 => 48,
        Algorithm::HS512 => 64,
        _ => 0,
    }
}

/// Returns the number of bytes of the key.
fn secret_length(key: &DecodingKey) -> usize
    ensures { result ≡ secret_length key.now }
{
    match key.try_get_as_bytes() {
        Ok(bytes) => bytes.len(),
        Err(_) => 0,
    }
}
