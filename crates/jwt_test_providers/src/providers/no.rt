//! A provider that refuses every call.

ghost use Rattle.std.specs.Prelude.{◌≡◌, ℕ, List, Option, Err, None, Some, codes};
ghost use Rattle.jwt_test_providers.specs.law_proofs.Families.{never_made};
ghost use Rattle.jwt_base.specs.Kind as kind;
ghost use Rattle.jwt_keys.specs.Provider.{reads_no_key};

use super::closed::{NoSigner, NoVerifier, closed_error};
use jwt_base::algorithms::Algorithm;
use jwt_base::errors::Result;
use jwt_keys::decoding_key::DecodingKey;
use jwt_keys::encoding_key::EncodingKey;
use jwt_keys::provider::CryptoProvider;
use jwt_params::curves::EllipticCurve;
use jwt_params::thumbprints::ThumbprintHash;
use std::alloc::Global;

/// A provider that refuses every call with `Provider("closed")`.
#[derive(Debug, Clone, Copy)]
pub struct NoProvider;

impl CryptoProvider for NoProvider {
    type Signer = NoSigner;

    type Verifier = NoVerifier;

    ghost signer_refusal = { λ _ a k. Some (kind.Provider (codes "closed")) };

    ghost verifier_refusal = { λ _ a k. Some (kind.Provider (codes "closed")) };

    ghost sign_refusal = { λ _ a k m. None };

    ghost signs = { λ _ a k m s. ⊥ };

    ghost accepts = { λ _ a k m s. ⊥ };

    ghost is_sparing = { λ _. ⊥ };

    ghost key_answers = { λ _. reads_no_key (kind.Provider (codes "closed"))
        (λ h bytes. Err (kind.Provider (codes "closed"))) };

    fn signer_factory(
        &self,
        alloc: Global,
        _algorithm: &Algorithm,
        _key: &EncodingKey,
    ) -> Result<NoSigner> {
        Err(closed_error(alloc))
    }

    fn verifier_factory(
        &self,
        alloc: Global,
        _algorithm: &Algorithm,
        _key: &DecodingKey,
    ) -> Result<NoVerifier> {
        Err(closed_error(alloc))
    }

    fn rsa_pub_components_from_private_key(
        &self,
        alloc: Global,
        _der: &[u8],
    ) -> Result<(Vec<u8>, Vec<u8>)> {
        Err(closed_error(alloc))
    }

    fn rsa_pub_components_from_public_key(
        &self,
        alloc: Global,
        _der: &[u8],
    ) -> Result<(Vec<u8>, Vec<u8>)> {
        Err(closed_error(alloc))
    }

    fn ec_pub_components_from_private_key(
        &self,
        alloc: Global,
        _der: &[u8],
        _algorithm: Algorithm,
    ) -> Result<(EllipticCurve, Vec<u8>, Vec<u8>)> {
        Err(closed_error(alloc))
    }

    fn ed_pub_components_from_private_key(
        &self,
        alloc: Global,
        _der: &[u8],
        _curve: &EllipticCurve,
    ) -> Result<Vec<u8>> {
        Err(closed_error(alloc))
    }

    fn compute_digest(
        &self,
        alloc: Global,
        _bytes: &[u8],
        _hash: ThumbprintHash,
    ) -> Result<Vec<u8>> {
        Err(closed_error(alloc))
    }

    ghost same_family = { λ _ a k h. never_made h };
}
