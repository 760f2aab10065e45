//! A provider that accepts every signature.

ghost use Rattle.std.specs.Prelude.{◌≡◌, ℕ, List, Option, Err, None, Some, ⊤, codes};
ghost use Rattle.jwt_base.specs.Kind as kind;
ghost use Rattle.jwt_keys.specs.Provider.{reads_no_key};
ghost use Rattle.jwt_test_providers.specs.law_proofs.Families.{verifier_refusal_of, family_made};

use super::closed::{NoSigner, closed_error};
use jwt_base::algorithms::Algorithm;
use jwt_base::errors::{ErrorKind, Result, new_error};
use jwt_keys::decoding_key::DecodingKey;
use jwt_keys::encoding_key::EncodingKey;
use jwt_keys::provider::{CryptoProvider, JwtVerifier};
use jwt_params::curves::EllipticCurve;
use jwt_params::thumbprints::ThumbprintHash;
use std::alloc::Global;

/// A verifier that accepts every signature.
#[derive(Drop)]
pub struct YesVerifier {
    algorithm: Algorithm,
}

impl JwtVerifier for YesVerifier {
    ghost verifies_by = { λ v. v.algorithm };

    ghost accepts = { λ _ m s. ⊤ };

    ghost is_sparing = { λ _. ⊥ };

    fn algorithm(&self) -> Algorithm {
        self.algorithm
    }

    fn verify(&self, _alloc: Global, _message: &[u8], _signature: &[u8]) -> Result<bool> {
        Ok(true)
    }
}

/// A provider that makes a verifier for each key of the algorithm's family, which accepts every
/// signature; a key of another family is refused with `InvalidKeyFormat`. Every other call is
/// refused with `Provider("closed")`.
#[derive(Debug, Clone, Copy)]
pub struct YesProvider;

impl CryptoProvider for YesProvider {
    type Signer = NoSigner;

    type Verifier = YesVerifier;

    ghost signer_refusal = { λ _ a k. Some (kind.Provider (codes "closed")) };

    ghost verifier_refusal = { λ _ a k. verifier_refusal_of a k };

    ghost sign_refusal = { λ _ a k m. None };

    ghost signs = { λ _ a k m s. ⊥ };

    ghost accepts = { λ _ a k m s. ⊤ };

    ghost is_sparing = { λ _. ⊥ };

    ghost key_answers = { λ _. reads_no_key (kind.Provider (codes "closed"))
        (λ h bytes. Err (kind.Provider (codes "closed"))) };

    fn signer_factory(
        &self,
        alloc: Global,
        _algorithm: &Algorithm,
        _key: &EncodingKey,
    ) -> Result<NoSigner> {
        Err(closed_error(alloc))
    }

    fn verifier_factory(
        &self,
        _alloc: Global,
        algorithm: &Algorithm,
        key: &DecodingKey,
    ) -> Result<YesVerifier> {
        if key.family() == algorithm.family() {
            Ok(YesVerifier {
                algorithm: *algorithm,
            })
        } else {
            Err(new_error(ErrorKind::InvalidKeyFormat))
        }
    }

    fn rsa_pub_components_from_private_key(
        &self,
        alloc: Global,
        _der: &[u8],
    ) -> Result<(Vec<u8>, Vec<u8>)> {
        Err(closed_error(alloc))
    }

    fn rsa_pub_components_from_public_key(
        &self,
        alloc: Global,
        _der: &[u8],
    ) -> Result<(Vec<u8>, Vec<u8>)> {
        Err(closed_error(alloc))
    }

    fn ec_pub_components_from_private_key(
        &self,
        alloc: Global,
        _der: &[u8],
        _algorithm: Algorithm,
    ) -> Result<(EllipticCurve, Vec<u8>, Vec<u8>)> {
        Err(closed_error(alloc))
    }

    fn ed_pub_components_from_private_key(
        &self,
        alloc: Global,
        _der: &[u8],
        _curve: &EllipticCurve,
    ) -> Result<Vec<u8>> {
        Err(closed_error(alloc))
    }

    fn compute_digest(
        &self,
        alloc: Global,
        _bytes: &[u8],
        _hash: ThumbprintHash,
    ) -> Result<Vec<u8>> {
        Err(closed_error(alloc))
    }

    ghost same_family = { λ _ a k h. family_made a k h };
}
