//! The verifiers of the four families as one type.

ghost use Rattle.std.specs.Prelude.{◌≡◌, ◌↔◌, ℕ, List, IsTrue, IfOk, IfErr, IsOk};
ghost use Rattle.jwt_standard.specs.StandardVerifiers.{algorithm_by, by_family};

use jwt_base::algorithms::Algorithm;
use jwt_base::errors::Result;
use jwt_crypto::HmacVerifier;
use jwt_curves::{EcdsaVerifier, EdDsaVerifier};
use jwt_keys::provider::JwtVerifier;
use jwt_rsa::RsaVerifier;
use std::alloc::Global;

/// Verifies signatures by one algorithm and key, as the verifier of the algorithm's family does.
#[derive(Drop)]
pub enum StandardVerifier {
    /// With HMAC: HS256, HS384 and HS512. Allocates no memory.
    Hmac(HmacVerifier),
    /// With RSA: RS256, RS384, RS512, PS256, PS384 and PS512.
    Rsa(RsaVerifier),
    /// With ECDSA: ES256 and ES384. Allocates no memory.
    Ec(EcdsaVerifier),
    /// With EdDSA with Ed25519. Allocates no memory.
    Ed(EdDsaVerifier),
}

impl JwtVerifier for StandardVerifier {
    ghost verifies_by = { λ v. algorithm_by ⟦<HmacVerifier as JwtVerifier>⟧.verifies_by
        ⟦<RsaVerifier as JwtVerifier>⟧.verifies_by ⟦<EcdsaVerifier as JwtVerifier>⟧.verifies_by
        ⟦<EdDsaVerifier as JwtVerifier>⟧.verifies_by v };

    ghost accepts = { λ v m s. by_family (λ x. ⟦<HmacVerifier as JwtVerifier>⟧.accepts x m s)
        (λ x. ⟦<RsaVerifier as JwtVerifier>⟧.accepts x m s)
        (λ x. ⟦<EcdsaVerifier as JwtVerifier>⟧.accepts x m s)
        (λ x. ⟦<EdDsaVerifier as JwtVerifier>⟧.accepts x m s) v };

    ghost is_sparing = { λ v. by_family ⟦<HmacVerifier as JwtVerifier>⟧.is_sparing
        ⟦<RsaVerifier as JwtVerifier>⟧.is_sparing ⟦<EcdsaVerifier as JwtVerifier>⟧.is_sparing
        ⟦<EdDsaVerifier as JwtVerifier>⟧.is_sparing v };

    fn algorithm(&self) -> Algorithm {
        match self {
            StandardVerifier::Hmac(verifier) => verifier.algorithm(),
            StandardVerifier::Rsa(verifier) => verifier.algorithm(),
            StandardVerifier::Ec(verifier) => verifier.algorithm(),
            StandardVerifier::Ed(verifier) => verifier.algorithm(),
        }
    }

    /// Returns whether these bytes are accepted as a signature of the message. The only refusal is
    /// `OutOfMemory`, and RSA's alone.
    fn verify(&self, alloc: Global, message: &[u8], signature: &[u8]) -> Result<bool> {
        match self {
            StandardVerifier::Hmac(verifier) => verifier.verify(alloc, message, signature),
            StandardVerifier::Rsa(verifier) => verifier.verify(alloc, message, signature),
            StandardVerifier::Ec(verifier) => verifier.verify(alloc, message, signature),
            StandardVerifier::Ed(verifier) => verifier.verify(alloc, message, signature),
        }
    }
}
