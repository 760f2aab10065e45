//! The verifier by one algorithm and key, whether the key is prepared or not.

ghost use Rattle.std.specs.Prelude.{◌↔◌, IfOk, IsTrue};
ghost use Rattle.jwt_base.specs.KindOf.{IsMemory};
ghost use Rattle.jwt_verifier.specs.KeyVerifiers.{algorithm_by, by_verifier};

use jsonwebtoken::Algorithm;
use jsonwebtoken::crypto::JwtVerifier;
use jsonwebtoken::errors::Result as Checked;
use jwt_crypto::PreparedHmacVerifier;
use jwt_curves::PreparedCurveVerifier;
use jwt_rsa::PreparedRsaVerifier;
use jwt_standard::StandardVerifier;
use std::alloc::Global;

/// Verifies signatures with one algorithm and key.
#[derive(Drop)]
pub enum KeyVerifier<'p> {
    /// With HMAC, by a provider that keeps secrets.
    Secret(PreparedHmacVerifier),
    /// With RSA, by a provider that keeps keys.
    Rsa(PreparedRsaVerifier<'p>),
    /// With ECDSA or EdDSA, by a key that is prepared.
    Curve(PreparedCurveVerifier<'p>),
    /// With any other algorithm and key.
    Other(StandardVerifier),
}

impl<'p> JwtVerifier for KeyVerifier<'p> {
    ghost verifies_by = { λ v. algorithm_by ⟦<PreparedHmacVerifier as JwtVerifier>⟧.verifies_by
        ⟦<PreparedRsaVerifier<'p> as JwtVerifier>⟧.verifies_by
        ⟦<PreparedCurveVerifier<'p> as JwtVerifier>⟧.verifies_by
        ⟦<StandardVerifier as JwtVerifier>⟧.verifies_by
        v };

    ghost accepts = { λ v m s. by_verifier (λ x. ⟦<PreparedHmacVerifier as JwtVerifier>⟧.accepts x m s)
        (λ x. ⟦<PreparedRsaVerifier<'p> as JwtVerifier>⟧.accepts x m s)
        (λ x. ⟦<PreparedCurveVerifier<'p> as JwtVerifier>⟧.accepts x m s)
        (λ x. ⟦<StandardVerifier as JwtVerifier>⟧.accepts x m s) v };

    ghost is_sparing = { λ v. by_verifier ⟦<PreparedHmacVerifier as JwtVerifier>⟧.is_sparing
        ⟦<PreparedRsaVerifier<'p> as JwtVerifier>⟧.is_sparing
        ⟦<PreparedCurveVerifier<'p> as JwtVerifier>⟧.is_sparing
        ⟦<StandardVerifier as JwtVerifier>⟧.is_sparing
        v };

    fn algorithm(&self) -> Algorithm {
        match self {
            KeyVerifier::Secret(verifier) => verifier.algorithm(),
            KeyVerifier::Rsa(verifier) => verifier.algorithm(),
            KeyVerifier::Curve(verifier) => verifier.algorithm(),
            KeyVerifier::Other(verifier) => verifier.algorithm(),
        }
    }

    fn verify(&self, alloc: Global, message: &[u8], signature: &[u8]) -> Checked<bool> {
        match self {
            KeyVerifier::Secret(verifier) => verifier.verify(alloc, message, signature),
            KeyVerifier::Rsa(verifier) => verifier.verify(alloc, message, signature),
            KeyVerifier::Curve(verifier) => verifier.verify(alloc, message, signature),
            KeyVerifier::Other(verifier) => verifier.verify(alloc, message, signature),
        }
    }
}
