//! The verifier of one key.

ghost use Rattle.std.specs.Prelude.{◌≡◌, ◌↔◌, ℕ, List, IsTrue, IfOk, IfErr};
ghost use Rattle.jwt_rsa.specs.RsaSchemes.{algorithm_for, IsSignature};

use crate::key::PublicKey;
use crate::scheme::Scheme;
use jwt_base::algorithms::Algorithm;
use jwt_base::errors::Result;
use jwt_keys::provider::JwtVerifier;
use std::alloc::Global;

/// Verifies RSA signatures with one algorithm and key (RFC 8017 sections 8.1.2 and 8.2.2).
#[derive(Drop)]
pub struct RsaVerifier {
    pub(crate) scheme: Scheme,
    pub(crate) key: PublicKey,
}

impl JwtVerifier for RsaVerifier {
    ghost verifies_by = { λ v. algorithm_for v.scheme };

    ghost accepts = { λ v m s. IsSignature v.scheme v.key.modulus v.key.exponent v.key.bits m s };

    ghost is_sparing = { λ _. ⊥ };

    fn algorithm(&self) -> Algorithm {
        self.scheme.algorithm()
    }

    /// Returns whether these bytes are a signature of the message. The only refusal is
    /// `OutOfMemory`.
    fn verify(&self, alloc: Global, message: &[u8], signature: &[u8]) -> Result<bool> {
        self.key.accepts(alloc, self.scheme, message, signature)
    }
}
