//! A signer and a verifier that no provider makes, and the refusal of a provider that makes none.

ghost use Rattle.std.specs.Prelude.{◌≡◌, ℕ, List, Option, Some, codes};
ghost use Rattle.jwt_base.specs.Kind as kind;
ghost use Rattle.jwt_base.specs.KindOf.{Refuses};

use jwt_base::algorithms::Algorithm;
use jwt_base::errors::{Error, ErrorKind, Result, new_error};
use jwt_keys::provider::{JwtSigner, JwtVerifier};
use std::alloc::Global;

// Returns the error `Provider("closed")`, or `OutOfMemory`.
pub(super) fn closed_error(alloc: Global) -> Error
    ensures { Refuses (Some (kind.Provider (codes "closed"))) result }
{
    match String::from_str(alloc, "closed") {
        Ok(text) => new_error(ErrorKind::Provider(text)),
        Err(refused) => Error::from(refused),
    }
}

/// A signer that signs nothing. No provider makes one.
#[derive(Drop)]
pub struct NoSigner {
    algorithm: Algorithm,
}

impl JwtSigner for NoSigner {
    ghost signs_by = { λ s. s.algorithm };

    ghost sign_refusal = { λ _ m. Some (kind.Provider (codes "closed")) };

    ghost signs = { λ _ m s. ⊥ };

    fn algorithm(&self) -> Algorithm {
        self.algorithm
    }

    fn sign(&self, alloc: Global, _message: &[u8]) -> Result<Vec<u8>> {
        Err(closed_error(alloc))
    }
}

/// A verifier that accepts nothing. No provider makes one.
#[derive(Drop)]
pub struct NoVerifier {
    algorithm: Algorithm,
}

impl JwtVerifier for NoVerifier {
    ghost verifies_by = { λ v. v.algorithm };

    ghost accepts = { λ _ m s. ⊥ };

    ghost is_sparing = { λ _. Unit {0} };

    fn algorithm(&self) -> Algorithm {
        self.algorithm
    }

    fn verify(&self, _alloc: Global, _message: &[u8], _signature: &[u8]) -> Result<bool> {
        Ok(false)
    }
}
