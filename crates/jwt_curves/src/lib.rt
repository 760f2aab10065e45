//! Signatures on curves, verified: EdDSA with Ed25519 (RFC 8037 section 3.1), and ES256 and ES384
//! (RFC 7518 section 3.4). [`PreparedCurve`] is a key that is kept for many tokens.
//!
//! For services that accept tokens of one family of keys: [`EcdsaProvider`] and [`EdDsaProvider`]
//! are providers for `decode`, as `decode(alloc, &EcdsaProvider, token, &key, &validation, time)`.
//! Who accepts several families takes `jwt_standard`, and who verifies many tokens with the same
//! keys `jwt_verifier`, which prepares them.
//!
//! The arithmetic is that of `ecdsa` and `ed25519`, which know nothing of tokens. Signing is not
//! here: a provider's signer refuses with `UnsupportedAlgorithm`.
#![tactic(auto)]

mod curve;
mod eddsa;
mod elliptic;
mod keys;
mod prepared;

pub use eddsa::{EdDsaProvider, EdDsaVerifier};
pub use elliptic::{EcdsaProvider, EcdsaVerifier};
pub use prepared::{PreparedCurve, PreparedCurveVerifier};
