//! The provider of all twelve algorithms of signed tokens (RFC 7518 section 3.1, RFC 8037 section
//! 3.1).
//!
//! [`StandardProvider`] verifies with HMAC, RSA, ECDSA and EdDSA, and signs with HMAC.
//! [`StandardVerifier`] is its verifier.
//!
//! ```rust
//! let provider = &StandardProvider;
//! let data: TokenData<Value> = decode_with_set(alloc, provider, token, &set, &validation, time)?;
//! ```
#![tactic(auto)]

mod provider;
mod verifier;

pub use provider::StandardProvider;
pub use verifier::StandardVerifier;
