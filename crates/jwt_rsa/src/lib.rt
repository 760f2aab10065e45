//! Signatures of RSA (RFC 8017), verified for RS256, RS384, RS512, PS256, PS384 and PS512 (RFC 7518
//! sections 3.3 and 3.5).
//!
//! For services that accept tokens with RSA alone: [`RsaProvider`] is a provider for `decode`, as
//! `decode(alloc, &RsaProvider, token, &key, &validation, time)`. A reference to [`PreparedRsa`] is
//! one too, which keeps what verifying needs of a modulus for many tokens. Who accepts several
//! families takes `jwt_standard`.
//!
//! A modulus has 2048 to 16384 bits and is odd, and an exponent is odd and from 3 to 2^64 - 1;
//! other keys are refused with `InvalidKeyFormat`. Signing is not here: a provider's signer refuses
//! with `UnsupportedAlgorithm`.
#![tactic(auto)]

mod components;
mod kept;
mod key;
mod pkcs1;
mod prepared;
mod prepared_provider;
mod provider;
mod pss;
mod scheme;
mod verifier;

pub use prepared::{PreparedRsa, PreparedRsaVerifier};
pub use provider::RsaProvider;
pub use verifier::RsaVerifier;
