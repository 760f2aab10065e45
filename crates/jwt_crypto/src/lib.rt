//! Providers of signatures that need no arithmetic of public keys.
//!
//! [`HmacProvider`] signs and verifies with HMAC (RFC 2104) over SHA-2: HS256, HS384 and HS512 (RFC
//! 7518 section 3.2). [`PreparedHmac`] does so with secrets that are prepared once.
//! [`VerdictProvider`] has a caller's verdict on a signature that other cryptography has checked,
//! and [`SignatureProvider`] a signature that other cryptography has made.
//!
//! ```rust
//! let provider = PreparedHmac::new(alloc, Algorithm::HS256, b"secret")?; // once
//! // ..
//! decode(alloc, provider, token, &key, &validation, time)
//! ```
#![tactic(auto)]

pub mod comparison;
mod hmac;
mod prepared;
mod prepared_hashers;
mod signature;
mod verdict;

pub use hmac::{Hash, HmacProvider, HmacSigner, HmacVerifier};
pub use prepared::{PreparedHmac, PreparedHmacSigner, PreparedHmacVerifier};
pub use signature::{GivenSigner, NoVerifier, SignatureProvider};
pub use verdict::{NoSigner, VerdictProvider, VerdictVerifier};
