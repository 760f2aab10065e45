//! Signing and verifying: the provider laws, the calls over any lawful provider, the built-in HMAC,
//! a caller's verdicts, signatures that are made elsewhere, and a comparison of signatures.

pub mod hmac;
pub mod signature;
pub mod verdict;

pub use jwt_crypto::comparison::is_same;
pub use jwt_keys::provider::{CryptoProvider, JwtSigner, JwtVerifier, sign, verify};
