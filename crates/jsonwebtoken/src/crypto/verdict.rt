//! The provider of a caller's verdict on one signature, which was checked by cryptography
//! elsewhere.

pub use jwt_crypto::{VerdictProvider, VerdictVerifier};
