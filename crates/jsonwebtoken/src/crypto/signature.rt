//! A signature that other cryptography has made, as a provider.

pub use jwt_crypto::{GivenSigner, NoVerifier, SignatureProvider};
