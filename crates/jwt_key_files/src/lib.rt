//! Public keys as files hold them, and ECDSA signatures in DER.
//!
//! [`public_key`] reads the DER (ITU-T X.690) of a SubjectPublicKeyInfo (RFC 5280 section 4.1) or
//! of an RSAPublicKey (RFC 8017 appendix A.1.1), [`pem`] reads either in PEM (RFC 7468), [`jwk`]
//! makes a JSON Web Key of it, and [`certificate`] reads the key of an X.509 certificate,
//! unverified. [`signature`] reads the DER of an ECDSA signature (RFC 3279 section 2.2.3).
//!
//! ```rust
//! let der = my_kms_signs(alloc, message)?; // ECDSA with SHA-256
//! let signature = ecdsa_signature(alloc, der.as_slice(), Algorithm::ES256)?;
//! ```
#![tactic(auto)]

mod block;
pub mod certificate;
pub mod element;
pub mod jwk;
pub mod pem;
pub mod public_key;
mod scheme;
pub mod signature;
mod structures;
