//! JSON Web Tokens (RFC 7519) in their compact form (RFC 7515), with proved contracts.
//!
//! [`decode`] verifies a token with one key, [`decode_with_set`] with the key of a set that its
//! header names, and [`encode`] issues one. [`Validation`] says which claims are accepted. Each
//! call takes a provider of signatures: [`HmacProvider`](crypto::hmac::HmacProvider), the
//! `StandardProvider` of `jwt_standard`, or one of your own. [`prelude`] has the names for a start.
//!
//! ```rust
//! let key = DecodingKey::from_secret(alloc, b"secret")?;
//! let mut validation = Validation::new(alloc, Algorithm::HS256)?;
//! validation.set_audience(alloc, &["my-service"])?;
//! let data: TokenData<Value> = decode(alloc, &HmacProvider, token, &key, &validation, time)?;
//! ```
#![tactic(auto)]

mod accepted_moments;
mod by_signature;
mod by_verdict;
pub mod crypto;
pub mod dangerous;
mod decoding;
mod encoding;
mod first_failed;
pub mod jwk;
pub mod jws;
mod known_headers;
pub mod options;
pub mod prelude;
mod refusal;

pub use accepted_moments::first_and_last_moment;
pub use by_signature::{SigningInput, encode_by_signature, signing_input};
pub use by_verdict::{SignedPart, decode_by_verdict, signed_part};
pub use decoding::{
    KeyFinder, KeysOfSet, OneKey, TokenData, decode, decode_by, decode_by_family,
    decode_by_or_refusal, decode_by_own_algorithm, decode_header, decode_or_refusal,
    decode_with_set, decode_with_set_by_own_algorithm, decode_with_set_or_refusal,
};
pub use encoding::encode;
pub use first_failed::failed_test;
pub use jwt_base::algorithms::{Algorithm, AlgorithmFamily};
pub use jwt_base::text::{Text, Texts};
pub use jwt_base::{errors, json};
pub use jwt_header::{Enc, Extras, Header, Zip};
pub use jwt_keys::decoding_key::{DecodingKey, DecodingKeyKind};
pub use jwt_keys::encoding_key::EncodingKey;
pub use jwt_validation::{
    Clock, Moments, Validation, claimed_moments, get_current_timestamp, validate,
};
pub use refusal::{Refusal, Test};
