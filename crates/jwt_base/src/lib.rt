//! The base of every layer of the token library: errors, the names of the algorithms, the base64url
//! parts of a token and the JSON in them, and the small value types.
//!
//! For whoever handles an error or a value of the library: `jsonwebtoken` exports what its callers
//! need of it, as `jsonwebtoken::errors`, `jsonwebtoken::json` and `jsonwebtoken::Algorithm`.
//!
//! [`errors::ErrorKind`] is the kind of a refusal, and `error.kind()` returns it.
//! [`serialization::part_bytes`] reads a part of a token (RFC 7515 section 2), and
//! [`serialization::json_value`] the JSON of its bytes. [`json::Claims`] is the trait of a type of
//! claims: the contracts of `decode` and `encode` speak of its `reads`.
#![tactic(auto)]

pub mod algorithms;
pub mod cloning;
pub mod decimal;
pub mod errors;
pub mod json;
pub mod serialization;
pub mod text;
