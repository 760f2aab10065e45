//! The names that a first program needs, for `use jsonwebtoken::prelude::*;`. `Result` and the
//! other names that `std` has too are left out: name them with their module, such as
//! `errors::Result`.

pub use crate::crypto::CryptoProvider;
pub use crate::crypto::hmac::HmacProvider;
pub use crate::decoding::{TokenData, decode, decode_with_set};
pub use crate::encoding::encode;
pub use crate::jwk::{Jwk, JwkSet};
pub use jwt_base::algorithms::{Algorithm, AlgorithmFamily};
pub use jwt_base::errors::{Error, ErrorKind};
pub use jwt_base::text::{Text, Texts};
pub use jwt_header::Header;
pub use jwt_keys::decoding_key::DecodingKey;
pub use jwt_keys::encoding_key::EncodingKey;
pub use jwt_validation::Validation;
