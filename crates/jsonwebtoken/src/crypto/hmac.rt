//! HMAC (RFC 2104) as a provider of HS256, HS384 and HS512 (RFC 7518 section 3.2).

pub use jwt_crypto::{
    HmacProvider, HmacSigner, HmacVerifier, PreparedHmac, PreparedHmacSigner, PreparedHmacVerifier,
};
