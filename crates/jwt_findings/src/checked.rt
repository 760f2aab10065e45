//! A token that was checked, and what it was checked with.

use jsonwebtoken::DecodingKey;
use jsonwebtoken::jwk::JwkSet;

/// A token, and what it was checked with besides the options.
#[derive(Clone, Copy)]
pub struct CheckedToken<'c> {
    /// The token, without a line end.
    pub text: &'c [u8],
    pub keys: CheckedKeys<'c>,
    /// Whether the key is a secret that ends with a newline.
    pub has_line_end: bool,
    /// The type that the header has to have, if one is asked for.
    pub typ: Option<&'c str>,
    /// The time, in seconds since 1970-01-01 00:00:00 UTC.
    pub time: u64,
}

/// The keys that a token was checked with.
#[derive(Clone, Copy)]
pub enum CheckedKeys<'c> {
    /// One key.
    One(&'c DecodingKey),
    /// A set, in which the header of the token names one.
    Set(&'c JwkSet),
}
