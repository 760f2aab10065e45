//! A token, and what it is checked with.

use crate::keys::LoadedKeys;
use jwt_findings::{CheckedKeys, CheckedToken};
use jwt_verifier::Keys;

/// A token, and what it is checked with besides the options.
#[derive(Clone, Copy)]
pub struct Case<'c> {
    pub token: &'c [u8],
    pub loaded: &'c LoadedKeys,
    /// The type that the header has to have, if one is asked for.
    pub typ: Option<&'c str>,
    /// The time, in seconds since 1970-01-01 00:00:00 UTC.
    pub time: u64,
}

impl<'c> Case<'c> {
    /// Returns the token with all that its findings are made of.
    pub fn checked(self) -> CheckedToken<'c> {
        CheckedToken {
            text: self.token,
            keys: match self.loaded.keys.keys() {
                Keys::One(key) => CheckedKeys::One(key),
                Keys::Set(set) => CheckedKeys::Set(set),
            },
            has_line_end: self.loaded.has_line_end,
            typ: self.typ,
            time: self.time,
        }
    }
}
