//! Tokens and their parts, and the moments at which they are accepted.

use crate::answer::{Answer, Shown};
use crate::output::{Bytes, Output};
use jsonwebtoken::jwk::Jwk;
use jsonwebtoken::jws::Jws;
use jsonwebtoken::{Algorithm, Moments, SignedPart, SigningInput, TokenData};
use serde_json::Value;
use std::alloc::Global;

impl Output for TokenData<Value> {
    fn show(&self, alloc: Global) -> Answer {
        let mut shown = Shown::new(alloc);
        shown.add("claims", &self.claims);
        shown.put("header", self.header.to_value(alloc).ok());
        shown.end()
    }
}

/// The claims alone.
impl Output for TokenData<u64> {
    fn show(&self, alloc: Global) -> Answer {
        self.claims.show(alloc)
    }
}

impl Output for Jws<Value> {
    fn show(&self, alloc: Global) -> Answer {
        self.to_value(alloc).ok()
    }
}

impl Output for Moments {
    fn show(&self, alloc: Global) -> Answer {
        let mut shown = Shown::new(alloc);
        shown.add("first", &self.first);
        shown.add("last", &self.last);
        shown.end()
    }
}

impl Output for SigningInput {
    fn show(&self, alloc: Global) -> Answer {
        let mut shown = Shown::new(alloc);
        shown.add("algorithm", &self.algorithm);
        shown.add("message", &self.message);
        shown.end()
    }
}

/// The header, and an object of the message and the signature.
impl Output for SignedPart<'_> {
    fn show(&self, alloc: Global) -> Answer {
        let mut signed = Shown::new(alloc);
        signed.add("message", &Bytes(self.message));
        signed.add("signature", &self.signature);
        let mut shown = Shown::new(alloc);
        shown.put("header", self.header.to_value(alloc).ok());
        shown.put("signed", signed.end());
        shown.end()
    }
}

/// A key that is shown as its JSON value alone.
#[derive(Drop)]
pub struct JwkValue(pub Jwk);

impl Output for JwkValue {
    fn show(&self, alloc: Global) -> Answer {
        self.0.to_value(alloc).ok()
    }
}

/// What a verifier of this algorithm says of a signature.
#[derive(Clone, Copy)]
pub struct Verdict {
    pub algorithm: Algorithm,
    pub is_yes: bool,
}

impl Output for Verdict {
    fn show(&self, alloc: Global) -> Answer {
        let mut shown = Shown::new(alloc);
        shown.add("algorithm", &self.algorithm);
        shown.add("verdict", &self.is_yes);
        shown.end()
    }
}
