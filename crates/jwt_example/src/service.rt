//! A service that issues the tokens of sessions, with keys that are changed from time to time.

use crate::session::Session;
use crate::signing::{SigningKey, add_key, has_id};
use jsonwebtoken::errors::Result;
use jsonwebtoken::prelude::*;
use std::alloc::Global;

/// A service that issues tokens with its newest key. Those of every key of its set are read.
#[derive(Debug, Drop)]
pub struct Service {
    signing: Box<SigningKey>,
    /// The keys whose tokens are read.
    pub keys: JwkSet,
    /// The options that the tokens are checked against.
    pub validation: Box<Validation>,
}

impl Service {
    /// Returns a service with this secret as its first key.
    pub fn new(alloc: Global, id: &str, secret: &[u8]) -> Result<Service> {
        let mut keys = JwkSet::new(alloc);
        let signing = add_key(alloc, &mut keys, id, secret)?;
        Ok(Service {
            signing,
            keys,
            validation: session_validation(alloc)?,
        })
    }

    /// Signs with this secret from now on. The tokens of the keys before it are still read. Keys
    /// must have different ids, since of two keys of one id the first alone counts.
    pub fn rotate(&mut self, alloc: Global, id: &str, secret: &[u8]) -> Result<()> {
        self.signing = add_key(alloc, &mut self.keys, id, secret)?;
        Ok(())
    }

    /// Removes the key of this id, whose tokens are then refused with `NoKey`. A key is retired
    /// once it signs no more and the sessions that it signed have ended.
    pub fn retire(&mut self, id: &str) {
        self.keys.keys.retain(|jwk| !has_id(jwk, id));
    }

    /// Returns the token of a session.
    pub fn issue(&self, alloc: Global, session: &Session) -> Result<String> {
        let signing = &self.signing;
        encode(alloc, &HmacProvider, &signing.header, session, &signing.key)
    }
}

/// Returns options for HS256 alone; the end of the session and the user are required.
fn session_validation(alloc: Global) -> Result<Box<Validation>> {
    let mut validation = Box::new(alloc, Validation::new(alloc, Algorithm::HS256)?)?;
    validation.set_required_spec_claims(alloc, &["exp", "sub"])?;
    Ok(validation)
}
