//! The keys of a service: the one that signs, and those that verify.

use crate::published::name;
use jsonwebtoken::errors::Result;
use jsonwebtoken::prelude::*;
use std::alloc::Global;

/// A key that signs, and the header of its tokens, which names it.
#[derive(Debug, Drop)]
pub struct SigningKey {
    pub header: Header,
    pub key: EncodingKey,
}

/// Adds the key that verifies with this secret to the set, and returns the one that signs with it.
pub fn add_key(
    alloc: Global,
    set: &mut JwkSet,
    id: &str,
    secret: &[u8],
) -> Result<Box<SigningKey>> {
    let signing = signing_key(alloc, id, secret)?;
    set.keys.push(verification_key(alloc, id, secret)?)?;
    Ok(signing)
}

/// Returns whether the key has this id.
pub fn has_id(jwk: &Jwk, id: &str) -> bool {
    jwk.common
        .key_id
        .as_ref()
        .is_some_and(|own| own.as_str() == id)
}

fn signing_key(alloc: Global, id: &str, secret: &[u8]) -> Result<Box<SigningKey>> {
    let key = EncodingKey::from_secret(alloc, secret)?;
    let header = Header::new(alloc, Algorithm::HS256)?;
    let mut signing = Box::new(alloc, SigningKey { header, key })?;
    signing.header.kid = Some(Text::from_str(alloc, id)?);
    Ok(signing)
}

fn verification_key(alloc: Global, id: &str, secret: &[u8]) -> Result<Jwk> {
    let key = DecodingKey::from_secret(alloc, secret)?;
    let id = Text::from_str(alloc, id)?;
    let mut jwk = Jwk::from_decoding_key(alloc, &HmacProvider, &key, Some(Algorithm::HS256))?;
    name(&mut jwk, id);
    Ok(jwk)
}
