//! The set of keys that an issuer publishes.

use crate::fault::Fault;
use crate::published::publish;
use jsonwebtoken::errors::Result;
use jsonwebtoken::prelude::*;
use std::alloc::Global;
use std::rt::Runtime;

/// The public key of RFC 8037 appendix A.2.
const ED_X: &str = "11qYAYKxCrfVS_7TyWQHOg7hcvPapiMlrwIaaPcHURo";

/// Shows that a secret is refused, and the set with a public key.
pub fn show_keys<T: Runtime + AllocGlobal>(rt: &T) -> Result<(), Fault> {
    let alloc = rt.alloc();
    let mut set = JwkSet::new(alloc);
    let refused = publish_secret(alloc, &mut set);
    println!(rt; "{refused:?}")?;
    publish_public(alloc, &mut set)?;
    println!(rt; "{}", set.to_value(alloc)?)?;
    Ok(())
}

fn publish_secret(alloc: Global, set: &mut JwkSet) -> Result<()> {
    let key = DecodingKey::from_secret(alloc, b"the secret of 2026, in 32 bytes.")?;
    publish(alloc, set, &key, Algorithm::HS256)
}

fn publish_public(alloc: Global, set: &mut JwkSet) -> Result<()> {
    let key = DecodingKey::from_ed_components(alloc, ED_X)?;
    publish(alloc, set, &key, Algorithm::EdDSA)
}
