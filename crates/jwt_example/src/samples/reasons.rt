//! Why a token is refused, and when it is accepted.

use crate::fault::Fault;
use crate::samples::secret::{NO_AUDIENCE, TOKEN};
use jsonwebtoken::errors::Result;
use jsonwebtoken::prelude::*;
use jsonwebtoken::{OneKey, decode_or_refusal, first_and_last_moment};
use serde_json::Value;
use std::alloc::Global;
use std::rt::Runtime;

/// Returns why a token is refused, for a log, or `None` if it is accepted.
pub fn refusal_text(
    alloc: Global,
    token: &[u8],
    key: &DecodingKey,
    validation: &Validation,
    time: u64,
) -> Result<Option<String>> {
    match decode_or_refusal::<_, Value>(alloc, &HmacProvider, token, key, validation, time) {
        Ok(_) => Ok(None),
        Err(refusal) => {
            let (test, kind) = (refusal.test.name(), refusal.error.kind().name());
            Ok(Some(format!(in alloc; "{test}: {kind}")?))
        }
    }
}

/// Prints for each of three tokens why it is refused, and when it is accepted.
pub fn show<T: Runtime + AllocGlobal>(rt: &T) -> Result<(), Fault> {
    let alloc = rt.alloc();
    let key = DecodingKey::from_secret(alloc, b"secret")?;
    let validation = Validation::new(alloc, Algorithm::HS256)?;
    show_tokens(rt, &key, &validation)
}

fn show_tokens<T: Runtime + AllocGlobal>(
    rt: &T,
    key: &DecodingKey,
    validation: &Validation,
) -> Result<(), Fault> {
    let alloc = rt.alloc();
    let keys = OneKey {
        provider: &HmacProvider,
        key,
    };
    for token in [TOKEN, NO_AUDIENCE, "a.b"] {
        let token = token.as_bytes();
        let text = refusal_text(alloc, token, key, validation, 2532524952)?;
        let moments = first_and_last_moment::<_, Value>(alloc, &keys, token, validation)?;
        println!(rt; "{text:?} {moments:?}")?;
    }
    Ok(())
}
