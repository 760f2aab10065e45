//! The session that a token carries.

ghost use Rattle.jwt_example.specs.Reading.{reading_session};
ghost use Rattle.jwt_validation.specs.OptionsOf.{options_of};
ghost use Rattle.jsonwebtoken.specs.Calls.{HasClaims};
ghost use Rattle.jsonwebtoken.specs.Order.{Decides};
ghost use Rattle.jsonwebtoken.specs.Tests.{set_order, token_tests};

use crate::session::Session;
use jsonwebtoken::crypto::hmac::HmacProvider;
use jsonwebtoken::errors::Result;
use jsonwebtoken::jwk::JwkSet;
use jsonwebtoken::{TokenData, Validation, decode_with_set};
use std::alloc::Global;

/// Returns the session of a token, verified at the time `time`, in seconds since 1970-01-01
/// 00:00:00 UTC, with the key of the set that the token names. Its contract is that of
/// `decode_with_set`, of which the session alone is kept.
pub fn session_of(
    alloc: Global,
    token: &[u8],
    keys: &JwkSet,
    validation: &Validation,
    time: u64,
) -> Result<Session>
    ensures { let call = reading_session token.now keys.now.keys.items
        (options_of validation.now) time in
        Decides (token_tests call) set_order (HasClaims call) result }
{
    let data: TokenData<Session> = decode_with_set(
        alloc,
        &HmacProvider,
        token,
        keys,
        validation,
        time,
    )?;
    let TokenData { header, claims } = data;
    drop(header);
    Ok(claims)
}
