//! The times at which a token is accepted.

ghost use Rattle.std.specs.Prelude.{◌≡◌};
ghost use Rattle.jwt_validation.specs.OptionsOf.{options_of};
ghost use Rattle.jsonwebtoken.specs.Accepted.{FindsMoments};
ghost use Rattle.jsonwebtoken.specs.Finder.{order_by};
ghost use Rattle.jsonwebtoken.specs.Finding.{finding};
ghost use Rattle.jsonwebtoken.specs.private_clauses.Claimed.{AreClaimed, value_tests};
ghost use Rattle.jsonwebtoken.specs.Steps.{Step};
ghost use Rattle.jsonwebtoken.specs.private_clauses.Steps.{whole};
ghost use Rattle.jsonwebtoken.specs.Tests.{header_call};

use crate::decoding::KeyFinder;
use crate::decoding::steps::{read_json, read_part, token_parts};
use crate::first_failed::{failed_test, test_of};
use crate::refusal::{Refusal, Test};
use jwt_base::errors::Result;
use jwt_base::json::Claims;
use jwt_validation::{Moments, Validation, claimed_moments};
use std::alloc::Global;

/// Returns the first and the last time at which [`decode_by`](crate::decode_by) accepts the token
/// with these arguments, in whole seconds since 1970-01-01 00:00:00 UTC, or `None` if it accepts the
/// token at no time. It is accepted at all times from the first to the last, and at no other
/// (RFC 7519 sections 4.1.4 and 4.1.5). The only refusal is `OutOfMemory`.
///
/// With [`OneKey`](crate::OneKey) these are the times of [`decode`](crate::decode), and with
/// [`KeysOfSet`](crate::KeysOfSet) those of [`decode_with_set`](crate::decode_with_set).
pub fn first_and_last_moment<K: KeyFinder, T: Claims>(
    alloc: Global,
    keys: &K,
    token: &[u8],
    validation: &Validation,
) -> Result<Option<Moments>>
    ensures { let call = finding K.KeyFinder T.Claims
        keys.now token.now (options_of validation.now) 0 in
        FindsMoments call (order_by (K.source keys.now)) result }
{
    let moments = match claim_moments(alloc, token, validation) {
        Ok(moments) => moments,
        Err(refusal) => {
            test_of(Some(refusal))?;
            return Ok(None);
        }
    };
    match failed_test::<K, T>(alloc, keys, token, validation, moments.first)? {
        None => Ok(Some(moments)),
        Some(_) => Ok(None),
    }
}

/// Returns the times that the claims of a token allow, whatever else holds of it.
fn claim_moments(alloc: Global, token: &[u8], validation: &Validation) -> Result<Moments, Refusal>
    ensures { Step (header_call token.now) value_tests whole (AreClaimed
        (options_of validation.now))
        result }
{
    let parts = token_parts(token)?;
    let bytes = read_part(alloc, Test::PayloadIsBase64url, parts.payload)?;
    let value = read_json(alloc, Test::PayloadIsJson, bytes.as_slice())?;
    Ok(claimed_moments(&value, validation))
}
