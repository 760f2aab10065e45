//! The first test of a token that fails.

ghost use Rattle.jwt_validation.specs.OptionsOf.{options_of};
ghost use Rattle.jsonwebtoken.specs.Finder.{order_by};
ghost use Rattle.jsonwebtoken.specs.Finding.{finding};
ghost use Rattle.jsonwebtoken.specs.Order.{FindsFailed};
ghost use Rattle.jsonwebtoken.specs.private_clauses.Refused.{IsFailedTest};
ghost use Rattle.jsonwebtoken.specs.Tests.{token_tests};

use crate::decoding::{KeyFinder, decode_by_or_refusal};
use crate::refusal::{Refusal, Test};
use jwt_base::errors::{ErrorKind, Result};
use jwt_base::json::Claims;
use jwt_validation::Validation;
use std::alloc::Global;

/// Returns the test of a refusal, if there is one. If memory ran out, no test failed.
pub(crate) fn test_of(refusal: Option<Refusal>) -> Result<Option<Test>>
    ensures { IsFailedTest refusal result }
{
    match refusal {
        None => Ok(None),
        Some(refusal) if matches!(refusal.error.kind(), ErrorKind::OutOfMemory) => {
            Err(refusal.error)
        }
        Some(refusal) => Ok(Some(refusal.test)),
    }
}

/// Returns the first test of [`decode_by`](crate::decode_by) that fails for these arguments, or
/// `None` if none does, and then it accepts the token. The order of the tests is that of `decode_by`,
/// and `time` is in whole seconds since 1970-01-01 00:00:00 UTC. The only refusal is `OutOfMemory`.
///
/// With [`OneKey`](crate::OneKey) these are the tests of [`decode`](crate::decode), and with
/// [`KeysOfSet`](crate::KeysOfSet) those of [`decode_with_set`](crate::decode_with_set). Whoever
/// issued a refused token need not be told which test failed: the answer is for those who run the
/// verifier.
pub fn failed_test<K: KeyFinder, T: Claims>(
    alloc: Global,
    keys: &K,
    token: &[u8],
    validation: &Validation,
    time: u64,
) -> Result<Option<Test>>
    ensures { let call = finding K.KeyFinder T.Claims
        keys.now token.now (options_of validation.now) time in
        FindsFailed (token_tests call) (order_by (K.source keys.now)) result }
{
    let found = decode_by_or_refusal::<K, T>(alloc, keys, token, validation, time);
    test_of(found.err())
}
