//! The tests of a token in its compact form, over any finder of keys.

// `read_claims` makes all tests that follow those of the header. The four calls that are public put
// header and claims together themselves: a function that returns them to another moves the header,
// which is large, once more for each token, and so does `?`.

ghost use Rattle.std.specs.Prelude.{◌≡◌, ◌⊎◌, ◌↔◌, ◌++◌, ℕ, List, [], Option, Some, None, IfOk};
ghost use Rattle.std.specs.Prelude.{IsErrAnd};
ghost use Rattle.jwt_base.specs.KindOf.{IsMemory};
ghost use Rattle.jwt_base.specs.declared.algorithms.AlgorithmFamily.{AlgorithmFamily as Family};
ghost use Rattle.jwt_validation.specs.Options.{Options};
ghost use Rattle.jwt_validation.specs.OptionsOf.{options_of};
ghost use Rattle.jsonwebtoken.specs.Calls.{Carries};
ghost use Rattle.jsonwebtoken.specs.Family.{AcceptsByFamily, AreOfOneFamily, ByFamily, KeepsToKey};
ghost use Rattle.jsonwebtoken.specs.Family.{family_by, with_family};
ghost use Rattle.jsonwebtoken.specs.Finder.{IsOwnOf, order_by, tests_after_header};
ghost use Rattle.jsonwebtoken.specs.Finding.{finding};
ghost use Rattle.jsonwebtoken.specs.Laws.{HasLaws};
ghost use Rattle.jsonwebtoken.specs.Order.{Decides};
ghost use Rattle.jsonwebtoken.specs.Own.{with_algorithms, with_own};
ghost use Rattle.jsonwebtoken.specs.Refused.{DecidesByTest};
ghost use Rattle.jsonwebtoken.specs.Steps.{Finds, Step};
ghost use Rattle.jsonwebtoken.specs.private_clauses.Steps.{ShowsClaims};
ghost use Rattle.jsonwebtoken.specs.private_clauses.Asking.{given_key, options_asked};
ghost use Rattle.jsonwebtoken.specs.private_clauses.Steps.{parts_in};
ghost use Rattle.jsonwebtoken.specs.private_clauses.Steps.{with_opening};
ghost use Rattle.jsonwebtoken.specs.Tests.{Compact, KeyFitsAlgorithm, algorithm_tests, token_tests};
ghost use Rattle.jsonwebtoken.specs.Tests.{verifying_tests};

use crate::decoding::TokenData;
use crate::decoding::crit::check_crit;
use crate::decoding::finder::KeyFinder;
use crate::decoding::parts::{Asked, Opening};
use crate::decoding::steps::{
    check_families, check_listed, check_some_listed, read_header, read_header_noting, token_parts,
    verify_and_read_claims,
};
use crate::refusal::{Refusal, Test};
use jwt_base::algorithms::Algorithm;
use jwt_base::errors::Result;
use jwt_base::json::Claims;
use jwt_header::Header;
use jwt_validation::Validation;
use std::alloc::Global;

/// Verifies a token in its compact form with the key that the finder finds, at the time `time`, in
/// whole seconds since 1970-01-01 00:00:00 UTC, and returns its header and its claims.
///
/// The tests are those of [`decode`](crate::decode), in the same order, and have its errors. If the
/// finder's keys are a set, those of the key stand between them, as in
/// [`decode_with_set`](crate::decode_with_set): `NoKey`, `InvalidAlgorithm`, or the kind with which
/// the key can't be used. If memory runs out, the error is `OutOfMemory`.
pub fn decode_by<K: KeyFinder, T: Claims>(
    alloc: Global,
    keys: &K,
    token: &[u8],
    validation: &Validation,
    time: u64,
) -> Result<TokenData<T>>
    ensures decided { let call = finding K.KeyFinder T.Claims
        keys.now token.now (options_of validation.now) time in
        Decides (token_tests call) (order_by (K.source keys.now)) (Carries call) result }
    ensures laws { HasLaws
        (finding K.KeyFinder T.Claims keys.now token.now (options_of validation.now) time)
        (order_by (K.source keys.now)) (List ℕ) Compact token.now }
{
    let parts = match token_parts(token) {
        Ok(parts) => parts,
        Err(refusal) => return Err(refusal.error),
    };
    let mut failed = Test::HasThreeParts;
    let header = match read_header_noting(alloc, parts.header, &mut failed) {
        Ok(header) => header,
        Err(error) => return Err(error),
    };
    let opening = Opening {
        parts: &parts,
        header: &header,
    };
    let asked = Asked {
        algorithms: validation.algorithms.as_slice(),
        family: None,
        validation,
        time,
    };
    match read_claims(alloc, keys, &opening, &asked) {
        Ok(claims) => Ok(TokenData { header, claims }),
        Err(refusal) => {
            // one drop
            drop(header);
            Err(refusal.error)
        }
    }
}

/// Verifies a token like [`decode_by`]; a refusal has the first test that fails, and its error. If
/// memory ran out, the refusal's error is `OutOfMemory`.
pub fn decode_by_or_refusal<K: KeyFinder, T: Claims>(
    alloc: Global,
    keys: &K,
    token: &[u8],
    validation: &Validation,
    time: u64,
) -> Result<TokenData<T>, Refusal>
    ensures { let call = finding K.KeyFinder T.Claims
        keys.now token.now (options_of validation.now) time in
        DecidesByTest (token_tests call) (order_by (K.source keys.now)) (Carries call) result }
{
    let parts = token_parts(token)?;
    let mut failed = Test::HasThreeParts;
    let header = match read_header_noting(alloc, parts.header, &mut failed) {
        Ok(header) => header,
        Err(error) => return Err(Refusal {
            test: failed,
            error,
        }),
    };
    let opening = Opening {
        parts: &parts,
        header: &header,
    };
    let asked = Asked {
        algorithms: validation.algorithms.as_slice(),
        family: None,
        validation,
        time,
    };
    match read_claims(alloc, keys, &opening, &asked) {
        Ok(claims) => Ok(TokenData { header, claims }),
        Err(refusal) => {
            drop(header);
            Err(refusal)
        }
    }
}

/// Verifies a token like [`decode_by_or_refusal`], for algorithms of several families: only those of
/// the family of the token's key are accepted (RFC 8725 section 3.1).
///
/// The key is the one that the finder finds. If no algorithm of `validation` is of its family, all of
/// them stay, and the token is refused. With algorithms of one family the result is that of
/// [`decode_by_or_refusal`].
pub fn decode_by_family<K: KeyFinder, T: Claims>(
    alloc: Global,
    keys: &K,
    token: &[u8],
    validation: &Validation,
    time: u64,
) -> Result<TokenData<T>, Refusal>
    // The result is that of `decode_by_or_refusal` with the algorithms of the key's family. The
    // token's `alg` does not choose the family.
    ensures decided { ByFamily (finding K.KeyFinder T.Claims
        keys.now token.now (options_of validation.now) time) token.now
        (λ call. DecidesByTest (token_tests call) (order_by (K.source keys.now)) (Carries call)
        result) }

    // A token is accepted if and only if `decode_by_or_refusal` accepts it with the algorithms of
    // one family that `validation` lists.
    ensures accepts { let call = finding K.KeyFinder T.Claims
        keys.now token.now (options_of validation.now) time in
        AcceptsByFamily call (order_by (K.source keys.now)) (Carries call) result }

    // With algorithms of one family, the result is that of `decode_by_or_refusal`.
    ensures one_family { let call = finding K.KeyFinder T.Claims
        keys.now token.now (options_of validation.now) time in
        AreOfOneFamily call.options.algorithms
        → DecidesByTest (token_tests call) (order_by (K.source keys.now)) (Carries call) result }

    // Whatever the family, a token is accepted only with a listed algorithm of its key's family,
    // which is the key's own `alg` if it has one.
    ensures fits { let call = finding K.KeyFinder T.Claims
        keys.now token.now (options_of validation.now) time in
        (f : Option Family) → KeepsToKey call (with_family call f)
        (order_by (K.source keys.now)) }

    // The laws of `decode_by` hold.
    ensures laws { (f : Option Family) → HasLaws
        (with_family (finding K.KeyFinder T.Claims
        keys.now token.now (options_of validation.now) time) f)
        (order_by (K.source keys.now)) (List ℕ) Compact token.now }
{
    let parts = match token_parts(token) {
        Ok(parts) => parts,
        Err(refusal) => return Err(refusal),
    };
    let mut test = Test::HasThreeParts;
    let header = match read_header_noting(alloc, parts.header, &mut test) {
        Ok(header) => header,
        Err(error) => return Err(Refusal { test, error }),
    };
    let opening = Opening {
        parts: &parts,
        header: &header,
    };
    match read_claims_by_family(alloc, keys, &opening, validation, time) {
        Ok(claims) => Ok(TokenData { header, claims }),
        Err(refusal) => {
            drop(header);
            Err(refusal)
        }
    }
}

/// Verifies a token like [`decode_by_or_refusal`], with the algorithm of its key alone (RFC 8725
/// section 3.1), and returns that algorithm and the result.
///
/// The key is the one that the finder finds, and its own `alg` is accepted instead of the
/// algorithms of `validation`. If it has none, no key is found, or the finder has no set, no
/// algorithm is accepted. If memory runs out before the header is read, no algorithm is returned.
pub fn decode_by_own_algorithm<K: KeyFinder, T: Claims>(
    alloc: Global,
    keys: &K,
    token: &[u8],
    validation: &Validation,
    time: u64,
) -> (Option<Algorithm>, Result<TokenData<T>, Refusal>)
    // The algorithm is never that of the token, whose header is not verified.
    ensures own { IsOwnOf (K.source keys.now) token.now result.0
        ⊎ ((result.0 ≡ None) × IsErrAnd result.1 (λ refusal. IsMemory refusal.error)) }

    // The result is that of `decode_by_or_refusal` with just this algorithm.
    ensures decided { let call = with_own (finding K.KeyFinder T.Claims
        keys.now token.now (options_of validation.now) time) result.0 in
        DecidesByTest (token_tests call) (order_by (K.source keys.now)) (Carries call) result.1 }
{
    let parts = match token_parts(token) {
        Ok(parts) => parts,
        Err(refusal) => return (None, Err(refusal)),
    };
    let header = match read_header(alloc, parts.header) {
        Ok(header) => header,
        Err(refusal) => return (None, Err(refusal)),
    };
    let own = keys.own_algorithm(&header);
    let opening = Opening {
        parts: &parts,
        header: &header,
    };
    let asked = Asked {
        algorithms: own.as_slice(),
        family: None,
        validation,
        time,
    };
    match read_claims(alloc, keys, &opening, &asked) {
        Ok(claims) => (own, Ok(TokenData { header, claims })),
        Err(refusal) => {
            drop(header);
            (own, Err(refusal))
        }
    }
}

/// Returns the claims of a token that passes, by the key that the finder finds, the tests that
/// follow those of its header.
fn read_claims<K: KeyFinder, T: Claims>(
    alloc: Global,
    keys: &K,
    opening: &Opening<'_>,
    asked: &Asked<'_>,
) -> Result<T, Refusal>
    ensures { let call = finding K.KeyFinder T.Claims
        keys.now [] (options_asked asked.now) asked.now.time in
        Step call (tests_after_header (K.source keys.now))
        (with_opening (parts_in opening.now.parts.now) opening.now.header.now)
        (ShowsClaims T.reads) result }
{
    check_crit(opening.header, asked.validation)?;
    let found = keys.find(alloc, opening.header)?;
    // named for the proof
    let claims = verify_by(alloc, keys, &found, opening, asked)?;
    Ok(claims)
}

/// Returns the claims of a token like [`read_claims`], with the algorithms of its key's family.
fn read_claims_by_family<K: KeyFinder, T: Claims>(
    alloc: Global,
    keys: &K,
    opening: &Opening<'_>,
    validation: &Validation,
    time: u64,
) -> Result<T, Refusal>
    ensures { let call = with_family (finding K.KeyFinder T.Claims
        keys.now [] (options_of validation.now) time)
        (family_by (K.source keys.now) opening.now.header.now) in
        Step call (tests_after_header (K.source keys.now))
        (with_opening (parts_in opening.now.parts.now) opening.now.header.now)
        (ShowsClaims T.reads) result }
{
    check_crit(opening.header, validation)?;
    let found = keys.find(alloc, opening.header)?;
    let asked = Asked {
        algorithms: validation.algorithms.as_slice(),
        family: Some(keys.family(&found)),
        validation,
        time,
    };
    // named for the proof
    let claims = verify_by(alloc, keys, &found, opening, &asked)?;
    Ok(claims)
}

/// Returns the claims of a token that passes, by the key, the tests of the algorithm and those that
/// follow them.
fn verify_by<K: KeyFinder, T: Claims>(
    alloc: Global,
    keys: &K,
    found: &K::Found,
    opening: &Opening<'_>,
    asked: &Asked<'_>,
) -> Result<T, Refusal>
    ensures { let call = given_key (finding K.KeyFinder T.Claims
        keys.now [] (options_asked asked.now) asked.now.time) (K.key keys.now found.now) in
        Step call (algorithm_tests ++ verifying_tests)
        (with_opening (parts_in opening.now.parts.now) opening.now.header.now)
        (ShowsClaims T.reads) result }
{
    let algorithm = opening.header.alg;
    check_some_listed(asked.algorithms)?;
    check_listed(asked.algorithms, asked.family, algorithm)?;
    let verifier = match make_verifier(alloc, keys, found, algorithm) {
        Ok(verifier) => verifier,
        Err(refusal) => return Err(refusal),
    };
    check_families(asked.algorithms, asked.family, algorithm)?;
    let claims = verify_and_read_claims(
        alloc,
        &verifier,
        opening.parts,
        asked.validation,
        asked.time,
    )?;
    Ok(claims)
}

/// Returns the verifier that is made for the algorithm and the key.
pub(crate) fn make_verifier<K: KeyFinder>(
    alloc: Global,
    keys: &K,
    found: &K::Found,
    algorithm: Algorithm,
) -> Result<K::Verifier, Refusal>
    ensures made { let refusal = K.refusal keys.now algorithm (K.key keys.now found.now) in
        Finds KeyFitsAlgorithm (λ _. refusal ≡ None) (refusal ≡ None → ⊥)
        (λ k. refusal ≡ Some k) result }
    ensures accepts { IfOk result (λ v. (m s : List ℕ) → K.Verifier.accepts v m s
        ↔ K.accepts keys.now algorithm (K.key keys.now found.now) m s) }
{
    // neither by a call nor by `?`, which would move the verifier once more
    match keys.verifier(alloc, algorithm, found) {
        Ok(verifier) => Ok(verifier),
        Err(error) => Err(Refusal {
            test: Test::KeyFitsAlgorithm,
            error,
        }),
    }
}
