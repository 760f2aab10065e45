//! The tests of one condition, and the steps that the calls that read tokens share. Each makes some
//! tests of an order that stand one after the other, and a refusal carries the one that fails.

// Dots are found from the end by `memchr`'s reverse search, so that a long payload is not walked
// byte by byte. The header is lent, not held, since a large value that is owned when a call may be
// refused is proved to be dropped at each such place. A call ends with `Ok(x)` after `let x = f()?`
// if its proof says of `x` which tests it has passed: without a name the proof has to repeat the
// callee's case split. The claim rules look at a payload's value first, and then it is given up to
// the claims, but the claims' refusal is returned first.

ghost use Rattle.std.specs.Prelude.{◌≡◌, ◌⊎◌, ◌↔◌, ◌++◌, ◌∷◌, ℕ, List, Option, Some, None, IfOk};
ghost use Rattle.std.specs.Prelude.{IfErr};
ghost use Rattle.std.specs.Prelude.{IfSome, IfNone, IsSome, IsTrue, Contains, [], All};
ghost use Rattle.std.specs.List.{Any};
ghost use Rattle.serde_json.specs.Data.{Data};
ghost use Rattle.serde_json.specs.Find.{as_object};
ghost use Rattle.serde_json.specs.View.{view};
ghost use Rattle.jwt_base.specs.Algorithm.{family_of};
ghost use Rattle.jwt_base.specs.Base64Url.{IsPart};
ghost use Rattle.jwt_base.specs.JsonText.{IsJson};
ghost use Rattle.jwt_base.specs.Kind as kind;
ghost use Rattle.jwt_base.specs.KindOf.{IsMemory};
ghost use Rattle.jwt_base.specs.declared.algorithms.AlgorithmFamily.{AlgorithmFamily as Family};
ghost use Rattle.jwt_header.specs.Header.{new_header};
ghost use Rattle.jwt_validation.specs.OptionsOf.{options_of};
ghost use Rattle.jsonwebtoken.specs.Family.{left_for};
ghost use Rattle.jsonwebtoken.specs.private_clauses.Refused.{tested};
ghost use Rattle.jsonwebtoken.specs.Steps.{Asks, Finds, Step};
ghost use Rattle.jsonwebtoken.specs.private_clauses.Steps.{ShowsNothing};
ghost use Rattle.jsonwebtoken.specs.private_clauses.Steps.{ShowsHeader, ShowsClaims, bare};
ghost use Rattle.jsonwebtoken.specs.private_clauses.Steps.{parts_in, with_header_part};
ghost use Rattle.jsonwebtoken.specs.private_clauses.Steps.{with_payload_part, with_parts};
ghost use Rattle.jsonwebtoken.specs.private_clauses.Steps.{with_value};
ghost use Rattle.jsonwebtoken.specs.private_clauses.Steps.{accepting, claiming, holding};
ghost use Rattle.jsonwebtoken.specs.private_clauses.Steps.{reading, rule_tests, verifying_by};
ghost use Rattle.jsonwebtoken.specs.Tests.{dot, Parts, ArePartsOf, Test, HasThreeParts};
ghost use Rattle.jsonwebtoken.specs.Tests.{AlgorithmsAreConfigured};
ghost use Rattle.jsonwebtoken.specs.Tests.{AlgorithmIsAllowed, AlgorithmsShareFamily};
ghost use Rattle.jsonwebtoken.specs.Tests.{SignatureIsAccepted, ClaimsMatchType, ClaimsAreAnObject};
ghost use Rattle.jsonwebtoken.specs.Tests.{ClaimsAreValid, header_tests};
ghost use Rattle.jsonwebtoken.specs.Tests.{signature_tests, payload_tests, claim_tests};
ghost use Rattle.jsonwebtoken.specs.Tests.{verifying_tests};

use crate::decoding::crit::check_crit;
use crate::decoding::parts::{Opening, TokenParts};
use crate::known_headers::known_algorithm;
use crate::refusal::{Refusal, Test, with_test};
use jwt_base::algorithms::{Algorithm, AlgorithmFamily};
use jwt_base::errors::{ErrorKind, Result};
use jwt_base::json::Claims;
use jwt_base::serialization::{json_value, part_bytes};
use jwt_base::text::Text;
use jwt_header::{Extras, Header};
use jwt_keys::provider::JwtVerifier;
use jwt_validation::{Validation, validate};
use memchr::memrchr;
use serde_json::Value;
use std::alloc::Global;

/// Refuses an empty list with `MissingAlgorithm`.
pub(crate) fn check_some_listed(algorithms: &[Algorithm]) -> Result<(), Refusal>
    ensures { (f : Option Family)
        → Asks AlgorithmsAreConfigured (¬ (left_for f algorithms.now ≡ []))
        (λ k. k ≡ kind.MissingAlgorithm) result }
{
    if algorithms.is_empty() {
        return Err(Refusal::new(Test::AlgorithmsAreConfigured, ErrorKind::MissingAlgorithm));
    }
    Ok(())
}

/// Refuses an algorithm that is not among those that are left for the family with
/// `InvalidAlgorithm`.
pub(crate) fn check_listed(
    algorithms: &[Algorithm],
    family: Option<AlgorithmFamily>,
    algorithm: Algorithm,
) -> Result<(), Refusal>
    ensures { Asks AlgorithmIsAllowed (Contains (left_for family algorithms.now) algorithm)
        (λ k. k ≡ kind.InvalidAlgorithm) result }
{
    if is_allowed(algorithms, family, algorithm) {
        Ok(())
    } else {
        Err(Refusal::new(Test::AlgorithmIsAllowed, ErrorKind::InvalidAlgorithm))
    }
}

/// Refuses with `InvalidAlgorithm` if an algorithm that is left for the family is of another one
/// than the token's.
pub(crate) fn check_families(
    algorithms: &[Algorithm],
    family: Option<AlgorithmFamily>,
    algorithm: Algorithm,
) -> Result<(), Refusal>
    ensures { Asks AlgorithmsShareFamily
        (All (λ b. family_of b ≡ family_of algorithm) (left_for family algorithms.now))
        (λ k. k ≡ kind.InvalidAlgorithm) result }
{
    if share_family(algorithms, family, algorithm) {
        Ok(())
    } else {
        Err(Refusal::new(Test::AlgorithmsShareFamily, ErrorKind::InvalidAlgorithm))
    }
}

/// Returns whether an algorithm is among those that are left for the family.
fn is_allowed(
    algorithms: &[Algorithm],
    family: Option<AlgorithmFamily>,
    algorithm: Algorithm,
) -> bool
    ensures { IsTrue result ↔ Contains (left_for family algorithms.now) algorithm }
{
    match family {
        None => is_listed(algorithms, algorithm),
        Some(family) => is_left(algorithms, family, algorithm),
    }
}

fn is_left(algorithms: &[Algorithm], family: AlgorithmFamily, algorithm: Algorithm) -> bool
    ensures { IsTrue result ↔ Contains (left_for (Some family) algorithms.now) algorithm }
{
    is_listed(algorithms, algorithm)
        && (is_of(algorithm, family) || !has_family(algorithms, family))
}

/// Returns whether all algorithms that are left for the family are of the algorithm's.
fn share_family(
    algorithms: &[Algorithm],
    family: Option<AlgorithmFamily>,
    algorithm: Algorithm,
) -> bool
    ensures { IsTrue result
        ↔ All (λ b. family_of b ≡ family_of algorithm) (left_for family algorithms.now) }
{
    match family {
        None => are_all_of(algorithms, algorithm.family()),
        Some(family) => left_are_of(algorithms, family, algorithm),
    }
}

fn left_are_of(algorithms: &[Algorithm], family: AlgorithmFamily, algorithm: Algorithm) -> bool
    ensures { IsTrue result
        ↔ All (λ b. family_of b ≡ family_of algorithm) (left_for (Some family) algorithms.now) }
{
    if has_family(algorithms, family) {
        return is_of(algorithm, family);
    }
    are_all_of(algorithms, algorithm.family())
}

fn is_listed(algorithms: &[Algorithm], algorithm: Algorithm) -> bool
    ensures { IsTrue result ↔ Contains algorithms.now algorithm }
{
    algorithms.contains(&algorithm)
}

fn is_of(algorithm: Algorithm, family: AlgorithmFamily) -> bool
    ensures { IsTrue result ↔ (family_of algorithm ≡ family) }
{
    algorithm.family() == family
}

fn has_family(algorithms: &[Algorithm], family: AlgorithmFamily) -> bool
    ensures { IsTrue result ↔ Any (λ a. family_of a ≡ family) algorithms.now }
{
    algorithms.iter().any(|a| a.family() == family)
}

fn are_all_of(algorithms: &[Algorithm], family: AlgorithmFamily) -> bool
    ensures { IsTrue result ↔ All (λ a. family_of a ≡ family) algorithms.now }
{
    algorithms.iter().all(|a| a.family() == family)
}

/// Returns the parts of the token. A token with fewer than two dots is refused with `InvalidToken`.
pub(crate) fn token_parts(token: &[u8]) -> Result<TokenParts<'_>, Refusal>
    ensures { Finds HasThreeParts (λ p. ArePartsOf token.now (parts_in p))
        ((p : Parts) → ¬ ArePartsOf token.now p) (λ k. k ≡ kind.InvalidToken) result }
{
    find_parts(token).ok_or(Refusal::new(Test::HasThreeParts, ErrorKind::InvalidToken))
}

/// Returns the bytes of a part, for this test.
pub(crate) fn read_part(alloc: Global, test: Test, part: &[u8]) -> Result<Vec<u8>, Refusal>
    ensures { Finds test (λ b. IsPart part.now b.items) ((b : List ℕ) → ¬ IsPart part.now b)
        (λ k. k ≡ kind.Base64) result }
{
    with_test(test, part_bytes(alloc, part))
}

/// Returns the JSON value of bytes, for this test.
pub(crate) fn read_json(alloc: Global, test: Test, bytes: &[u8]) -> Result<Value, Refusal>
    ensures { Finds test (λ v. IsJson bytes.now (view v)) ((d : Data) → ¬ IsJson bytes.now d)
        (λ k. k ≡ kind.Json) result }
{
    with_test(test, json_value(alloc, bytes))
}

/// Returns the header that a header part stands for, and notes the test that fails. Four parts are
/// known by their texts, without being read. The test is noted next to the result, so that no
/// header is moved into a result of another type.
// A call that returns a header clears the room for it first, and moves it afterwards, so the known
// one is made here.
#[inline(always)]
pub(crate) fn read_header_noting(alloc: Global, part: &[u8], failed: &mut Test) -> Result<Header>
    ensures { Step bare header_tests (with_header_part part.now) ShowsHeader
        (tested failed.new result) }
{
    if let Some(algorithm) = known_algorithm(part) {
        *failed = Test::HeaderIsValid;
        let typ = Text::from_str(alloc, "JWT")?;
        // as `Header::new` makes it
        return Ok(Header {
            alg: algorithm,
            typ: Some(typ),
            cty: None,
            jku: None,
            jwk: None,
            kid: None,
            x5u: None,
            x5t: None,
            x5t_s256: None,
            url: None,
            nonce: None,
            x5c: None,
            crit: None,
            enc: None,
            zip: None,
            extras: Extras::new(alloc),
        });
    }
    *failed = Test::HeaderIsBase64url;
    let bytes = part_bytes(alloc, part)?;
    *failed = Test::HeaderIsJson;
    let value = json_value(alloc, bytes.as_slice())?;
    *failed = Test::HeaderIsValid;
    Header::from_value(alloc, &value)
}

/// Returns the header that a header part stands for.
pub(crate) fn read_header(alloc: Global, part: &[u8]) -> Result<Header, Refusal>
    ensures { Step bare header_tests (with_header_part part.now) ShowsHeader result }
{
    let mut failed = Test::HeaderIsBase64url;
    let header = read_header_noting(alloc, part, &mut failed);
    with_test(failed, header)
}

/// Returns the claims of a token whose signature the verifier accepts, and whose claims hold at the
/// time.
pub(crate) fn verify_and_read_claims<V: JwtVerifier, T: Claims>(
    alloc: Global,
    verifier: &V,
    parts: &TokenParts<'_>,
    validation: &Validation,
    time: u64,
) -> Result<T, Refusal>
    ensures { Step
        (verifying_by T.reads (options_of validation.now) time (V.accepts verifier.now))
        verifying_tests (with_parts (parts_in parts.now)) (ShowsClaims T.reads) result }
{
    check_signature(alloc, verifier, parts)?;
    read_claims(alloc, parts.payload, validation, time)
}

/// Returns the claims that a payload part stands for, to which no rule applies.
pub(crate) fn read_payload<T: Claims>(alloc: Global, part: &[u8]) -> Result<T, Refusal>
    ensures { Step (reading T.reads) payload_tests (with_payload_part part.now)
        (ShowsClaims T.reads) result }
{
    let bytes = read_part(alloc, Test::PayloadIsBase64url, part)?;
    let value = read_json(alloc, Test::PayloadIsJson, bytes.as_slice())?;
    claims_of_value(alloc, value)
}

/// Returns the parts of the token, found from its end.
fn find_parts(token: &[u8]) -> Option<TokenParts<'_>>
    ensures some { IfSome result (λ p. ArePartsOf token.now (parts_in p)) }
    ensures none { IfNone result ((p : Parts) → ¬ ArePartsOf token.now p) }
{
    let (message, signature) = last_dot(token)?;
    let (header, payload) = last_dot(message)?;
    Some(TokenParts {
        message,
        header,
        payload,
        signature,
    })
}

/// Returns the bytes before the last dot, and those after it.
fn last_dot(text: &[u8]) -> Option<(&[u8], &[u8])>
    ensures some { IfSome result (λ p. (text.now ≡ p.0.now ++ dot ∷ p.1.now)
        × (¬ Contains p.1.now dot)) }
    ensures none { IfNone result (¬ Contains text.now dot) }
{
    let at = memrchr(b'.', text)?;
    Some((&text[..at], &text[at + 1..]))
}

fn check_signature<V: JwtVerifier>(
    alloc: Global,
    verifier: &V,
    parts: &TokenParts<'_>,
) -> Result<(), Refusal>
    ensures { Step (accepting (V.accepts verifier.now)) signature_tests
        (with_parts (parts_in parts.now)) ShowsNothing result }
{
    let bytes = read_part(alloc, Test::SignatureIsBase64url, parts.signature)?;
    check_verdict(alloc, verifier, parts.message, bytes.as_slice())
}

/// Refuses with `InvalidSignature` a signature that the verifier does not accept.
fn check_verdict<V: JwtVerifier>(
    alloc: Global,
    verifier: &V,
    message: &[u8],
    signature: &[u8],
) -> Result<(), Refusal>
    ensures { Asks SignatureIsAccepted (V.accepts verifier.now message.now signature.now)
        (λ k. k ≡ kind.InvalidSignature) result }
{
    let verdict = verifier.verify(alloc, message, signature);
    if with_test(Test::SignatureIsAccepted, verdict)? {
        Ok(())
    } else {
        Err(Refusal::new(Test::SignatureIsAccepted, ErrorKind::InvalidSignature))
    }
}

/// Returns the claims that a payload part stands for. The JSON value is lent to the rules and then
/// consumed by the claims, whose refusal comes first.
fn read_claims<T: Claims>(
    alloc: Global,
    part: &[u8],
    validation: &Validation,
    time: u64,
) -> Result<T, Refusal>
    ensures { Step (claiming T.reads (options_of validation.now) time) claim_tests
        (with_payload_part part.now) (ShowsClaims T.reads) result }
{
    let bytes = read_part(alloc, Test::PayloadIsBase64url, part)?;
    let value = read_json(alloc, Test::PayloadIsJson, bytes.as_slice())?;
    let held = check_claims(alloc, &value, validation, time);
    let claims = claims_of_value(alloc, value)?;
    held?;
    Ok(claims)
}

/// Refuses claims that are not an object, or that break a rule.
fn check_claims(
    alloc: Global,
    claims: &Value,
    validation: &Validation,
    time: u64,
) -> Result<(), Refusal>
    ensures { Step (holding (options_of validation.now) time) rule_tests
        (with_value (view claims.now)) ShowsNothing result }
{
    with_test(
        failed_rule(claims),
        validate(alloc, claims, validation, time),
    )
}

/// Returns the test that claims fail which [`validate`] refuses.
fn failed_rule(claims: &Value) -> Test
    ensures { (IsSome (as_object (view claims.now)) × (result ≡ ClaimsAreValid))
        ⊎ ((¬ IsSome (as_object (view claims.now))) × (result ≡ ClaimsAreAnObject)) }
{
    if claims.is_object() {
        Test::ClaimsAreValid
    } else {
        Test::ClaimsAreAnObject
    }
}

/// Returns the claims of a JSON value.
fn claims_of_value<T: Claims>(alloc: Global, value: Value) -> Result<T, Refusal>
    ensures { Finds ClaimsMatchType (λ c. T.reads (view value) c) ((c : T) → ¬ T.reads (view value) c)
        (λ k. k ≡ kind.Json) result }
{
    with_test(Test::ClaimsMatchType, T::from_owned(alloc, value))
}
