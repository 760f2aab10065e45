//! Refusals that carry the test that failed.

ghost use Rattle.std.specs.Prelude.{◌≡◌};
ghost use Rattle.jwt_base.specs.KindOf.{kind_of, kind_held};
ghost use Rattle.jsonwebtoken.specs.private_clauses.Refused.{IsWithTest, IsWithoutTest};

use jwt_base::errors::{Error, ErrorKind, Result, new_error};

/// A test of a token that [`decode`](crate::decode) or
/// [`decode_with_set`](crate::decode_with_set) makes.
#[derive(Clone, Copy, Debug, PartialEq, Eq)]
pub enum Test {
    /// The text has at least two dots (RFC 7515 section 7.1).
    HasThreeParts,
    /// The header part is canonical base64url (RFC 7515 sections 2 and 5.2).
    HeaderIsBase64url,
    /// The header's bytes are JSON (RFC 7515 section 5.2).
    HeaderIsJson,
    /// Their value reads as a header (RFC 7515 section 4.1).
    HeaderIsValid,
    /// The header's `crit`, if there is one, is understood (RFC 7515 section 4.1.11).
    CritIsUnderstood,
    /// The header has a `kid`, and a key of the set has it too (RFC 7515 section 4.1.4, RFC 7517
    /// section 4.5).
    KeyIsFound,
    /// The first such key has no `alg`, or the header's (RFC 7517 section 4.4).
    KeyAlgMatches,
    /// A key is made of it (RFC 7518 section 6, RFC 8037 section 2).
    KeyIsUsable,
    /// The validation lists an algorithm (RFC 8725 section 3.1).
    AlgorithmsAreConfigured,
    /// The validation lists the header's algorithm (RFC 8725 section 3.1).
    AlgorithmIsAllowed,
    /// The provider makes a verifier for the header's algorithm and the key (RFC 7515 section
    /// 4.1.1).
    KeyFitsAlgorithm,
    /// Every listed algorithm is of the family of the header's (RFC 8725 section 3.1).
    AlgorithmsShareFamily,
    /// The signature part is canonical base64url (RFC 7515 sections 2 and 5.2).
    SignatureIsBase64url,
    /// The verifier accepts the signature's bytes over the header part, the dot and the payload
    /// part (RFC 7515 section 5.2).
    SignatureIsAccepted,
    /// The payload part is canonical base64url (RFC 7515 sections 2 and 5.2).
    PayloadIsBase64url,
    /// The payload's bytes are JSON (RFC 7519 section 7.2).
    PayloadIsJson,
    /// Their value reads as the type of the claims (RFC 7519 section 4).
    ClaimsMatchType,
    /// That value is an object (RFC 7519 section 7.2).
    ClaimsAreAnObject,
    /// The claim rules of [`validate`](crate::validate) hold (RFC 7519 section 4.1).
    ClaimsAreValid,
}

impl Test {
    ghost use Rattle.std.specs.Prelude.{◌≡◌};
    ghost use Rattle.jsonwebtoken.specs.TestName.{test_name};

    /// Returns the name of the test, such as `SignatureIsAccepted`.
    pub fn name(self) -> &'static str
        ensures { result.now ≡ test_name self }
    {
        match self {
            Test::HasThreeParts => "HasThreeParts",
            Test::HeaderIsBase64url => "HeaderIsBase64url",
            Test::HeaderIsJson => "HeaderIsJson",
            Test::HeaderIsValid => "HeaderIsValid",
            Test::CritIsUnderstood => "CritIsUnderstood",
            Test::KeyIsFound => "KeyIsFound",
            Test::KeyAlgMatches => "KeyAlgMatches",
            Test::KeyIsUsable => "KeyIsUsable",
            Test::AlgorithmsAreConfigured => "AlgorithmsAreConfigured",
            Test::AlgorithmIsAllowed => "AlgorithmIsAllowed",
            Test::KeyFitsAlgorithm => "KeyFitsAlgorithm",
            Test::AlgorithmsShareFamily => "AlgorithmsShareFamily",
            Test::SignatureIsBase64url => "SignatureIsBase64url",
            Test::SignatureIsAccepted => "SignatureIsAccepted",
            Test::PayloadIsBase64url => "PayloadIsBase64url",
            Test::PayloadIsJson => "PayloadIsJson",
            Test::ClaimsMatchType => "ClaimsMatchType",
            Test::ClaimsAreAnObject => "ClaimsAreAnObject",
            Test::ClaimsAreValid => "ClaimsAreValid",
        }
    }
}

/// A refusal of a token: the test that failed, and its error.
#[derive(Debug, Drop)]
pub struct Refusal {
    /// The first test that failed. If memory ran out, no test failed, and this is the test that was
    /// being made.
    pub test: Test,
    /// The error of that test. If memory ran out, its kind is `OutOfMemory`.
    pub error: Error,
}

impl Refusal {
    /// Returns the refusal by a test, with an error of this kind.
    pub(crate) fn new(test: Test, kind: ErrorKind) -> Refusal
        ensures test { result.test ≡ test }
        ensures kind { kind_of result.error ≡ kind_held kind }
    {
        Refusal {
            test,
            error: new_error(kind),
        }
    }
}

/// Returns the result of a test, with the test next to its error.
pub(crate) fn with_test<R>(test: Test, made: Result<R>) -> Result<R, Refusal>
    ensures { IsWithTest test made result }
{
    match made {
        Ok(value) => Ok(value),
        Err(error) => Err(Refusal { test, error }),
    }
}

/// Returns the result of a call, without the test next to its error.
pub(crate) fn without_test<R>(outcome: Result<R, Refusal>) -> Result<R>
    ensures { IsWithoutTest outcome result }
{
    match outcome {
        Ok(value) => Ok(value),
        Err(refusal) => Err(refusal.error),
    }
}
