//! Issuing tokens whose signature is made by cryptography elsewhere.

ghost use Rattle.std.specs.Prelude.{IfOk, string_bytes};
ghost use Rattle.jsonwebtoken.specs.Issue.{Written, issue_tests};
ghost use Rattle.jsonwebtoken.specs.IssueGiven.{signing_order, signing, IsSigningInput};
ghost use Rattle.jsonwebtoken.specs.IssueGiven.{encoding_by_signature, IsSignedElsewhere};
ghost use Rattle.jsonwebtoken.specs.IssueGiven.{DecidesGiven, ReadsBackAsGiven};
ghost use Rattle.jsonwebtoken.specs.Order.{Decides};
ghost use Rattle.jsonwebtoken.specs.private_clauses.IssueSteps.{IssueStep};

use crate::encoding::encode;
use crate::encoding::steps::{claims_part, header_part, with_part};
use jwt_base::algorithms::Algorithm;
use jwt_base::errors::Result;
use jwt_base::json::Claims;
use jwt_crypto::SignatureProvider;
use jwt_header::Header;
use std::alloc::Global;

/// The parts of a token that cryptography elsewhere is asked to sign.
#[derive(Debug, Drop)]
pub struct SigningInput {
    /// The header's algorithm.
    pub algorithm: Algorithm,
    /// The message that is to be signed: header part, dot, claims part (RFC 7515 section 5.1).
    pub message: String,
}

/// Returns the message of a token that is to be signed elsewhere, and the algorithm: header part,
/// dot, claims part, as [`encode`](crate::encode) writes them. The signature's bytes go to
/// [`encode_by_signature`].
///
/// The tests are those of [`encode`](crate::encode) that ask no key and no provider, in its order:
/// the header can be written, and then the claims can be written and no float stands in them, else
/// `Json`.
pub fn signing_input<T: Claims>(alloc: Global, header: &Header, claims: &T) -> Result<SigningInput>
    ensures { Decides (issue_tests (signing header.now (T.written claims.now))) signing_order
        (IsSigningInput header.now) result }
{
    signing_input_by_steps(alloc, header, claims)
}

/// Returns the token of a header and claims that were signed elsewhere: the message, a dot, and the
/// signature part (RFC 7515 section 7.1). The signature is one of [`signing_input`]'s message for
/// the same header and claims, by the header's algorithm.
///
/// The tests are those of [`encode`](crate::encode) with the provider of the signature, in the same
/// order. A signature by another algorithm than the header's is `InvalidAlgorithm`. A signature of
/// another message is `Signing("another message")`, and one of a length that no signature of its
/// algorithm has is `Signing` with a string that says which they have, such as DER instead of the
/// two numbers of ES256, or no bytes with RS256. Whether the signature is the message's is left to
/// those who verify it.
pub fn encode_by_signature<T: Claims>(
    alloc: Global,
    header: &Header,
    claims: &T,
    given: &SignatureProvider<'_>,
) -> Result<String>
    ensures decided { let issue = encoding_by_signature given.now header.now
        (T.written claims.now) in
        DecidesGiven issue given.now (λ x. string_bytes x) result }

    // An issued token is read as the header's normal form and the claims' value, and its signature
    // is accepted by each verifier that accepts the given signature of the given message.
    ensures read_back { let issue = encoding_by_signature given.now header.now
        (T.written claims.now) in
        IfOk result (λ x. (t : Written) → IsSignedElsewhere issue given.now t
        → ReadsBackAsGiven issue given.now t (string_bytes x)) }
{
    let key = given.key(alloc)?;
    encode(alloc, given, header, claims, &key)
}

fn signing_input_by_steps<T: Claims>(
    alloc: Global,
    header: &Header,
    claims: &T,
) -> Result<SigningInput>
    ensures { IssueStep (signing header.now (T.written claims.now)) signing_order
        (IsSigningInput header.now) result }
{
    let header_text = header_part(alloc, header)?;
    let claims_text = claims_part(alloc, claims)?;
    let message = with_part(header_text, claims_text.as_str())?;
    Ok(SigningInput {
        algorithm: header.alg,
        message,
    })
}
