//! Reading tokens whose signature is checked by cryptography elsewhere.

// `decode_by_verdict` says in one relation what `decode` with the verdict's provider comes to
// (`IsVouched`); times and looser options are not said again, since they are said of `decode`.
// `by_signature` has `IsSignedElsewhere` likewise.

ghost use Rattle.std.specs.Prelude.{◌≡◌, Ok, Err, IfOk, IfErr};
ghost use Rattle.jsonwebtoken.specs.Calls.{HasSigned};
ghost use Rattle.jsonwebtoken.specs.Order.{Decides};
ghost use Rattle.jsonwebtoken.specs.Steps.{Step};
ghost use Rattle.jsonwebtoken.specs.private_clauses.Steps.{whole};
ghost use Rattle.jsonwebtoken.specs.Tests.{signed_order, header_call, token_tests};
ghost use Rattle.jsonwebtoken.specs.Vouched.{decoding_by_verdict, DecidesVouched};

use crate::decoding::steps::{read_header, read_part, token_parts};
use crate::decoding::{TokenData, decode};
use crate::refusal::{Refusal, Test, without_test};
use jwt_base::errors::Result;
use jwt_base::json::Claims;
use jwt_crypto::VerdictProvider;
use jwt_header::Header;
use jwt_validation::Validation;
use std::alloc::Global;

/// The parts of a token that a verifier elsewhere is asked about.
#[derive(Debug, Drop)]
pub struct SignedPart<'a> {
    /// The header, which names the algorithm and may name the key. Nothing of it is to be trusted
    /// yet.
    pub header: Header,
    /// The message that is signed: the token's bytes before its last dot (RFC 7515 section 5.1).
    pub message: &'a [u8],
    /// The signature's bytes.
    pub signature: Vec<u8>,
}

/// Returns the parts of a token in its compact form that a verifier elsewhere is asked about: the
/// header, the message that is signed, and the signature's bytes. Nothing is verified. The
/// verifier's verdict goes to [`decode_by_verdict`].
///
/// The tests are the first three of [`decode`](crate::decode), and then that the signature part is
/// canonical base64url, else `Base64`.
pub fn signed_part(alloc: Global, token: &[u8]) -> Result<SignedPart<'_>>
    ensures { Decides (token_tests (header_call token.now)) signed_order
        (HasSigned (header_call token.now)) result }
{
    without_test(signed_part_by_steps(alloc, token))
}

/// Verifies a token in its compact form whose signature the caller has checked, at the time
/// `time`, in whole seconds since 1970-01-01 00:00:00 UTC, and returns its header and its claims.
/// The verdict is about an algorithm, a message and a signature; a verdict on another token, or by
/// another algorithm than the header's, is of no use.
///
/// The tests are those of [`decode`](crate::decode) with the provider of the verdict, in the same
/// order. A verdict by another algorithm than the header's is `InvalidAlgorithm`; a no, or a
/// verdict on another message or signature, is `InvalidSignature`.
pub fn decode_by_verdict<T: Claims>(
    alloc: Global,
    token: &[u8],
    verdict: &VerdictProvider<'_>,
    validation: &Validation,
    time: u64,
) -> Result<TokenData<T>>
    ensures { DecidesVouched
        (decoding_by_verdict T.Claims verdict.now token.now validation.now time)
        verdict.now result }
{
    let key = verdict.key(alloc)?;
    decode(alloc, verdict, token, &key, validation, time)
}

fn signed_part_by_steps(alloc: Global, token: &[u8]) -> Result<SignedPart<'_>, Refusal>
    ensures { Step (header_call token.now) signed_order whole (HasSigned (header_call token.now))
        result }
{
    let parts = token_parts(token)?;
    let header = read_header(alloc, parts.header)?;
    let signature = read_part(alloc, Test::SignatureIsBase64url, parts.signature);
    with_signature(header, parts.message, signature)
}

/// Returns the parts, or the refusal of the signature's.
fn with_signature(
    header: Header,
    message: &[u8],
    signature: Result<Vec<u8>, Refusal>,
) -> Result<SignedPart<'_>, Refusal>
    ensures ok { IfOk result (λ p. ((header ≡ p.header) × (message.now ≡ p.message.now))
        × (signature ≡ Ok p.signature)) }
    ensures err { IfErr result (λ f. signature ≡ Err f) }
{
    match signature {
        Ok(signature) => Ok(SignedPart {
            header,
            message,
            signature,
        }),
        Err(refusal) => {
            // one drop
            drop(header);
            Err(refusal)
        }
    }
}
