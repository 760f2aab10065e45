//! Refusals in sentences.

use jsonwebtoken::Refusal;
use jsonwebtoken::errors::{Error, ErrorKind};
use std::alloc::{AllocError, Global};

/// The reason for which a token is not accepted.
#[derive(Drop)]
pub enum TokenRefusal {
    /// A test of the library failed.
    Refused(Refusal),
    /// The header's `typ` is not the one that is asked for.
    OtherType,
}

/// Returns the name of a refusal: the kind of its error, or that of another type.
pub fn refusal_name(reason: &TokenRefusal) -> &'static str {
    match reason {
        TokenRefusal::Refused(refusal) => refusal.error.kind().name(),
        TokenRefusal::OtherType => "InvalidType",
    }
}

/// Returns the claim that a refusal names.
pub fn refused_claim(reason: &TokenRefusal) -> Option<&str> {
    match reason {
        TokenRefusal::Refused(refusal) => named_claim(&refusal.error),
        TokenRefusal::OtherType => None,
    }
}

/// Returns the line that says what an error means, which is not that memory ran out.
pub fn error_line(alloc: Global, error: &Error) -> Result<String, AllocError> {
    let kind = error.kind();
    let name = kind.name();
    let meaning = kind_meaning(kind);
    match named_claim(error) {
        Some(claim) => format!(in alloc; "refused: {name} ({claim}): {meaning}\n"),
        None => format!(in alloc; "refused: {name}: {meaning}\n"),
    }
}

/// The sentence after a failed signature by a secret that ends with a newline.
const LINE_END: &str =
    "the secret file ends with a newline, which is part of the secret; --trim leaves it out\n";

/// The line after each refusal of `verify`.
const MORE: &str = "'jwt explain' with the same arguments says more\n";

/// The line about a token of another type.
const OTHER_TYPE: &str = "refused: InvalidType: the token's 'typ' is not that of --typ\n";

/// Returns the line that says why a token is not accepted.
pub fn token_refusal_line(alloc: Global, reason: &TokenRefusal) -> Result<String, AllocError> {
    match reason {
        TokenRefusal::Refused(refusal) => error_line(alloc, &refusal.error),
        TokenRefusal::OtherType => String::from_str(alloc, OTHER_TYPE),
    }
}

/// Returns the lines that say why a token is not accepted by keys of a file.
pub fn token_refusal_lines(
    alloc: Global,
    reason: &TokenRefusal,
    has_line_end: bool,
) -> Result<String, AllocError> {
    let mut lines = token_refusal_line(alloc, reason)?;
    let TokenRefusal::Refused(refusal) = reason else {
        return Ok(lines);
    };
    if has_line_end && matches!(refusal.error.kind(), ErrorKind::InvalidSignature) {
        lines.push_str(LINE_END)?;
    }
    lines.push_str(MORE)?;
    Ok(lines)
}

/// Returns the claim that an error names.
fn named_claim(error: &Error) -> Option<&str> {
    match error.kind() {
        ErrorKind::MissingRequiredClaim(name) | ErrorKind::InvalidClaimFormat(name) => Some(
            name.as_str(),
        ),
        _ => None,
    }
}

fn kind_meaning(kind: &ErrorKind) -> &'static str {
    match kind {
        ErrorKind::InvalidToken =>
            "the text is not three parts with dots between them, or 'exp' is below --not-within",
        ErrorKind::Base64 => "a part is not base64url without padding, or the key is not",
        ErrorKind::Json => "the header or the claims are not JSON of the form that a token has",
        ErrorKind::InvalidCrit =>
            "the header's 'crit' names an extension that is not understood; --crit names those that are",
        ErrorKind::NoKey => "the set has no key with the token's 'kid', or the token has none",
        ErrorKind::MissingAlgorithm => "no algorithm is accepted; --alg names one",
        ErrorKind::InvalidAlgorithm => "the token's algorithm is not among those that are accepted",
        ErrorKind::InvalidSignature =>
            "the signature does not match the key; the token was changed, or signed with another key",
        ErrorKind::ExpiredSignature => "the token has expired",
        ErrorKind::ImmatureSignature => "the token is not valid yet, by its 'nbf'",
        ErrorKind::InvalidIssuer => "the token's issuer is not among those of --iss",
        ErrorKind::InvalidAudience =>
            "the token is for another audience; --aud names those that are accepted",
        ErrorKind::InvalidSubject => "the token's subject is not that of --sub",
        ErrorKind::InvalidKeyFormat =>
            "the key is of another kind than the token's algorithm, or not a key",
        ErrorKind::UnsupportedAlgorithm => "this algorithm is not supported",
        ErrorKind::MissingRequiredClaim(_) => "a required claim is absent or malformed",
        ErrorKind::InvalidClaimFormat(_) => "a claim is of a wrong type",
        _ => "the token is refused",
    }
}
