//! Statuses, algorithms as numbers, and writing a result to the caller's buffer.

// Algorithms are numbered from 1, so that a number that nobody set is not one.

ghost use Rattle.std.specs.Prelude.{◌≡◌, ◌≤◌, ◌+◌, min, Some, IfOk, IfErr};
ghost use Rattle.jwt_base.specs.KindOf.{kind_held};
ghost use Rattle.jwt_c_calls.specs.Calls.{answer_in, claim_of, refusal_claim, refusal_status};
ghost use Rattle.jwt_c_calls.specs.Status.{number, further_claim, further_status, input_status, claim_place};
ghost use Rattle.jwt_c_calls.specs.Status.{algorithm_numbered, IsGiven, IsKept};

use crate::inputs::{CallError, Input};
use crate::status_table::*;
use jsonwebtoken::Algorithm;
use jsonwebtoken::errors::ErrorKind;
use jwt_further::FurtherFault;

/// Returns the status of a refusal of this kind.
pub fn number_of(kind: &ErrorKind) -> u32
    ensures { result ≡ number (kind_held kind.now) }
{
    match kind {
        ErrorKind::InvalidToken => INVALID_TOKEN.0,
        ErrorKind::InvalidSignature => INVALID_SIGNATURE.0,
        ErrorKind::InvalidEcdsaKey => INVALID_ECDSA_KEY.0,
        ErrorKind::InvalidEddsaKey => INVALID_EDDSA_KEY.0,
        ErrorKind::RsaFailedSigning => RSA_FAILED_SIGNING.0,
        ErrorKind::InvalidAlgorithmName => INVALID_ALGORITHM_NAME.0,
        ErrorKind::UnsupportedAlgorithm => UNSUPPORTED_ALGORITHM.0,
        ErrorKind::InvalidKeyFormat => INVALID_KEY_FORMAT.0,
        ErrorKind::ExpiredSignature => EXPIRED_SIGNATURE.0,
        ErrorKind::InvalidIssuer => INVALID_ISSUER.0,
        ErrorKind::InvalidAudience => INVALID_AUDIENCE.0,
        ErrorKind::InvalidSubject => INVALID_SUBJECT.0,
        ErrorKind::ImmatureSignature => IMMATURE_SIGNATURE.0,
        ErrorKind::InvalidAlgorithm => INVALID_ALGORITHM.0,
        ErrorKind::MissingAlgorithm => MISSING_ALGORITHM.0,
        ErrorKind::InvalidRsaKey(_) => INVALID_RSA_KEY.0,
        ErrorKind::Signing(_) => SIGNING.0,
        ErrorKind::Provider(_) => PROVIDER.0,
        ErrorKind::Base64 => BASE64.0,
        ErrorKind::Json => JSON.0,
        ErrorKind::Utf8 => UTF8.0,
        ErrorKind::OutOfMemory => OUT_OF_MEMORY.0,
        ErrorKind::ClockBeforeEpoch => CLOCK_BEFORE_EPOCH.0,
        ErrorKind::InvalidCrit => INVALID_CRIT.0,
        ErrorKind::NoKey => NO_KEY.0,
        ErrorKind::MissingRequiredClaim(claim) => MISSING_EXP.0 + claim_place(claim.as_str()),
        ErrorKind::InvalidClaimFormat(claim) => MALFORMED_EXP.0 + claim_place(claim.as_str()),
    }
}

/// Returns the status of a refusal.
pub fn status_of(refusal: &CallError) -> u32
    ensures { result ≡ refusal_status refusal.now }
{
    match refusal {
        CallError::Input(input) => input_status(*input),
        CallError::Token(refused) => number_of(refused.kind()),
        CallError::Further(fault) => further_status(*fault),
    }
}

/// Returns the place of the claim that a refusal is about in the option that names it, from 1 on, or
/// 0 if no option names it.
pub fn claim_of(refusal: &CallError) -> u32
    ensures { result ≡ refusal_claim refusal.now }
{
    match refusal {
        CallError::Further(fault) => further_claim(*fault),
        _ => 0,
    }
}

/// Returns the same of a result.
pub fn claim_in(answer: &Result<Vec<u8>, CallError>) -> u32
    ensures { result ≡ claim_of (answer_in (λ b. b.items) answer.now) }
{
    match answer {
        Ok(_) => 0,
        Err(refusal) => claim_of(refusal),
    }
}

/// Returns the status of a further rule that fails.
pub fn further_status(fault: FurtherFault) -> u32
    ensures { result ≡ further_status fault }
{
    match fault {
        FurtherFault::IssuedLater => IMMATURE_SIGNATURE.0,
        FurtherFault::Missing(_) => MISSING_CLAIM.0,
        FurtherFault::IssuedMalformed | FurtherFault::NotAText(_) => MALFORMED_CLAIM.0,
        FurtherFault::AudienceIsNoText => MALFORMED_AUD.0,
    }
}

/// Returns the place of the claim's name in the option of a further rule that fails, from 1 on;
/// `u32::MAX` for `iat`, and 0 for `aud`.
pub fn further_claim(fault: FurtherFault) -> u32
    ensures { result ≡ further_claim fault }
{
    match fault {
        FurtherFault::Missing(at) | FurtherFault::NotAText(at) => place_from_one(at),
        FurtherFault::IssuedMalformed | FurtherFault::IssuedLater => u32::MAX,
        FurtherFault::AudienceIsNoText => 0,
    }
}

fn place_from_one(at: usize) -> u32
    ensures { result ≡ min (at + 1) 4294967294 }
{
    if at < 4294967294 {
        at as u32 + 1
    } else {
        4294967294
    }
}

/// Returns the number of an algorithm.
pub fn algorithm_number(algorithm: Algorithm) -> u32
    ensures { algorithm_numbered result ≡ Some algorithm }
{
    match algorithm {
        Algorithm::HS256 => 1,
        Algorithm::HS384 => 2,
        Algorithm::HS512 => 3,
        Algorithm::RS256 => 4,
        Algorithm::RS384 => 5,
        Algorithm::RS512 => 6,
        Algorithm::PS256 => 7,
        Algorithm::PS384 => 8,
        Algorithm::PS512 => 9,
        Algorithm::ES256 => 10,
        Algorithm::ES384 => 11,
        Algorithm::EdDSA => 12,
    }
}

/// Returns the algorithm of a number.
pub fn numbered_algorithm(number: u32) -> Option<Algorithm>
    ensures { result ≡ algorithm_numbered number }
{
    match number {
        1 => Some(Algorithm::HS256),
        2 => Some(Algorithm::HS384),
        3 => Some(Algorithm::HS512),
        4 => Some(Algorithm::RS256),
        5 => Some(Algorithm::RS384),
        6 => Some(Algorithm::RS512),
        7 => Some(Algorithm::PS256),
        8 => Some(Algorithm::PS384),
        9 => Some(Algorithm::PS512),
        10 => Some(Algorithm::ES256),
        11 => Some(Algorithm::ES384),
        12 => Some(Algorithm::EdDSA),
        _ => None,
    }
}

/// Writes the bytes to the front of the buffer, if they fit, and their length in any case.
pub fn put_bytes(bytes: &[u8], room: &mut [u8], len: &mut usize) -> u32
    ensures { IsGiven bytes.now result len.new room.old room.new }
{
    *len = bytes.len();
    if bytes.len() > room.len() {
        return BUFFER_TOO_SMALL.0;
    }
    room[..bytes.len()].copy_from_slice(bytes);
    OK.0
}

/// Writes a result: its bytes, or the reason for which there are none.
pub fn leave(answer: Result<Vec<u8>, CallError>, room: &mut [u8], len: &mut usize) -> u32
    ensures given { IfOk answer (λ b. IsGiven b.items result len.new room.old room.new) }
    ensures kept { IfErr answer (λ r. IsKept (refusal_status r) result len.new room.old room.new) }
{
    match answer {
        Ok(bytes) => put_bytes(bytes.as_slice(), room, len),
        Err(refusal) => {
            *len = 0;
            status_of(&refusal)
        }
    }
}

fn input_status(input: Input) -> u32
    ensures { result ≡ input_status input }
{
    match input {
        Input::Options => BAD_OPTIONS.0,
        Input::Header => BAD_HEADER.0,
        Input::Claims => BAD_CLAIMS.0,
        Input::Key => BAD_KEY.0,
        Input::Path => BAD_OPTIONS.0,
    }
}

fn claim_place(name: &str) -> u32
    ensures place { result ≡ claim_place name.now }
    ensures few { result ≤ 19 }
{
    match name {
        "exp" => 0,
        "nbf" => 1,
        "aud" => 2,
        "iss" => 3,
        "sub" => 4,
        _ => 19,
    }
}
