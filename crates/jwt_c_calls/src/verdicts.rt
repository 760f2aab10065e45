//! Verifying a token with one or several verifiers, and what is said of it.

ghost use Rattle.std.specs.Prelude.{◌≡◌, ◌∷◌, List, IfOk, IfErr, is_some};
ghost use Rattle.serde_json.specs.View.{view};
ghost use Rattle.jwt_base.specs.JsonText.{IsJson};
ghost use Rattle.jwt_base.specs.Kind as kind;
ghost use Rattle.jwt_base.specs.KindOf.{kind_of};
ghost use Rattle.jsonwebtoken.specs.Order.{Passes};
ghost use Rattle.jsonwebtoken.specs.Tests.{Contents, header_call, payload_bytes_order, token_tests};
ghost use Rattle.jwt_validation.specs.Claim.{claims_of};
ghost use Rattle.jwt_validation.specs.Moments.{last_moment};
ghost use Rattle.jwt_validation.specs.OptionsOf.{options_of};
ghost use Rattle.jwt_c_calls.specs.Acceptors.{accepting, accepting_all};
ghost use Rattle.jwt_c_calls.specs.AsSigned.{IsShownAs};
ghost use Rattle.jwt_c_calls.specs.Status.{further_claim, further_status, IsGiven, IsKept};
ghost use Rattle.jwt_c_calls.specs.TestNumbers.{further_test};
ghost use Rattle.jwt_c_calls.specs.Verdicts.{AcceptsFirst, AcceptsToken, BreaksOf, IfRefused};
ghost use Rattle.jwt_c_calls.specs.Verdicts.{IsReason, IsToldOf, RefuseAll, RefusesLast, RefusesToken, SaysOf};
ghost use Rattle.jwt_c_calls.specs.Verdicts.{TellsAccepted, TellsRefused, later, refusal_of, told};
ghost use Rattle.jwt_c_calls.specs.declared.verdicts.TokenRefusal.{TokenRefusal as RefusalValue};

use crate::acceptors::Acceptor;
use crate::answers::payload_shown;
use crate::status::{algorithm_number, further_claim, further_status, number_of, put_bytes};
use crate::status_table::{NO_KEY, OUT_OF_MEMORY, TOKEN_TOO_LONG};
use crate::test_numbers::{FURTHER_TEST, test_number};
use jsonwebtoken::errors::ErrorKind;
use jsonwebtoken::{Algorithm, Refusal, TokenData, decode_header};
use jwt_further::{FurtherFault, further_fault};
use jwt_validation::{Validation, claimed_moments};
use jwt_verifier::VerifierRefusal;
use serde_json::Value;
use std::alloc::{AllocError, Global};
use std::result::Result;

/// What is said of an accepted token.
#[derive(Drop)]
pub struct Accepted {
    /// The text of its claims.
    pub text: Vec<u8>,
    /// Whether the text is the payload's own bytes.
    pub as_signed: bool,
    /// The last time at which the token is accepted.
    pub last: u64,
    /// The header's algorithm.
    pub algorithm: Algorithm,
    /// Whether the header has a `kid`.
    pub has_kid: bool,
    /// The place of the verifier that accepts it, from 0 on.
    pub place: usize,
}

/// The reason for which a token is refused, in numbers.
#[derive(Clone, Copy)]
pub struct TokenRefusal {
    /// The status.
    pub status: u32,
    /// The number of the first test that failed, or 0 if none was made.
    pub test: u32,
    /// The place of a claim's name in the option that names it, from 1 on, or 0.
    pub claim: u32,
    /// Whether the header has a `kid`, if no key is found.
    pub has_kid: bool,
    /// The place of the verifier that refuses it, from 0 on.
    pub place: usize,
}

/// The reason for which a token is not accepted.
#[derive(Clone, Copy)]
pub enum Unaccepted {
    Memory,
    Refused(TokenRefusal),
}

/// What is said of a token: `struct jwt_verdict` of `packages/c/include/jwtproved.h`.
#[derive(Clone, Copy)]
#[repr(C)]
pub struct Verdict {
    pub last: u64,
    pub len: usize,
    pub verifier: usize,
    pub algorithm: u32,
    pub test: u32,
    pub claim: u32,
    pub has_kid: u32,
    pub as_signed: u32,
}

impl TokenRefusal {
    /// Returns the refusal by the verifier at this place, with this status, by the test of this number,
    /// and with the place of a claim's name.
    pub fn of(place: usize, status: u32, test: u32, claim: u32) -> TokenRefusal
        ensures { result ≡ refusal_of place status test claim }
    {
        TokenRefusal {
            status,
            test,
            claim,
            has_kid: false,
            place,
        }
    }
}

/// Verifies a token with the first of some verifiers, and with each other one if those before it
/// refuse the token. If all do, the refusal is the one whose test comes last.
pub fn decode_by_all(
    alloc: Global,
    first: &Acceptor,
    others: &[Acceptor],
    token: &[u8],
    time: u64,
) -> Result<Accepted, Unaccepted>
    ensures ok { IfOk result (AcceptsFirst token.now time 0
        (accepting first.now ∷ accepting_all others.now)) }
    ensures err { IfErr result (IfRefused (RefusesLast token.now time
        (accepting first.now ∷ accepting_all others.now))) }
{
    match decode_by(alloc, first, 0, token, time) {
        Ok(accepted) => Ok(accepted),
        Err(Unaccepted::Memory) => Err(Unaccepted::Memory),
        Err(Unaccepted::Refused(why)) => decode_after(alloc, why, others, token, time),
    }
}

// Verifies a token that the verifier at place 0 refused with the others.
fn decode_after(
    alloc: Global,
    first: TokenRefusal,
    others: &[Acceptor],
    token: &[u8],
    time: u64,
) -> Result<Accepted, Unaccepted>
    ensures ok { IfOk result (AcceptsFirst token.now time 1 (accepting_all others.now)) }
    ensures err { IfErr result (IfRefused (λ said. (whys : List RefusalValue)
        × RefuseAll token.now time 1 (accepting_all others.now) whys × IsToldOf (first ∷ whys) said)) }
{
    let mut latest = first;
    for at in 0..others.len() {
        match decode_by(alloc, &others[at], at + 1, token, time) {
            Ok(accepted) => return Ok(accepted),
            Err(Unaccepted::Memory) => return Err(Unaccepted::Memory),
            Err(Unaccepted::Refused(why)) => latest = later(latest, why),
        }
    }
    Err(Unaccepted::Refused(latest))
}

fn later(first: TokenRefusal, second: TokenRefusal) -> TokenRefusal
    ensures { result ≡ later first second }
{
    let has_kid = first.has_kid || second.has_kid;
    let latest = if first.test < second.test {
        second
    } else {
        first
    };
    TokenRefusal { has_kid, ..latest }
}

/// Verifies a token with one verifier.
pub fn decode_by(
    alloc: Global,
    acceptor: &Acceptor,
    place: usize,
    token: &[u8],
    time: u64,
) -> Result<Accepted, Unaccepted>
    ensures ok { IfOk result (λ a. AcceptsToken token.now time (accepting acceptor.now) a
        × (a.place ≡ place)) }
    ensures err { IfErr result (IfRefused (λ why. RefusesToken token.now time
        (accepting acceptor.now) why × (why.place ≡ place))) }
{
    match acceptor
        .verifier
        .decode_or_refusal::<Value>(alloc, token, time)
    {
        Ok(decoded) => {
            let accepted = accepted_of(alloc, &decoded, acceptor, place, token, time);
            // one drop
            drop(decoded);
            accepted
        }
        Err(VerifierRefusal::TooLong) => {
            Err(Unaccepted::Refused(TokenRefusal::of(place, TOKEN_TOO_LONG.0, 0, 0)))
        }
        Err(VerifierRefusal::Failed(refusal)) => Err(reason_of(alloc, &refusal, place, token)),
    }
}

// Returns what is said of a token that passes every test, or the further rule that it does not meet.
fn accepted_of(
    alloc: Global,
    decoded: &TokenData<Value>,
    acceptor: &Acceptor,
    place: usize,
    token: &[u8],
    time: u64,
) -> Result<Accepted, Unaccepted>
    ensures ok { IfOk result (SaysOf (accepting acceptor.now) place token.now time
        decoded.now.header (view decoded.now.claims)) }
    ensures err { IfErr result (IfRefused (BreaksOf (accepting acceptor.now) place time
        (view decoded.now.claims))) }
{
    let validation = &acceptor.verifier.validation;
    match further_fault(&decoded.claims, &acceptor.further, validation.leeway, time) {
        Some(fault) => Err(Unaccepted::Refused(refusal_by(place, fault))),
        None => match said_of(alloc, decoded, validation, place, token) {
            Ok(accepted) => Ok(accepted),
            Err(_) => Err(Unaccepted::Memory),
        },
    }
}

fn refusal_by(place: usize, fault: FurtherFault) -> TokenRefusal
    ensures { result ≡ refusal_of place (further_status fault) further_test (further_claim fault) }
{
    TokenRefusal::of(
        place,
        further_status(fault),
        FURTHER_TEST,
        further_claim(fault),
    )
}

fn said_of(
    alloc: Global,
    decoded: &TokenData<Value>,
    validation: &Validation,
    place: usize,
    token: &[u8],
) -> Result<Accepted, AllocError>
    ensures shown { IfOk result (λ a. (t : Contents)
        → Passes (token_tests (header_call token.now)) payload_bytes_order t
        → IsJson t.payload_bytes (view decoded.now.claims)
        → IsShownAs t.payload_bytes (view decoded.now.claims) a.text.items a.as_signed) }
    ensures last { IfOk result (λ a. a.last
        ≡ last_moment (options_of validation.now) (claims_of (view decoded.now.claims))) }
    ensures header { IfOk result (λ a. (a.algorithm ≡ decoded.now.header.alg)
        × (a.has_kid ≡ is_some decoded.now.header.kid) × (a.place ≡ place)) }
{
    let shown = payload_shown(alloc, token, &decoded.claims)?;
    let moments = claimed_moments(&decoded.claims, validation);
    Ok(Accepted {
        text: shown.text,
        as_signed: shown.as_signed,
        last: moments.last,
        algorithm: decoded.header.alg,
        has_kid: decoded.header.kid.is_some(),
        place,
    })
}

// Returns the reason that a refusal is.
fn reason_of(alloc: Global, refusal: &Refusal, place: usize, token: &[u8]) -> Unaccepted
    ensures { IsReason token.now place refusal.now result }
{
    match refusal.error.kind() {
        ErrorKind::OutOfMemory => Unaccepted::Memory,
        ErrorKind::NoKey => no_key(alloc, refusal, place, token),
        kind => Unaccepted::Refused(TokenRefusal::of(
            place,
            number_of(kind),
            test_number(refusal.test),
            0,
        )),
    }
}

fn no_key(alloc: Global, refusal: &Refusal, place: usize, token: &[u8]) -> Unaccepted
    requires { kind_of refusal.now.error ≡ kind.NoKey }
    ensures { IsReason token.now place refusal.now result }
{
    match decode_header(alloc, token) {
        Ok(header) => Unaccepted::Refused(TokenRefusal {
            status: NO_KEY.0,
            test: test_number(refusal.test),
            claim: 0,
            has_kid: header.kid.is_some(),
            place,
        }),
        // the token's header was read before
        Err(_) => Unaccepted::Memory,
    }
}

/// Returns the refusal of a call.
pub fn told(why: Unaccepted) -> TokenRefusal
    ensures { result ≡ told why }
{
    match why {
        Unaccepted::Memory => TokenRefusal::of(0, OUT_OF_MEMORY.0, 0, 0),
        Unaccepted::Refused(refusal) => refusal,
    }
}

/// Leaves what is said of a token, and the claims of an accepted one.
pub fn write_verdict(
    answer: Result<Accepted, TokenRefusal>,
    room: &mut [u8],
    said: &mut Verdict,
) -> u32
    ensures given { IfOk answer (λ a. TellsAccepted a said.new
        × IsGiven a.text.items result said.new.len room.old room.new) }
    ensures kept { IfErr answer (λ why. TellsRefused why said.new
        × IsKept why.status result said.new.len room.old room.new) }
{
    match answer {
        Ok(accepted) => {
            let mut len = 0;
            let status = put_bytes(accepted.text.as_slice(), room, &mut len);
            *said = Verdict {
                last: accepted.last,
                len,
                verifier: accepted.place,
                algorithm: algorithm_number(accepted.algorithm),
                test: 0,
                claim: 0,
                has_kid: u32::from(accepted.has_kid),
                as_signed: u32::from(accepted.as_signed),
            };
            status
        }
        Err(why) => {
            *said = Verdict {
                last: 0,
                len: 0,
                verifier: why.place,
                algorithm: 0,
                test: why.test,
                claim: why.claim,
                has_kid: u32::from(why.has_kid),
                as_signed: 0,
            };
            why.status
        }
    }
}
