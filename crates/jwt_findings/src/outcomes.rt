//! The result of the tests of a token, with what the one that fails found and asks for.

use crate::checked::CheckedToken;
use crate::findings::{Finding, findings_of, quote};
use crate::refusals::TokenRefusal;
use jsonwebtoken::{Header, Test, Validation, decode_header};
use std::alloc::{AllocError, Global};

/// The result of the tests of a token.
#[derive(Drop)]
pub enum Outcome {
    /// Each test passes.
    Accepted,
    /// This is the first test that fails, with one finding or more.
    Failed(Test, Vec<Finding>),
    /// Each test of the library passes, but the token's type is not the one that is asked for.
    OtherType(Finding),
}

/// Returns the finding that a token is refused for.
pub fn first_finding(outcome: &Outcome) -> Option<&Finding> {
    match outcome {
        Outcome::Accepted => None,
        Outcome::Failed(_, findings) => findings.first(),
        Outcome::OtherType(finding) => Some(finding),
    }
}

/// Returns why a token is not accepted.
pub fn outcome_of(
    alloc: Global,
    token: CheckedToken<'_>,
    validation: &Validation,
    reason: &TokenRefusal,
) -> Result<Outcome, AllocError> {
    match reason {
        TokenRefusal::OtherType => Ok(Outcome::OtherType(type_finding(alloc, token)?)),
        TokenRefusal::Refused(refusal) => Ok(Outcome::Failed(
            refusal.test,
            findings_of(alloc, token, validation, refusal)?,
        )),
    }
}

/// Returns the finding of a type that is not the one that is asked for.
fn type_finding(alloc: Global, token: CheckedToken<'_>) -> Result<Finding, AllocError> {
    match decode_header(alloc, token.text) {
        Ok(header) => {
            let finding = header_type_finding(alloc, &header, token.typ);
            drop(header);
            finding
        }
        Err(_) => Err(AllocError),
    }
}

/// Returns the finding of a header whose type is not the one that is asked for.
fn header_type_finding(
    alloc: Global,
    header: &Header,
    typ: Option<&str>,
) -> Result<Finding, AllocError> {
    Ok(Finding {
        found: found_type(alloc, header)?,
        wanted: quote(alloc, typ.unwrap_or(""))?,
    })
}

/// Returns the type of a header, as a finding says it.
fn found_type(alloc: Global, header: &Header) -> Result<String, AllocError> {
    match &header.typ {
        Some(found) => format!(in alloc; "the type {}", quote(alloc, found.as_str())?),
        None => String::from_str(alloc, "no type"),
    }
}
