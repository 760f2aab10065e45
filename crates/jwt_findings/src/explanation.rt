//! Why a token is accepted or refused, and when it is accepted.

use crate::attempts::value_unless_refused;
use crate::checked::CheckedToken;
use crate::claim_findings::{ClaimFailure, claim_failures, python_lines};
use crate::findings::part_value;
use crate::outcomes::{Outcome, outcome_of};
use crate::pages::{brief_page, json_line, page};
use crate::part_findings::split_parts;
use crate::refusals::{TokenRefusal, refusal_name};
use crate::times::claim_lines;
use jsonwebtoken::{Moments, Test, Validation, claimed_moments, validate};
use serde_json::Value;
use std::alloc::{AllocError, Global};

/// Why a token is accepted or refused, and when it is accepted.
#[derive(Drop)]
pub struct Explanation<'e> {
    /// The tests in their order.
    pub order: &'e [Test],
    pub outcome: Outcome,
    /// The kind of the refusal, if there is one.
    pub kind: Option<&'e str>,
    /// The times at which each test passes.
    pub moments: Option<Moments>,
    /// The time of the tests, in seconds since 1970-01-01 00:00:00 UTC.
    pub time: u64,
    /// Lines about the claims that are times.
    pub times: String,
    /// The refusal under strict options, if the token is accepted without them.
    pub strict: Option<ClaimFailure>,
}

/// How an explanation is written.
#[derive(Clone, Copy)]
pub enum ExplanationForm {
    /// A line for each test, and the verdict.
    Page,
    /// The verdict, its cause and its cure.
    Brief,
    /// One line of JSON.
    Json,
}

/// Returns the text that explains why a token is accepted, whose tests are made in this order. With
/// strict options it says whether these would refuse it.
pub fn acceptance_text(
    alloc: Global,
    token: CheckedToken<'_>,
    order: &[Test],
    validation: &Validation,
    strict: Option<&Validation>,
    form: ExplanationForm,
) -> Result<String, AllocError> {
    let strict = strict_failure(alloc, token, strict)?;
    let (times, moments) = claim_times(alloc, token, validation, &Outcome::Accepted)?;
    let explanation = Explanation {
        order,
        outcome: Outcome::Accepted,
        kind: None,
        moments,
        time: token.time,
        times,
        strict,
    };
    explanation_text(alloc, &explanation, form)
}

/// Returns the text that explains why a token is refused, whose tests are made in this order.
pub fn refusal_text(
    alloc: Global,
    token: CheckedToken<'_>,
    order: &[Test],
    validation: &Validation,
    reason: &TokenRefusal,
    form: ExplanationForm,
) -> Result<String, AllocError> {
    let outcome = outcome_of(alloc, token, validation, reason)?;
    let (times, moments) = claim_times(alloc, token, validation, &outcome)?;
    let explanation = Explanation {
        order,
        outcome,
        kind: Some(refusal_name(reason)),
        moments,
        time: token.time,
        times,
        strict: None,
    };
    explanation_text(alloc, &explanation, form)
}

/// Returns the first claim rule that fails under strict options, if there are any.
fn strict_failure(
    alloc: Global,
    token: CheckedToken<'_>,
    strict: Option<&Validation>,
) -> Result<Option<ClaimFailure>, AllocError> {
    let Some(strict) = strict else {
        return Ok(None);
    };
    match accepted_claims(alloc, token.text, &Outcome::Accepted)? {
        Some(claims) => {
            let failures = claim_failures(alloc, &claims, strict, token.time);
            // one drop
            drop(claims);
            Ok(failures?.into_iter().next())
        }
        None => Ok(None),
    }
}

/// Returns the claims of a token whose signature is accepted, or `None` if an earlier test failed.
fn accepted_claims(
    alloc: Global,
    token: &[u8],
    outcome: &Outcome,
) -> Result<Option<Value>, AllocError> {
    if let Outcome::Accepted | Outcome::Failed(Test::ClaimsAreValid, _) = outcome
        && let Some(parts) = split_parts(token)
    {
        return part_value(alloc, parts.payload);
    }
    Ok(None)
}

/// Returns the lines about the claims of a token whose signature is accepted, and the times at
/// which it is accepted.
fn claim_times(
    alloc: Global,
    token: CheckedToken<'_>,
    validation: &Validation,
    outcome: &Outcome,
) -> Result<(String, Option<Moments>), AllocError> {
    match accepted_claims(alloc, token.text, outcome)? {
        Some(claims) => {
            let lines = lines_about(alloc, &claims, validation, token.time);
            let moments = moments_of(alloc, &claims, validation);
            // one drop
            drop(claims);
            Ok((lines?, moments?))
        }
        None => Ok((String::new(alloc), None)),
    }
}

/// Returns the lines about the claims that are times.
fn lines_about(
    alloc: Global,
    claims: &Value,
    validation: &Validation,
    time: u64,
) -> Result<String, AllocError> {
    let mut lines = claim_lines(alloc, claims, time)?;
    lines.push_str(python_lines(alloc, claims, validation, time)?.as_str())?;
    Ok(lines)
}

/// Returns the times at which the claims of a token are accepted, whose signature is. The claim
/// rules hold at all times that the claims allow, or at none.
fn moments_of(
    alloc: Global,
    claims: &Value,
    validation: &Validation,
) -> Result<Option<Moments>, AllocError> {
    let moments = claimed_moments(claims, validation);
    let held = validate(alloc, claims, validation, moments.first);
    Ok(value_unless_refused(held)?.map(|()| moments))
}

fn explanation_text(
    alloc: Global,
    explanation: &Explanation<'_>,
    form: ExplanationForm,
) -> Result<String, AllocError> {
    match form {
        ExplanationForm::Page => page(alloc, explanation),
        ExplanationForm::Brief => brief_page(alloc, explanation),
        ExplanationForm::Json => json_line(alloc, explanation),
    }
}
