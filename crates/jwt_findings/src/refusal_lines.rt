//! Refusals as lines of JSON.

use crate::checked::CheckedToken;
use crate::findings::Finding;
use crate::outcomes::{first_finding, outcome_of};
use crate::refusals::{TokenRefusal, refusal_name, refused_claim};
use crate::sentences::TYPE_AGREES;
use jsonwebtoken::Validation;
use serde_json::Value;
use std::alloc::{AllocError, Global};

/// Returns one line of JSON about a refusal, with the name of the failed test, what it found and what
/// it asks for.
pub fn refusal_json(
    alloc: Global,
    token: CheckedToken<'_>,
    validation: &Validation,
    reason: &TokenRefusal,
) -> Result<String, AllocError> {
    let outcome = outcome_of(alloc, token, validation, reason)?;
    let line = json_with(alloc, reason, first_finding(&outcome));
    // one drop
    drop(outcome);
    line
}

/// Returns one line of JSON about a refusal, with the name of the failed test alone.
pub fn short_refusal_json(alloc: Global, reason: &TokenRefusal) -> Result<String, AllocError> {
    json_with(alloc, reason, None)
}

/// Returns one line of JSON about a refusal and a finding, if there is one.
fn json_with(
    alloc: Global,
    reason: &TokenRefusal,
    finding: Option<&Finding>,
) -> Result<String, AllocError> {
    let mut line = String::from_str(alloc, "{\"ok\":false")?;
    push_refusal(&mut line, reason)?;
    if let Some(finding) = finding {
        push_text(alloc, &mut line, "found", finding.found.as_str())?;
        push_text(alloc, &mut line, "wanted", finding.wanted.as_str())?;
    }
    line.push_str("}\n")?;
    Ok(line)
}

/// Adds the members about a refusal.
fn push_refusal(line: &mut String, reason: &TokenRefusal) -> Result<(), AllocError> {
    push_member(line, "kind", refusal_name(reason))?;
    if let Some(claim) = refused_claim(reason) {
        push_member(line, "claim", claim)?;
    }
    push_member(line, "test", failed_test_name(reason))
}

/// Adds a member whose text may need escapes.
fn push_text(alloc: Global, line: &mut String, name: &str, text: &str) -> Result<(), AllocError> {
    let value = Value::String(String::from_str(alloc, text)?);
    line.push_str(",\"")?;
    line.push_str(name)?;
    line.push_str("\":")?;
    line.push_str(value.to_string(alloc)?.as_str())
}

/// Adds a member, neither of whose texts needs an escape.
fn push_member(line: &mut String, name: &str, text: &str) -> Result<(), AllocError> {
    line.push_str(",\"")?;
    line.push_str(name)?;
    line.push_str("\":\"")?;
    line.push_str(text)?;
    line.push('"')
}

/// Returns the name of the test that failed.
fn failed_test_name(reason: &TokenRefusal) -> &'static str {
    match reason {
        TokenRefusal::Refused(refusal) => refusal.test.name(),
        TokenRefusal::OtherType => TYPE_AGREES,
    }
}
