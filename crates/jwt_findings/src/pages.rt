//! How an explanation is written.

use crate::claim_findings::ClaimFailure;
use crate::explanation::Explanation;
use crate::findings::Finding;
use crate::outcomes::{Outcome, first_finding};
use crate::sentences::{TYPE_AGREES, sentence};
use crate::times::{distance_text, time_text};
use jsonwebtoken::{Moments, Test};
use serde_json::{Map, Value};
use std::alloc::{AllocError, Global};
use std::slice;

/// The word before the name of a test that fails.
const FAILED: &str = "FAILED";

/// The width of the longest name of a test.
const WIDTH: usize = 19;

/// Returns an explanation for people: a line for each test that is made, when the token is
/// accepted, and why it is refused.
pub fn page(alloc: Global, explanation: &Explanation<'_>) -> Result<String, AllocError> {
    let mut page = String::new(alloc);
    push_tests(alloc, &mut page, explanation)?;
    page.push_str(explanation.times.as_str())?;
    let moments = moments_line(alloc, explanation.moments, explanation.time)?;
    page.push_str(moments.as_str())?;
    page.push_str(last_line(alloc, explanation)?.as_str())?;
    Ok(page)
}

/// Returns the verdict on a token, and its cause and its cure if it is refused.
pub fn brief_page(alloc: Global, explanation: &Explanation<'_>) -> Result<String, AllocError> {
    if let (Some(kind), Some(finding)) = (explanation.kind, first_finding(&explanation.outcome)) {
        let found = finding.found.as_str();
        let wanted = finding.wanted.as_str();
        return format!(in alloc; "refused: {kind}\nfound:   {found}\nwanted:  {wanted}\n");
    }
    let mut page = moments_line(alloc, explanation.moments, explanation.time)?;
    page.push_str(last_line(alloc, explanation)?.as_str())?;
    Ok(page)
}

/// Returns an explanation as one line of JSON.
pub fn json_line(alloc: Global, explanation: &Explanation<'_>) -> Result<String, AllocError> {
    let mut members = Map::new(alloc);
    put_member(
        alloc,
        &mut members,
        "ok",
        Value::Bool(explanation.kind.is_none()),
    )?;
    if let Some(kind) = explanation.kind {
        put_text(alloc, &mut members, "kind", kind)?;
    }
    put_outcome(alloc, &mut members, &explanation.outcome)?;
    put_strict(alloc, &mut members, &explanation.strict)?;
    put_moments(alloc, &mut members, explanation.moments)?;
    let mut line = Value::Object(members).to_string(alloc)?;
    line.push('\n')?;
    Ok(line)
}

/// Adds a line for each test up to the first that fails, and one line for those after it.
fn push_tests(
    alloc: Global,
    page: &mut String,
    explanation: &Explanation<'_>,
) -> Result<(), AllocError> {
    for (place, test) in explanation.order.iter().enumerate() {
        match &explanation.outcome {
            Outcome::Failed(failed, findings) if *failed == *test => {
                push_failed_test(page, *test, findings)?;
                let left = explanation.order.iter().skip(place).skip(1).count();
                return push_tests_left(alloc, page, left);
            }
            _ => push_test(page, "passed", test.name(), sentence(*test))?,
        }
    }
    if let Outcome::OtherType(finding) = &explanation.outcome {
        push_test(
            page,
            FAILED,
            TYPE_AGREES,
            "the header has the type of --typ",
        )?;
        push_finding(page, finding)?;
    }
    Ok(())
}

/// Adds the line of the test that fails, what it found and what it asks for.
fn push_failed_test(page: &mut String, test: Test, findings: &[Finding]) -> Result<(), AllocError> {
    push_test(page, FAILED, test.name(), sentence(test))?;
    for finding in findings {
        push_finding(page, finding)?;
    }
    Ok(())
}

/// Adds a line about a test.
fn push_test(
    page: &mut String,
    verdict: &str,
    name: &str,
    sentence: &str,
) -> Result<(), AllocError> {
    page.push_str(verdict)?;
    page.push_str("  ")?;
    page.push_str(name)?;
    for _ in name.len()..WIDTH + 2 {
        page.push(' ')?;
    }
    page.push_str(sentence)?;
    page.push('\n')
}

fn push_finding(page: &mut String, finding: &Finding) -> Result<(), AllocError> {
    page.push_str("        found:  ")?;
    page.push_str(finding.found.as_str())?;
    page.push_str("\n        wanted: ")?;
    page.push_str(finding.wanted.as_str())?;
    page.push('\n')
}

/// Adds the line about tests that are not made.
fn push_tests_left(alloc: Global, page: &mut String, count: usize) -> Result<(), AllocError> {
    match count {
        0 => Ok(()),
        1 => page.push_str("-       1 test after this one is not made\n"),
        _ => {
            let line = format!(in alloc; "-       {count} tests after this one are not made\n")?;
            page.push_str(line.as_str())
        }
    }
}

/// Returns the line about the times at which a token is accepted.
fn moments_line(alloc: Global, moments: Option<Moments>, time: u64) -> Result<String, AllocError> {
    let Some(moments) = moments else {
        return String::from_str(alloc, "accepted at no time\n");
    };
    let last = time_words(alloc, moments.last, time)?;
    let first = time_words(alloc, moments.first, time)?;
    match (moments.first, moments.last) {
        (0, u64::MAX) => String::from_str(alloc, "accepted at any time\n"),
        (0, _) => format!(in alloc; "accepted until {last}\n"),
        (_, u64::MAX) => format!(in alloc; "accepted from {first} on\n"),
        _ => format!(in alloc; "accepted from {first} until {last}\n"),
    }
}

/// Returns a time, and how long it is away.
fn time_words(alloc: Global, seconds: u64, time: u64) -> Result<String, AllocError> {
    let text = time_text(alloc, seconds)?;
    format!(in alloc; "{text} ({})", distance_text(alloc, seconds, time)?)
}

/// Returns the last line: why the token is refused, or that it is only accepted without strict
/// options.
fn last_line(alloc: Global, explanation: &Explanation<'_>) -> Result<String, AllocError> {
    if let (Some(kind), Some(finding)) = (explanation.kind, first_finding(&explanation.outcome)) {
        return refusal_line(alloc, "refused", kind, finding);
    }
    match &explanation.strict {
        Some(strict) => refusal_line(
            alloc,
            "with --strict this token is refused",
            strict.kind,
            &strict.finding,
        ),
        None => Ok(String::new(alloc)),
    }
}

/// Returns the line about a refusal.
fn refusal_line(
    alloc: Global,
    start: &str,
    kind: &str,
    finding: &Finding,
) -> Result<String, AllocError> {
    let found = finding.found.as_str();
    let wanted = finding.wanted.as_str();
    format!(in alloc; "{start}: {kind}: found {found}; wanted {wanted}\n")
}

fn put_member(
    alloc: Global,
    members: &mut Map<String, Value>,
    name: &str,
    value: Value,
) -> Result<(), AllocError> {
    members.insert(String::from_str(alloc, name)?, value)?;
    Ok(())
}

fn put_text(
    alloc: Global,
    members: &mut Map<String, Value>,
    name: &str,
    text: &str,
) -> Result<(), AllocError> {
    let text = String::from_str(alloc, text)?;
    put_member(alloc, members, name, Value::String(text))
}

/// Puts the test that fails among the members, what it found and what it asks for.
fn put_outcome(
    alloc: Global,
    members: &mut Map<String, Value>,
    outcome: &Outcome,
) -> Result<(), AllocError> {
    let (name, findings) = match outcome {
        Outcome::Accepted => return Ok(()),
        Outcome::Failed(test, findings) => (test.name(), findings.as_slice()),
        Outcome::OtherType(finding) => (TYPE_AGREES, slice::from_ref(finding)),
    };
    put_text(alloc, members, "test", name)?;
    if let Some(finding) = findings.first() {
        put_finding(alloc, members, finding)?;
    }
    if findings.len() > 1 {
        let others = other_findings(alloc, findings)?;
        put_member(alloc, members, "others", Value::Array(others))?;
    }
    Ok(())
}

fn put_finding(
    alloc: Global,
    members: &mut Map<String, Value>,
    finding: &Finding,
) -> Result<(), AllocError> {
    put_text(alloc, members, "found", finding.found.as_str())?;
    put_text(alloc, members, "wanted", finding.wanted.as_str())
}

/// Returns objects with the findings after the first.
fn other_findings(alloc: Global, findings: &[Finding]) -> Result<Vec<Value>, AllocError> {
    let mut others = Vec::new(alloc);
    for finding in findings.iter().skip(1) {
        let mut members = Map::new(alloc);
        put_finding(alloc, &mut members, finding)?;
        others.push(Value::Object(members))?;
    }
    Ok(others)
}

/// Puts the kind of the refusal under strict options among the members, if there is one.
fn put_strict(
    alloc: Global,
    members: &mut Map<String, Value>,
    strict: &Option<ClaimFailure>,
) -> Result<(), AllocError> {
    match strict {
        Some(strict) => put_text(alloc, members, "strict", strict.kind),
        None => Ok(()),
    }
}

/// Puts the times among the members; null stands for none.
fn put_moments(
    alloc: Global,
    members: &mut Map<String, Value>,
    moments: Option<Moments>,
) -> Result<(), AllocError> {
    let (first, last) = match moments {
        Some(moments) => (Value::from(moments.first), Value::from(moments.last)),
        None => (Value::Null, Value::Null),
    };
    put_member(alloc, members, "first", first)?;
    put_member(alloc, members, "last", last)
}
