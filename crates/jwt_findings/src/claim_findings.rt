//! Findings about claims: those that a token has and those that the options ask for.

use crate::findings::{Finding, choice, part_value, quote};
use crate::part_findings::type_name;
use crate::times::{distance_text, is_likely_milliseconds, span_text, time_text};
use jsonwebtoken::Validation;
use jsonwebtoken::options::{Rule, broken_rules};
use serde_json::Value;
use std::alloc::{AllocError, Global};
use std::collections::HashSet;

/// The claims that can be required, in the order in which they are looked for.
const CLAIMS: [&str; 5] = ["exp", "nbf", "aud", "iss", "sub"];

/// A claim rule that fails.
#[derive(Drop)]
pub struct ClaimFailure {
    /// The kind of the refusal.
    pub kind: &'static str,
    pub finding: Finding,
}

/// The claims of a token, and the options and the time by which their rules hold or fail.
#[derive(Clone, Copy)]
struct Rules<'r> {
    claims: &'r Value,
    validation: &'r Validation,
    time: u64,
}

/// Returns the failures of all claim rules that fail, in the order in which they are tested: those
/// of the required claims that are missing, and then those of the other rules.
pub fn claim_failures(
    alloc: Global,
    claims: &Value,
    validation: &Validation,
    time: u64,
) -> Result<Vec<ClaimFailure>, AllocError> {
    let rules = Rules {
        claims,
        validation,
        time,
    };
    let mut failures = Vec::new(alloc);
    push_missing(alloc, rules, &mut failures)?;
    push_broken(alloc, rules, &mut failures)?;
    Ok(failures)
}

/// Returns the findings of all claim rules that fail.
pub fn claim_findings(
    alloc: Global,
    payload: &[u8],
    validation: &Validation,
    time: u64,
) -> Result<Vec<Finding>, AllocError> {
    let Some(claims) = part_value(alloc, payload)? else {
        return Err(AllocError);
    };
    let failures = claim_failures(alloc, &claims, validation, time);
    // one drop
    drop(claims);
    let mut findings = Vec::new(alloc);
    for failure in failures? {
        findings.push(failure.finding)?;
    }
    Ok(findings)
}

/// Adds the failures of required claims that are missing.
fn push_missing(
    alloc: Global,
    rules: Rules<'_>,
    failures: &mut Vec<ClaimFailure>,
) -> Result<(), AllocError> {
    for name in &CLAIMS {
        if is_missing(rules, name) {
            failures.push(ClaimFailure {
                kind: "MissingRequiredClaim",
                finding: form_finding(alloc, rules, name)?,
            })?;
        }
    }
    Ok(())
}

/// Returns whether a claim is required, and absent or malformed.
fn is_missing(rules: Rules<'_>, name: &str) -> bool {
    rules.validation.required_spec_claims.contains(name) && !has_value(rules.claims, name)
}

/// Returns whether a claim that has rules is present, with a value of its type (RFC 7519 section
/// 4.1).
fn has_value(claims: &Value, name: &str) -> bool {
    match (name, claims.get(name)) {
        ("exp" | "nbf", Some(value)) => value.as_u64().is_some(),
        ("aud" | "iss", Some(Value::Array(values))) => values.iter().all(Value::is_string),
        (_, Some(value)) => value.is_string(),
        (_, None) => false,
    }
}

/// Adds the failures of the rules that are broken, but of those about a claim that is missing.
fn push_broken(
    alloc: Global,
    rules: Rules<'_>,
    failures: &mut Vec<ClaimFailure>,
) -> Result<(), AllocError> {
    // the only refusal is `OutOfMemory`
    let Ok(broken) = broken_rules(alloc, rules.claims, rules.validation, rules.time) else {
        return Err(AllocError);
    };
    for rule in broken {
        if !is_missing(rules, claim_of(rule)) {
            failures.push(broken_failure(alloc, rules, rule)?)?;
        }
    }
    Ok(())
}

/// Returns the claim that a rule is about.
fn claim_of(rule: Rule) -> &'static str {
    match rule {
        Rule::ExpFormat | Rule::ExpReject | Rule::ExpTime => "exp",
        Rule::NbfFormat | Rule::NbfTime => "nbf",
        Rule::Subject => "sub",
        Rule::Issuer => "iss",
        Rule::Audience => "aud",
    }
}

/// Returns the failure of a rule that is broken, whose claim is then present.
fn broken_failure(alloc: Global, rules: Rules<'_>, rule: Rule) -> Result<ClaimFailure, AllocError> {
    let name = claim_of(rule);
    if !has_value(rules.claims, name) {
        return Ok(ClaimFailure {
            kind: "InvalidClaimFormat",
            finding: form_finding(alloc, rules, name)?,
        });
    }
    Ok(ClaimFailure {
        kind: kind_name(rule),
        finding: rule_finding(alloc, rules, rule)?,
    })
}

/// Returns the name of the kind of a rule's refusal, if its claim is well-formed.
fn kind_name(rule: Rule) -> &'static str {
    match rule {
        Rule::ExpFormat | Rule::NbfFormat => "InvalidClaimFormat",
        Rule::ExpReject => "InvalidToken",
        Rule::ExpTime => "ExpiredSignature",
        Rule::NbfTime => "ImmatureSignature",
        Rule::Subject => "InvalidSubject",
        Rule::Issuer => "InvalidIssuer",
        Rule::Audience => "InvalidAudience",
    }
}

/// Returns the finding of a rule that is broken.
fn rule_finding(alloc: Global, rules: Rules<'_>, rule: Rule) -> Result<Finding, AllocError> {
    match rule {
        Rule::ExpFormat => form_finding(alloc, rules, "exp"),
        Rule::NbfFormat => form_finding(alloc, rules, "nbf"),
        Rule::ExpReject => least_end_finding(alloc, rules),
        Rule::ExpTime => end_finding(alloc, rules),
        Rule::NbfTime => start_finding(alloc, rules),
        Rule::Subject => subject_finding(alloc, rules),
        Rule::Issuer => Ok(Finding {
            found: found_texts(alloc, rules.claims, "iss")?,
            wanted: names_or_text(alloc, &rules.validation.iss, "an issuer that --iss names")?,
        }),
        Rule::Audience => Ok(Finding {
            found: found_texts(alloc, rules.claims, "aud")?,
            wanted: names_or_text(
                alloc,
                &rules.validation.aud,
                "no aud, or an audience that --aud names",
            )?,
        }),
    }
}

/// Returns the finding of a claim that is absent or malformed.
fn form_finding(alloc: Global, rules: Rules<'_>, name: &str) -> Result<Finding, AllocError> {
    let wanted = match option_names(alloc, rules.validation, name)? {
        Some(names) => format!(in alloc; "{name} {names}")?,
        None => format!(in alloc; "{name}: {}", form_of(name))?,
    };
    Ok(Finding {
        found: claim_contents(alloc, rules.claims, name)?,
        wanted,
    })
}

/// Returns the names that the options have for a claim, as a list in words, if there are any.
fn option_names(
    alloc: Global,
    validation: &Validation,
    name: &str,
) -> Result<Option<String>, AllocError> {
    match (name, &validation.sub) {
        ("aud", _) => names_of_set(alloc, &validation.aud),
        ("iss", _) => names_of_set(alloc, &validation.iss),
        ("sub", Some(subject)) => Ok(Some(quote(alloc, subject.as_str())?)),
        _ => Ok(None),
    }
}

/// Returns the names of a set as a list in words, if there is one.
fn names_of_set(
    alloc: Global,
    names: &Option<HashSet<String>>,
) -> Result<Option<String>, AllocError> {
    match names {
        Some(names) => Ok(Some(name_list(alloc, names)?)),
        None => Ok(None),
    }
}

/// Returns the names of a set in the order of their bytes, as a list in words.
fn name_list(alloc: Global, names: &HashSet<String>) -> Result<String, AllocError> {
    let mut found = Vec::new(alloc);
    for name in names.iter() {
        found.push(quote(alloc, name.as_str())?)?;
    }
    found.sort_unstable();
    choice(alloc, &found)
}

/// Returns the form of a claim.
fn form_of(name: &str) -> &'static str {
    match name {
        "exp" | "nbf" => "a whole number of seconds since 1970-01-01 00:00:00 UTC, without quotes",
        "sub" => "a string",
        _ => "a string, or an array of strings",
    }
}

/// Returns the contents of a claim that is absent or malformed.
fn claim_contents(alloc: Global, claims: &Value, name: &str) -> Result<String, AllocError> {
    let Some(value) = claims.get(name) else {
        return format!(in alloc; "no {name}");
    };
    if matches!(name, "exp" | "nbf") && value.is_number() {
        let text = value.to_string(alloc)?;
        let problem = number_problem(value, text.as_bytes());
        return format!(in alloc; "{name} {text}, {problem}");
    }
    format!(in alloc; "{} as {name}", type_name(value))
}

/// Returns why a number is not a time.
fn number_problem(number: &Value, text: &[u8]) -> &'static str {
    if number.is_i64() {
        "which is negative"
    } else if text.contains(&b'+') {
        "which has an exponent or is beyond 64 bits"
    } else {
        "which has a fraction or an exponent"
    }
}

fn end_finding(alloc: Global, rules: Rules<'_>) -> Result<Finding, AllocError> {
    Ok(Finding {
        found: found_time(alloc, rules.claims, "exp", rules.time)?,
        wanted: wanted_end(alloc, rules.validation)?,
    })
}

/// Returns the name of a claim and its time.
fn found_time(alloc: Global, claims: &Value, name: &str, time: u64) -> Result<String, AllocError> {
    match claims.get(name).and_then(Value::as_u64) {
        Some(seconds) => found_seconds(alloc, name, seconds, time),
        None => found_value(alloc, claims, name),
    }
}

/// Returns the name of a claim and the time of its number of seconds.
fn found_seconds(alloc: Global, name: &str, seconds: u64, time: u64) -> Result<String, AllocError> {
    if is_likely_milliseconds(seconds) {
        return format!(in alloc; "{name} {seconds}, which looks like milliseconds");
    }
    let text = time_text(alloc, seconds)?;
    let distance = distance_text(alloc, seconds, time)?;
    if name == "exp" && seconds < time {
        return format!(in alloc; "exp {text}, expired {distance}");
    }
    format!(in alloc; "{name} {text}, {distance}")
}

/// Returns the name of a claim and its value, which is not a time.
fn found_value(alloc: Global, claims: &Value, name: &str) -> Result<String, AllocError> {
    match claims.get(name) {
        Some(value) => format!(in alloc; "{name} {}", value.to_string(alloc)?),
        None => format!(in alloc; "no {name}"),
    }
}

/// Returns from when on a token is not expired, by the leeway and the time that must be left.
fn wanted_end(alloc: Global, validation: &Validation) -> Result<String, AllocError> {
    let leeway = validation.leeway;
    let left = validation.reject_tokens_expiring_in_less_than;
    if left == 0 {
        return format!(in alloc; "exp at most {} ago (--leeway)", span_text(alloc, leeway)?);
    }
    if left > leeway && left - leeway == 1 {
        return String::from_str(alloc, "exp after now");
    }
    if left > leeway {
        let span = span_text(alloc, left - leeway)?;
        return format!(in alloc; "exp at least {span} from now (--not-within, less --leeway)");
    }
    let span = span_text(alloc, leeway - left)?;
    format!(in alloc; "exp at most {span} ago (--leeway, less --not-within)")
}

fn start_finding(alloc: Global, rules: Rules<'_>) -> Result<Finding, AllocError> {
    let leeway = rules.validation.leeway;
    let wanted = if leeway == 0 {
        String::from_str(alloc, "nbf not after now")?
    } else {
        format!(in alloc;
            "nbf at most {} from now (--leeway)",
            span_text(alloc, leeway)?
        )?
    };
    Ok(Finding {
        found: found_time(alloc, rules.claims, "nbf", rules.time)?,
        wanted,
    })
}

/// Returns the name of a claim and its texts.
fn found_texts(alloc: Global, claims: &Value, name: &str) -> Result<String, AllocError> {
    match claims.get(name) {
        Some(value) => format!(in alloc; "{name} {}", texts_of(alloc, value)?),
        None => format!(in alloc; "no {name}"),
    }
}

/// Returns the texts of a value that is one, or an array of them.
fn texts_of(alloc: Global, value: &Value) -> Result<String, AllocError> {
    match value {
        Value::String(text) => quote(alloc, text.as_str()),
        Value::Array(values) => {
            let mut names = Vec::new(alloc);
            for value in values.iter() {
                if let Value::String(text) = value {
                    names.push(quote(alloc, text.as_str())?)?;
                }
            }
            choice(alloc, &names)
        }
        _ => String::from_str(alloc, type_name(value)),
    }
}

fn names_or_text(
    alloc: Global,
    names: &Option<HashSet<String>>,
    without: &'static str,
) -> Result<String, AllocError> {
    match names {
        Some(names) if !names.is_empty() => name_list(alloc, names),
        _ => String::from_str(alloc, without),
    }
}

fn subject_finding(alloc: Global, rules: Rules<'_>) -> Result<Finding, AllocError> {
    Ok(Finding {
        found: found_texts(alloc, rules.claims, "sub")?,
        wanted: match &rules.validation.sub {
            Some(subject) => quote(alloc, subject.as_str())?,
            None => String::new(alloc),
        },
    })
}

/// Returns the finding of an `exp` that is below the time that must be left.
fn least_end_finding(alloc: Global, rules: Rules<'_>) -> Result<Finding, AllocError> {
    let left = rules.validation.reject_tokens_expiring_in_less_than;
    Ok(Finding {
        found: found_time(alloc, rules.claims, "exp", rules.time)?,
        wanted: format!(in alloc; "exp of at least {left} seconds since 1970 (--not-within)")?,
    })
}

/// Returns the lines about two claims that the package for Python treats otherwise than this
/// command: a required `exp` that is absent, and an `iat`.
pub fn python_lines(
    alloc: Global,
    claims: &Value,
    validation: &Validation,
    time: u64,
) -> Result<String, AllocError> {
    let mut lines = String::new(alloc);
    if claims.get("exp").is_none() && validation.required_spec_claims.contains("exp") {
        lines.push_str(
            "exp: the package for Python accepts a token without it, unless its 'require' lists it\n",
        )?;
    }
    match claims.get("iat") {
        Some(iat) if !iat.is_number() => lines.push_str(
            "iat: the package for Python refuses one that is not a number; no option checks it here\n",
        )?,
        Some(iat) if iat.as_u64().unwrap_or(0) > time => lines.push_str(
            "iat: the package for Python refuses the token until then; no option checks it here\n",
        )?,
        _ => {}
    }
    Ok(lines)
}
