//! The header and the claims of a token, as they are shown.

use crate::escapes::escape_unseen;
use crate::findings::Finding;
use crate::part_findings::unread_finding;
use crate::salvage::{Salvage, salvage_of};
use crate::times::claim_lines;
use jsonwebtoken::errors::ErrorKind;
use serde_json::Value;
use std::alloc::{AllocError, Global};

/// Returns the header and the claims as they can be shown: with the characters that are not seen
/// escaped.
pub fn contents_text(
    alloc: Global,
    header: &Value,
    claims: &Value,
    time: u64,
    is_json: bool,
) -> Result<String, AllocError> {
    let text = if is_json {
        json_line(alloc, header, claims)?
    } else {
        page(alloc, header, claims, time)?
    };
    escape_unseen(alloc, text)
}

/// Returns the header and the claims as one line of JSON.
fn json_line(alloc: Global, header: &Value, claims: &Value) -> Result<String, AllocError> {
    let header = header.to_string(alloc)?;
    let claims = claims.to_string(alloc)?;
    format!(in alloc; "{{\"verified\":false,\"header\":{header},\"claims\":{claims}}}\n")
}

/// Returns the header and the claims for people: JSON in lines, and the times among the claims.
fn page(alloc: Global, header: &Value, claims: &Value, time: u64) -> Result<String, AllocError> {
    let header = header.to_string_pretty(alloc)?;
    let text = claims.to_string_pretty(alloc)?;
    let times = claim_lines(alloc, claims, time)?;
    format!(in alloc; "{header}\n{text}\n{times}")
}

/// Returns output and message about a text that is not a token as it stands.
pub fn salvage_texts(
    alloc: Global,
    token: &[u8],
    time: u64,
    is_json: bool,
    kind: &ErrorKind,
) -> Result<(String, String), AllocError> {
    let salvage = salvage_of(alloc, token)?;
    let finding = unread_finding(alloc, token)?;
    let output = if is_json {
        salvage_line(alloc, &salvage, &finding)?
    } else {
        salvage_page(alloc, &salvage, time)?
    };
    let message = salvage_message(alloc, &salvage, &finding, kind)?;
    Ok((output, message))
}

/// Returns the same as one line of JSON, with why the text is not a token.
fn salvage_line(alloc: Global, salvage: &Salvage, finding: &Finding) -> Result<String, AllocError> {
    let header = value_text(alloc, &salvage.header)?;
    let claims = value_text(alloc, &salvage.claims)?;
    let found = quoted_text(alloc, finding.found.as_str())?;
    let wanted = quoted_text(alloc, finding.wanted.as_str())?;
    let line = format!(in alloc;
        "{{\"verified\":false,\"header\":{header},\"claims\":{claims},\"found\":{found},\"wanted\":{wanted}}}\n"
    )?;
    escape_unseen(alloc, line)
}

/// Returns the JSON of a value, and `null` for none.
fn value_text(alloc: Global, value: &Option<Value>) -> Result<String, AllocError> {
    match value {
        Some(value) => value.to_string(alloc),
        None => String::from_str(alloc, "null"),
    }
}

/// Returns a text as a JSON string.
fn quoted_text(alloc: Global, text: &str) -> Result<String, AllocError> {
    Value::String(String::from_str(alloc, text)?).to_string(alloc)
}

/// Returns for people what can be read of a text that is not a token as it stands.
fn salvage_page(alloc: Global, salvage: &Salvage, time: u64) -> Result<String, AllocError> {
    let mut page = String::new(alloc);
    push_value(alloc, &mut page, &salvage.header)?;
    push_value(alloc, &mut page, &salvage.claims)?;
    if let Some(claims) = &salvage.claims {
        page.push_str(claim_lines(alloc, claims, time)?.as_str())?;
    }
    escape_unseen(alloc, page)
}

/// Adds a value as JSON in lines, if there is one.
fn push_value(alloc: Global, page: &mut String, value: &Option<Value>) -> Result<(), AllocError> {
    if let Some(value) = value {
        page.push_str(value.to_string_pretty(alloc)?.as_str())?;
        page.push('\n')?;
    }
    Ok(())
}

/// Returns the lines that say what is not shown, and why the text is not a token as it stands.
fn salvage_message(
    alloc: Global,
    salvage: &Salvage,
    finding: &Finding,
    kind: &ErrorKind,
) -> Result<String, AllocError> {
    let mut lines = String::new(alloc);
    push_unshown(&mut lines, salvage)?;
    let found = finding.found.as_str();
    let wanted = finding.wanted.as_str();
    let name = kind.name();
    let refusal = format!(in alloc; "refused: {name}: found {found}; wanted {wanted}\n")?;
    lines.push_str(refusal.as_str())?;
    Ok(lines)
}

/// Adds the lines that say what is not shown, unless nothing is.
fn push_unshown(lines: &mut String, salvage: &Salvage) -> Result<(), AllocError> {
    if salvage.header.is_none() && salvage.claims.is_none() {
        return Ok(());
    }
    lines.push_str("NOT VERIFIED\n")?;
    if salvage.header.is_none() {
        lines.push_str("the header is not JSON in base64url, and is not shown\n")?;
    }
    if salvage.is_encrypted {
        lines.push_str("the other parts are encrypted, and are not shown\n")?;
    } else if salvage.claims.is_none() {
        lines.push_str("the payload is not JSON in base64url, and is not shown\n")?;
    }
    Ok(())
}
