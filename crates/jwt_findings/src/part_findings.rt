//! Findings about the parts of a token: their contents and those that a failed test asks for.

use crate::attempts::value_unless_refused;
use crate::findings::{Finding, part_value, quote};
use crate::wrappings::wrapping_of;
use jsonwebtoken::errors::Error;
use jsonwebtoken::{Test, decode_header};
use jwt_base::serialization::part_bytes;
use serde_json::Value;
use std::alloc::{AllocError, Global};

/// The three parts of a token.
#[derive(Clone, Copy)]
pub struct Parts<'t> {
    pub header: &'t [u8],
    pub payload: &'t [u8],
    pub signature: &'t [u8],
}

/// Returns the parts between the last two dots and around them, if there are two.
pub fn split_parts(token: &[u8]) -> Option<Parts<'_>> {
    let mut parts = token.rsplitn(3, |byte| *byte == b'.');
    let signature = parts.next()?;
    let payload = parts.next()?;
    let header = parts.next()?;
    Some(Parts {
        header,
        payload,
        signature,
    })
}

/// Returns the finding of a text that is not three parts.
pub fn text_finding(alloc: Global, token: &[u8]) -> Result<Finding, AllocError> {
    if let Some(found) = wrapping_of(token) {
        return Finding::new(alloc, found.found, found.wanted);
    }
    if token.is_empty() {
        return Finding::new(
            alloc,
            "no text",
            "a token: the file or the variable that it was taken from is empty",
        );
    }
    let has_dot = token.contains(&b'.');
    if begins_with_header(alloc, token)? {
        let found = if has_dot {
            "a text with one dot: the token is cut"
        } else {
            "a header alone: the token is cut"
        };
        return Finding::new(
            alloc,
            found,
            "the whole token: header, payload and signature with dots between them",
        );
    }
    let found = if has_dot {
        "a text with one dot, whose first part is no header: an opaque token, or not a token"
    } else {
        "a text without a dot: an opaque token, or not a token"
    };
    Finding::new(
        alloc,
        found,
        "header, payload and signature with dots between them; its issuer knows an opaque token (RFC 7662)",
    )
}

/// Returns whether the text before the first dot is a JSON object in base64url.
fn begins_with_header(alloc: Global, token: &[u8]) -> Result<bool, AllocError> {
    let Some(front) = token.split(|byte| *byte == b'.').next() else {
        return Ok(false);
    };
    match part_value(alloc, front)? {
        Some(value) => {
            let is_object = value.as_object().is_some();
            // one drop
            drop(value);
            Ok(is_object)
        }
        None => Ok(false),
    }
}

/// Returns whether a byte is a character of base64url.
pub fn is_of_base64url(byte: u8) -> bool {
    byte.is_ascii_alphanumeric() || byte == b'-' || byte == b'_'
}

/// Returns the name of the type of a value.
pub fn type_name(value: &Value) -> &'static str {
    match value {
        Value::Null => "null",
        Value::Bool(_) => "a truth value",
        Value::Number(_) => "a number",
        Value::String(_) => "a string",
        Value::Array(_) => "an array",
        Value::Object(_) => "an object",
    }
}

/// Returns the finding of a test of a part of a token.
pub fn part_finding(
    alloc: Global,
    token: &[u8],
    part: &[u8],
    test: Test,
) -> Result<Finding, AllocError> {
    if let Test::HeaderIsBase64url
    | Test::HeaderIsJson
    | Test::SignatureIsBase64url
    | Test::PayloadIsBase64url = test
        && let Some(found) = wrapping_of(token)
    {
        return Finding::new(alloc, found.found, found.wanted);
    }
    match test {
        Test::HeaderIsBase64url | Test::HeaderIsJson if is_no_header(part) => no_header(alloc),
        Test::HeaderIsBase64url | Test::SignatureIsBase64url | Test::PayloadIsBase64url => Ok(
            Finding {
                found: base64url_problem(alloc, part)?,
                wanted: String::from_str(alloc, base64url_cure(part))?,
            },
        ),
        Test::HeaderIsValid => header_finding(alloc, part),
        Test::ClaimsAreAnObject => Ok(Finding {
            found: type_text(alloc, part)?,
            wanted: String::from_str(alloc, "an object (RFC 7519 section 7.2)")?,
        }),
        _ => Finding::new(
            alloc,
            json_problem(part),
            "JSON in UTF-8 (RFC 8259), nested at most 127 deep, of numbers that a double can hold",
        ),
    }
}

/// Returns whether a part can't be a header in base64url: it begins with no '{' and has no white
/// space there.
fn is_no_header(part: &[u8]) -> bool {
    part.iter().all(|byte| is_of_base64url(*byte))
        && !part.is_empty()
        && !part.starts_with(b"e")
        && !part.starts_with(b"I")
        && !part.starts_with(b"C")
        && !part.starts_with(b"D")
}

fn no_header(alloc: Global) -> Result<Finding, AllocError> {
    Finding::new(
        alloc,
        "a first part that is no header, which begins with 'eyJ'",
        "a token: perhaps this is one of another kind, such as PASETO, or no token at all",
    )
}

/// Returns why the bytes of a part are not JSON.
fn json_problem(part: &[u8]) -> &'static str {
    if part.is_empty() {
        "no bytes"
    } else if part.starts_with(b"ZXlK") {
        "a token within the token (RFC 7519 section 5.2), which is not read here"
    } else if part.starts_with(b"77u_") {
        "a byte order mark before the JSON"
    } else if part.starts_with(b"eyd") {
        "single quotes, as Python writes them and JSON does not have them"
    } else {
        "bytes that are not JSON"
    }
}

/// Returns the finding of a text whose header or claims can't be read.
pub fn unread_finding(alloc: Global, token: &[u8]) -> Result<Finding, AllocError> {
    let Some(parts) = split_parts(token) else {
        return text_finding(alloc, token);
    };
    if let Some(test) = header_test(alloc, token, parts.header)? {
        return part_finding(alloc, token, parts.header, test);
    }
    let test = match value_unless_refused(part_bytes(alloc, parts.payload))? {
        Some(_) => Test::PayloadIsJson,
        None => Test::PayloadIsBase64url,
    };
    part_finding(alloc, token, parts.payload, test)
}

/// Returns the finding of a payload that no claims were written as, so that it was changed after
/// the signature was made over it.
pub fn altered_finding(alloc: Global, payload: &[u8]) -> Result<Option<Finding>, AllocError> {
    if payload.is_empty() {
        return Ok(Some(Finding::new(
            alloc,
            "a signature that does not match, and an empty payload: perhaps it is detached",
            "the token with its payload (RFC 7515 appendix F)",
        )?));
    }
    let problem = if is_refused(part_bytes(alloc, payload))? {
        base64url_problem(alloc, payload)?
    } else if part_value(alloc, payload)?.is_none() {
        String::from_str(alloc, json_problem(payload))?
    } else {
        return Ok(None);
    };
    Ok(Some(Finding {
        found: format!(in alloc; "a signature that does not match, and in the payload {problem}")?,
        wanted: String::from_str(
            alloc,
            "the token as it was issued: perhaps a mail, a terminal or an editor changed it",
        )?,
    }))
}

/// Returns the name of the type of a part's value.
fn type_text(alloc: Global, part: &[u8]) -> Result<String, AllocError> {
    let name = match part_value(alloc, part)? {
        Some(value) => {
            let name = type_name(&value);
            // one drop
            drop(value);
            name
        }
        None => json_problem(part),
    };
    Ok(String::from_str(alloc, name)?)
}

/// Returns the finding of a part whose value is not a header.
fn header_finding(alloc: Global, part: &[u8]) -> Result<Finding, AllocError> {
    match part_value(alloc, part)? {
        Some(value) => {
            let found = header_problem(alloc, &value);
            let wanted = header_cure(&value);
            // one drop
            drop(value);
            Ok(Finding {
                found: found?,
                wanted: String::from_str(alloc, wanted)?,
            })
        }
        None => no_header(alloc),
    }
}

/// Returns why a part is not base64url.
fn base64url_problem(alloc: Global, part: &[u8]) -> Result<String, AllocError> {
    if let Some(place) = part.iter().position(|byte| !is_of_base64url(*byte)) {
        let name = part.get(place).copied().map_or("", byte_name);
        return format!(in alloc; "{name}, at byte {} of the part", place as u64 + 1);
    }
    if part.len() % 4 == 1 {
        return format!(in alloc; "{} characters, a number that no bytes have", part.len());
    }
    String::from_str(
        alloc,
        "a last character whose unused bits are not 0: another text of the same bytes",
    )
}

fn byte_name(byte: u8) -> &'static str {
    match byte {
        b'=' => "'=', which is padding",
        b'+' | b'/' => "'+' or '/', of the other alphabet of base64",
        b' ' => "a space",
        b'\t' => "a tab",
        b'*' => "'*', as a program writes in place of what it hides",
        b'~' => "'~', as between the parts of a token with disclosures (SD-JWT)",
        b'&' => "'&', as between the arguments of an address",
        b',' | b';' => "',' or ';', as between values",
        b'\r' | b'\n' => "a line end",
        b'"' => "a quotation mark",
        b'.' => "a dot",
        _ => "a character that base64url does not have",
    }
}

/// Returns what a part asks for that is not base64url, by its first character that is not.
fn base64url_cure(part: &[u8]) -> &'static str {
    match part.iter().find(|byte| !is_of_base64url(**byte)) {
        None => "the whole token, as it was issued: perhaps text was cut or added",
        Some(b'=') => "base64url without padding (RFC 7515 section 2)",
        Some(b'+' | b'/') => "base64url, with '-' for '+' and '_' for '/' (RFC 4648 section 5)",
        Some(b' ' | b'\t' | b'\r' | b'\n') => "the token alone, in one line and without spaces",
        Some(b'*') => "the whole token",
        Some(b'~') => "the signed token alone: the text before the first '~'",
        Some(b'&' | b',' | b';') => "the token alone: the text before that character",
        Some(_) => "the token alone, of letters, digits, '-', '_' and its two dots",
    }
}

/// Members of a header that are strings (RFC 7515 section 4.1).
const TEXTS: [&str; 11] = [
    "typ", "cty", "kid", "jku", "x5u", "x5t", "x5t#S256", "enc", "zip", "url", "nonce",
];

/// Members of a header that are lists of strings (RFC 7515 section 4.1).
const LISTS: [&str; 2] = ["crit", "x5c"];

/// Returns whether a header has one of the twelve algorithms.
fn has_algorithm(header: &Value) -> bool {
    matches!(header.get("alg"), Some(Value::String(name)) if name.parse::<jsonwebtoken::Algorithm>().is_ok())
}

/// Returns why a value is not a header.
fn header_problem(alloc: Global, header: &Value) -> Result<String, AllocError> {
    if header.as_object().is_none() {
        return String::from_str(alloc, type_name(header));
    }
    if has_algorithm(header) {
        return member_problem(alloc, header);
    }
    match header.get("alg") {
        None => String::from_str(alloc, "no 'alg'"),
        Some(Value::String(name)) => {
            format!(in alloc; "the algorithm {}", quote(alloc, name.as_str())?)
        }
        Some(other) => format!(in alloc; "{} as 'alg'", type_name(other)),
    }
}

/// Returns the member of a header that has another type than it has to.
fn member_problem(alloc: Global, header: &Value) -> Result<String, AllocError> {
    for name in &TEXTS {
        if let Some(value) = header.get(*name)
            && !value.is_string()
            && !value.is_null()
        {
            return format!(in alloc; "{} as '{name}'", type_name(value));
        }
    }
    for name in &LISTS {
        if let Some(value) = header.get(*name)
            && value.as_array().is_none()
            && !value.is_null()
        {
            return format!(in alloc; "{} as '{name}'", type_name(value));
        }
    }
    String::from_str(
        alloc,
        "a number with a fraction, or a 'crit', 'x5c' or 'jwk' of another form",
    )
}

/// Returns what a value asks for that is not a header.
fn header_cure(header: &Value) -> &'static str {
    if has_algorithm(header) {
        "members of the types of RFC 7515 section 4.1, and no number with a fraction"
    } else {
        "an object whose 'alg' is one of the twelve algorithms (RFC 7515 section 4.1)"
    }
}

/// Returns the first test of a header that can't be read, or `None` if it can.
fn header_test(alloc: Global, token: &[u8], header: &[u8]) -> Result<Option<Test>, AllocError> {
    if is_refused(part_bytes(alloc, header))? {
        return Ok(Some(Test::HeaderIsBase64url));
    }
    if part_value(alloc, header)?.is_none() {
        return Ok(Some(Test::HeaderIsJson));
    }
    if is_refused(decode_header(alloc, token))? {
        return Ok(Some(Test::HeaderIsValid));
    }
    Ok(None)
}

fn is_refused<R: Drop>(made: Result<R, Error>) -> Result<bool, AllocError> {
    let value = value_unless_refused(made)?;
    Ok(value.is_none())
}
