//! The contents of a text that is not a token as it stands: those of its parts that are JSON.

use crate::findings::part_value;
use crate::wrappings::is_encrypted;
use serde_json::Value;
use std::alloc::{AllocError, Global};

/// The header and the claims of a text, as far as they are JSON in base64url.
#[derive(Drop)]
pub struct Salvage {
    pub header: Option<Value>,
    pub claims: Option<Value>,
    /// Whether the text has the five parts of an encrypted token.
    pub is_encrypted: bool,
}

/// Returns the header and the claims of a text, of which nothing is verified, as far as they are
/// JSON in base64url. Text around a token is left out, such as quotes or the word Bearer.
pub fn salvage_of(alloc: Global, text: &[u8]) -> Result<Salvage, AllocError> {
    let token = decode_url(alloc, likely_token(text))?;
    let is_encrypted = is_encrypted(&token);
    let mut parts = token.split(|byte| *byte == b'.');
    let header = value_of(alloc, parts.next())?;
    let payload = if is_encrypted { None } else { parts.next() };
    let claims = value_of(alloc, payload)?;
    Ok(Salvage {
        header,
        claims,
        is_encrypted,
    })
}

/// Returns a text with each byte that is URL-encoded in its place.
fn decode_url(alloc: Global, text: &[u8]) -> Result<Vec<u8>, AllocError> {
    let mut bytes = Vec::new(alloc);
    let mut left = 0;
    for (place, byte) in text.iter().enumerate() {
        if left > 0 {
            left -= 1;
        } else if let Some(encoded) = encoded_byte(&text[place..]) {
            bytes.push(encoded)?;
            left = 2;
        } else {
            bytes.push(*byte)?;
        }
    }
    Ok(bytes)
}

/// Returns the byte that a percent sign and two digits at the front of a text stand for (RFC 3986
/// section 2.1).
fn encoded_byte(text: &[u8]) -> Option<u8> {
    let [b'%', high, low, ..] = text else {
        return None;
    };
    let high = digit(*high)?;
    let low = digit(*low)?;
    Some(high << 4 | low)
}

/// Returns the value of a hexadecimal digit.
fn digit(byte: u8) -> Option<u8> {
    match byte {
        b'0'..=b'9' => Some(byte - b'0'),
        b'a'..=b'f' => Some(byte - b'a' + 10),
        b'A'..=b'F' => Some(byte - b'A' + 10),
        _ => None,
    }
}

/// Returns the bytes of a text that are likely a token: the first that begin as a header does, or
/// else the first with a dot.
fn likely_token(text: &[u8]) -> &[u8] {
    let mut likely = None;
    for run in text.split(|byte| !is_of_token(*byte)) {
        let run = strip_name(run);
        if has_dot(run) {
            if run.starts_with(b"eyJ") {
                return run;
            }
            likely = likely.or(Some(run));
        }
    }
    likely.unwrap_or(text)
}

/// Returns whether a byte may stand in a token, or in one that is padded or URL-encoded.
fn is_of_token(byte: u8) -> bool {
    byte.is_ascii_alphanumeric() || matches!(byte, b'-' | b'_' | b'.' | b'=' | b'+' | b'/' | b'%')
}

/// Returns the bytes after a name and '='.
fn strip_name(run: &[u8]) -> &[u8] {
    let Some(place) = run.iter().position(|byte| matches!(*byte, b'=' | b'.')) else {
        return run;
    };
    match run.get(place..) {
        Some([b'=', first, ..]) if first.is_ascii_alphanumeric() => &run[place + 1..],
        _ => run,
    }
}

/// Returns whether some bytes have a dot, which may be URL-encoded.
fn has_dot(run: &[u8]) -> bool {
    run.contains(&b'.')
        || run
            .windows(3)
            .any(|window| window.eq_ignore_ascii_case(b"%2e"))
}

fn value_of(alloc: Global, part: Option<&[u8]>) -> Result<Option<Value>, AllocError> {
    match part {
        Some(part) => part_value(alloc, &plain_part(alloc, part)?),
        None => Ok(None),
    }
}

/// Returns a part without padding, in the alphabet of base64url.
fn plain_part(alloc: Global, part: &[u8]) -> Result<Vec<u8>, AllocError> {
    let mut plain = Vec::new(alloc);
    for byte in part {
        match *byte {
            b'=' => {}
            b'+' => plain.push(b'-')?,
            b'/' => plain.push(b'_')?,
            other => plain.push(other)?,
        }
    }
    Ok(plain)
}
