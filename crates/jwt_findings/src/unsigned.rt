//! Why claims are not signed, in sentences.

use crate::findings::quote;
use crate::refusals::error_line;
use jsonwebtoken::errors::{Error, ErrorKind};
use serde_json::Value;
use std::alloc::{AllocError, Global};

/// Returns the line that says why claims are not signed, for an error which is not that memory ran
/// out.
pub fn unsigned_line(alloc: Global, error: &Error, claims: &Value) -> Result<String, AllocError> {
    match error.kind() {
        ErrorKind::InvalidAlgorithm => String::from_str(
            alloc,
            "refused: InvalidAlgorithm: a secret signs with HS256, HS384 and HS512\n",
        ),
        ErrorKind::Json => float_line(alloc, claims),
        ErrorKind::InvalidSignature => String::from_str(
            alloc,
            "refused: InvalidSignature: the file has neither r and s of this curve nor DER of them\n",
        ),
        ErrorKind::Signing(reason) => signing_line(alloc, reason.as_str()),
        _ => error_line(alloc, error),
    }
}

/// Returns the line about a signature of another message or of another length.
fn signing_line(alloc: Global, reason: &str) -> Result<String, AllocError> {
    let reason = match reason {
        "another message" => "the signing input is not written as --signing-input writes it",
        _ => reason,
    };
    format!(in alloc; "refused: Signing: {reason}\n")
}

/// Returns the line about claims with a number that is not whole, which `encode` refuses.
fn float_line(alloc: Global, claims: &Value) -> Result<String, AllocError> {
    match float_name(claims) {
        Some(name) => format!(in alloc;
            "refused: Json: the claim {} is a number that is not whole, which is not signed\n",
            quote(alloc, name)?
        ),
        None => String::from_str(
            alloc,
            "refused: Json: a claim has a number that is not whole, which is not signed\n",
        ),
    }
}

/// Returns the name of the first claim that is a number that is not whole.
fn float_name(claims: &Value) -> Option<&str> {
    for (name, value) in claims.as_object()? {
        if value.is_f64() {
            return Some(name.as_str());
        }
    }
    None
}
