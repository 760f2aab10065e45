//! The parts of a token: base64url text, and the JSON bytes that it stands for.

ghost use Rattle.std.specs.Prelude.{◌≡◌, ℕ, List, IfOk, IfErr, string_bytes};
ghost use Rattle.serde_json.specs.Data.{Data};
ghost use Rattle.serde_json.specs.View.{view};
ghost use Rattle.jwt_base.specs.Kind as kind;
ghost use Rattle.jwt_base.specs.KindOf.{IsMemory, RefusesAs};
ghost use Rattle.jwt_base.specs.Base64Url.{IsPart, IsStandardText, IsUrlText};
ghost use Rattle.jwt_base.specs.JsonText.{IsJson};

use crate::errors::Result;
use base64::engine::general_purpose::{STANDARD, URL_SAFE, URL_SAFE_NO_PAD};
use serde_json::Value;
use std::alloc::Global;

/// Returns the bytes that a part stands for (RFC 7515 section 2). Any other text is refused with
/// `Base64`: one with a character outside the 64, with padding, of an impossible length, or with a
/// spare bit set.
pub fn part_bytes(alloc: Global, text: &[u8]) -> Result<Vec<u8>>
    ensures ok { IfOk result (λ b. IsPart text.now b.items) }
    ensures err { IfErr result (RefusesAs kind.Base64 ((b : List ℕ) → ¬ IsPart text.now b)) }
{
    Ok(URL_SAFE_NO_PAD.decode(alloc, text)?)
}

/// Returns the part that stands for the bytes. The only refusal is `OutOfMemory`.
pub fn part_text(alloc: Global, bytes: &[u8]) -> Result<String>
    ensures ok { IfOk result (λ t. IsPart (string_bytes t) bytes.now) }
    ensures err { IfErr result IsMemory }
{
    Ok(URL_SAFE_NO_PAD.encode(alloc, bytes)?)
}

/// Returns the bytes of base64 text in the standard alphabet with padding (RFC 4648 section 4). Any
/// other text is refused with `Base64`.
pub fn standard_bytes(alloc: Global, text: &[u8]) -> Result<Vec<u8>>
    ensures ok { IfOk result (λ b. IsStandardText text.now b.items) }
    ensures err { IfErr result (RefusesAs kind.Base64
        ((b : List ℕ) → ¬ IsStandardText text.now b)) }
{
    Ok(STANDARD.decode(alloc, text)?)
}

/// Returns the bytes of base64 text in the URL alphabet with padding (RFC 4648 section 5). Any
/// other text is refused with `Base64`.
pub fn url_bytes(alloc: Global, text: &[u8]) -> Result<Vec<u8>>
    ensures ok { IfOk result (λ b. IsUrlText text.now b.items) }
    ensures err { IfErr result (RefusesAs kind.Base64 ((b : List ℕ) → ¬ IsUrlText text.now b)) }
{
    Ok(URL_SAFE.decode(alloc, text)?)
}

/// Parses the bytes as JSON, and returns the value. Bytes that are not UTF-8 or not JSON, or that
/// nest deeper than 127 levels, are refused with `Json`.
pub fn json_value(alloc: Global, bytes: &[u8]) -> Result<Value>
    ensures ok { IfOk result (λ v. IsJson bytes.now (view v)) }
    ensures err { IfErr result (RefusesAs kind.Json ((d : Data) → ¬ IsJson bytes.now d)) }
{
    Ok(Value::from_slice(alloc, bytes)?)
}
