//! The JSON texts that are arguments of calls for C, and the reasons for which a call has no
//! result.

ghost use Rattle.std.specs.Prelude.{◌≡◌, ◌↔◌, IsTrue, List, [], Some, None, IfOk, IfErr, MatchOption, codes, false};
ghost use Rattle.std.specs.Option.{option_map_or};
ghost use Rattle.serde_json.specs.Data.{Data};
ghost use Rattle.serde_json.specs.Find.{get};
ghost use Rattle.serde_json.specs.View.{view, items_view};
ghost use Rattle.jwt_base.specs.Kind as kind;
ghost use Rattle.jwt_base.specs.KindOf.{kind_of, IsMemory, RefusesAs};
ghost use Rattle.jwt_c_calls.specs.Inputs.{IsReadAs, ReadsClaimsText, empty_member};
ghost use Rattle.jwt_c_calls.specs.Inputs.{has_empty_item, is_text, lists_empty, some_is_text};

use jsonwebtoken::errors::{Error, ErrorKind, new_error};
use jwt_base::serialization::json_value;
use jwt_further::FurtherFault;
use serde_json::Value;
use std::alloc::{AllocError, Global};
use std::result::Result;

/// The value that a JSON text must describe.
#[derive(Clone, Copy)]
pub enum Input {
    Options,
    Header,
    Claims,
    Key,
    Path,
}

/// The reason for which a call has no result.
#[derive(Drop)]
pub enum CallError {
    Input(Input),
    Token(Error),
    Further(FurtherFault),
}

impl From<Error> for CallError {
    ghost use Rattle.jwt_c_calls.specs.Calls.{Refuses, answer_of};

    ghost from_gives = { λ e r. answer_of r ≡ Refuses (kind_of e) };

    fn from(refused: Error) -> CallError {
        CallError::Token(refused)
    }
}

impl From<AllocError> for CallError {
    ghost use Rattle.jwt_c_calls.specs.Calls.{Refuses, answer_of};

    ghost from_gives = { λ _ r. answer_of r ≡ Refuses kind.OutOfMemory };

    fn from(refused: AllocError) -> CallError {
        CallError::Token(Error::from(refused))
    }
}

/// Returns whether a refusal says that memory ran out.
pub fn is_memory(refused: &Error) -> bool
    ensures { IsTrue result ↔ IsMemory refused.now }
{
    match refused.kind() {
        ErrorKind::OutOfMemory => true,
        _ => false,
    }
}

/// Returns the value that was read from a text, or the refusal of the text.
pub fn read_as<T>(input: Input, read: Result<T, Error>) -> Result<T, CallError>
    ensures { IsReadAs input read result }
{
    match read {
        Ok(value) => Ok(value),
        Err(refused) => {
            if *refused.kind() == ErrorKind::OutOfMemory {
                Err(CallError::Token(refused))
            } else {
                Err(CallError::Input(input))
            }
        }
    }
}

/// Returns the claims that are the JSON text of an object; any other text is refused with `Json`.
pub fn read_claims(alloc: Global, text: &[u8]) -> Result<Value, Error>
    ensures ok { IfOk result (λ v. ReadsClaimsText text.now (view v)) }
    ensures err { IfErr result (RefusesAs kind.Json ((d : Data) → ¬ ReadsClaimsText text.now d)) }
{
    let value = json_value(alloc, text)?;
    if !value.is_object() {
        return Err(new_error(ErrorKind::Json));
    }
    Ok(value)
}

/// Returns the first of the members `aud`, `iss` and `sub` of options that has or is an empty string.
pub fn empty_member(options: &Value) -> Option<&'static str>
    ensures { MatchOption result (empty_member (view options.now) ≡ None)
        (λ name. empty_member (view options.now) ≡ Some name.now) }
{
    if lists_empty(options, "aud") {
        return Some("aud");
    }
    if lists_empty(options, "iss") {
        return Some("iss");
    }
    if is_empty_subject(options) {
        return Some("sub");
    }
    None
}

fn lists_empty(options: &Value, name: &str) -> bool
    ensures { result ≡ lists_empty name.now (view options.now) }
{
    match options.get(name) {
        Some(list) => has_empty_item(list),
        None => false,
    }
}

fn has_empty_item(value: &Value) -> bool
    ensures { result ≡ has_empty_item (view value.now) }
{
    match value {
        Value::Array(items) => some_is_text(items.as_slice(), b""),
        _ => false,
    }
}

fn is_empty_subject(options: &Value) -> bool
    ensures { result ≡ option_map_or (is_text []) (get (codes "sub") (view options.now)) false }
{
    match options.get("sub") {
        Some(subject) => is_text(subject, b""),
        None => false,
    }
}

fn some_is_text(items: &[Value], text: &[u8]) -> bool
    ensures { result ≡ some_is_text text.now (items_view items.now) }
{
    for item in items {
        if is_text(item, text) {
            return true;
        }
    }
    false
}

fn is_text(value: &Value, text: &[u8]) -> bool
    ensures { result ≡ is_text text.now (view value.now) }
{
    match value.as_str() {
        Some(own) => own.as_bytes() == text,
        None => false,
    }
}
