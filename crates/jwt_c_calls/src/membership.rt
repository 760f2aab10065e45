//! The result of the call for C that tells whether a value at a path has a text.

ghost use Rattle.std.specs.Prelude.{◌≡◌, IfErr, IfOk, List, ℕ};
ghost use Rattle.std.specs.List.{list_any};
ghost use Rattle.std.specs.Str.{bytes_eq};
ghost use Rattle.json.specs.Json.{Json as JsonData};
ghost use Rattle.json.specs.Value.{items_view, value_view};
ghost use Rattle.jwt_c_calls.specs.Calls.{answer_of};
ghost use Rattle.jwt_c_calls.specs.Members.{AnswersNothing, ReadsAsked};
ghost use Rattle.jwt_c_calls.specs.Membership.{ChecksMember, SaysPathHas, has_text, is_text, parts};
ghost use Rattle.jwt_c_calls.specs.Membership.{some_is_text, words};

use crate::inputs::{CallError, Input, read_as};
use crate::members::{read_object, read_path, value_at};
use crate::status::status_of;
use crate::status_table::{NO_MEMBER, OK};
use json::{Scratch, Value as Json};
use jwt_base::text::Text;
use std::alloc::Global;
use std::result::Result;

/// Returns the status that tells whether the value at a path of the object that a JSON text
/// describes is a list that has a text, or a text that has it as a word.
pub fn member_status(alloc: Global, json: &[u8], path: &[u8], text: &[u8]) -> u32
    ensures { ChecksMember json.now path.now text.now result }
{
    match status_at(alloc, json, path, text) {
        Ok(status) => status,
        Err(refusal) => status_of(&refusal),
    }
}

fn status_at(alloc: Global, json: &[u8], path: &[u8], text: &[u8]) -> Result<u32, CallError>
    ensures ok { IfOk result (λ status. (e : List (List ℕ) × JsonData) × ReadsAsked path.now json.now e
        × SaysPathHas e.0 text.now e.1 status) }
    ensures err { IfErr result (λ r. AnswersNothing path.now json.now (answer_of r)) }
{
    let names = read_as(Input::Path, read_path(alloc, path))?;
    let mut scratch = Scratch::new(alloc);
    let object = read_as(Input::Claims, read_object(alloc, json, &mut scratch))?;
    Ok(object_status(&object, names.as_slice(), text))
}

fn object_status(object: &Json<'_>, names: &[Text], text: &[u8]) -> u32
    ensures { SaysPathHas names.now text.now (value_view object.now) result }
{
    match value_at(object, names) {
        Some(value) if has_text(value, text) => OK.0,
        _ => NO_MEMBER.0,
    }
}

fn has_text(value: &Json<'_>, text: &[u8]) -> bool
    ensures { result ≡ has_text text.now (value_view value.now) }
{
    match value {
        Json::String(words) => has_word(words.as_bytes(), text),
        Json::Array(items) => some_is_text(items.as_slice(), text),
        _ => false,
    }
}

fn has_word(text: &[u8], word: &[u8]) -> bool
    ensures { result ≡ list_any (λ w. bytes_eq w word.now) (words text.now) }
{
    !word.is_empty() && has_part(text, word)
}

fn has_part(text: &[u8], part: &[u8]) -> bool
    ensures { result ≡ list_any (λ p. bytes_eq p part.now) (parts text.now) }
{
    text.split(|byte| *byte == b' ').any(|own| own == part)
}

fn some_is_text(items: &[Json<'_>], text: &[u8]) -> bool
    ensures { result ≡ some_is_text text.now (items_view items.now) }
{
    for item in items {
        if is_text(item, text) {
            return true;
        }
    }
    false
}

fn is_text(value: &Json<'_>, text: &[u8]) -> bool
    ensures { result ≡ is_text text.now (value_view value.now) }
{
    match value.as_str() {
        Some(own) => own.as_bytes() == text,
        None => false,
    }
}
