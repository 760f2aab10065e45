//! The result of the call for C that reads the value at a path of an object.

// The object is read by the kit's `json`, which keeps the text of each number.

ghost use Rattle.std.specs.Prelude.{◌≡◌, IfErr, IfOk, MatchOption, None, IfSome, Some, option_and_then, option_map};
ghost use Rattle.std.specs.Prelude.{List, ℕ};
ghost use Rattle.json.specs.Find.{get};
ghost use Rattle.json.specs.Json.{Json as JsonData};
ghost use Rattle.json.specs.Tree.{HasNumbers};
ghost use Rattle.json.specs.Value.{value_view};
ghost use Rattle.jwt_base.specs.Kind as kind;
ghost use Rattle.jwt_base.specs.KindOf.{IsMemory, RefusesAs};
ghost use Rattle.jwt_c_calls.specs.Calls.{answer_of};
ghost use Rattle.jwt_c_calls.specs.Members.{AnswersNothing, IsAbsent, IsFound, ReadsObject, ReadsPath};
ghost use Rattle.jwt_c_calls.specs.Members.{type_number, value_at, value_text};

use crate::inputs::{CallError, Input, read_as};
use json::{Error as JsonError, Scratch, Value as Json, to_vec};
use jsonwebtoken::errors::{Error, ErrorKind, new_error};
use jwt_base::json::members::read_texts;
use jwt_base::serialization::json_value;
use jwt_base::text::{Text, Texts};
use std::alloc::{AllocError, Global};
use std::result::Result;

/// A value: the number of its type, and its text.
#[derive(Drop)]
pub struct Found {
    /// The type: 1 for null, 2 for a boolean, 3 for a number, 4 for a string, 5 for an array, 6 for
    /// an object.
    pub type_number: u32,
    /// The bytes of a string, and JSON of any other value.
    pub text: Vec<u8>,
}

/// Returns the value at a path of the object that a JSON text describes, or `None` if there is none.
/// The path is a JSON list of names, and is read first. Any other text is refused.
pub fn member_answer(alloc: Global, json: &[u8], path: &[u8]) -> Result<Option<Found>, CallError>
    ensures ok { IfOk result (λ o. MatchOption o (IsAbsent path.now json.now)
        (IsFound path.now json.now)) }
    ensures err { IfErr result (λ r. AnswersNothing path.now json.now (answer_of r)) }
{
    let names = read_as(Input::Path, read_path(alloc, path))?;
    let mut scratch = Scratch::new(alloc);
    let object = read_as(Input::Claims, read_object(alloc, json, &mut scratch))?;
    let Some(value) = value_at(&object, names.as_slice()) else {
        return Ok(None);
    };
    let text = text_of(alloc, value)?;
    Ok(Some(Found {
        type_number: type_of(value),
        text,
    }))
}

/// Returns the names of a path, which is a JSON list of strings. Any other text, and an empty list, is
/// refused with `Json`.
pub fn read_path(alloc: Global, path: &[u8]) -> Result<Texts, Error>
    ensures ok { IfOk result (ReadsPath path.now) }
    ensures err { IfErr result (RefusesAs kind.Json
        ((names : List (List ℕ)) → ¬ ReadsPath path.now names)) }
{
    let value = json_value(alloc, path)?;
    let names = read_texts(alloc, &value)?;
    if names.as_slice().is_empty() {
        return Err(new_error(ErrorKind::Json));
    }
    Ok(names)
}

/// Returns the object that a JSON text describes; any other text is refused with `Json`.
pub fn read_object<'a>(
    alloc: Global,
    text: &'a [u8],
    scratch: &'a mut Scratch,
) -> Result<Json<'a>, Error>
    ensures ok { IfOk result (λ v. ReadsObject text.now (value_view v)) }
    ensures numbers { IfOk result (λ v. HasNumbers (value_view v)) }
    ensures err { IfErr result (RefusesAs kind.Json ((j : JsonData) → ¬ ReadsObject text.now j)) }
{
    match Json::from_slice(alloc, text, scratch) {
        Ok(Json::Object(members)) => Ok(Json::Object(members)),
        Err(JsonError::OutOfMemory) => Err(Error::from(AllocError)),
        _ => Err(new_error(ErrorKind::Json)),
    }
}

/// Returns the value at a path of names in a value.
pub fn value_at<'v, 'a>(value: &'v Json<'a>, names: &[Text]) -> Option<&'v Json<'a>>
    ensures at { option_map (λ v. value_view v.now) result ≡ value_at names.now (value_view value.now) }
    ensures numbers { HasNumbers (value_view value.now) → IfSome result (λ v. HasNumbers (value_view v.now)) }
{
    let mut found = Some(value);
    for name in names {
        found = member_of(found, name.as_str());
    }
    found
}

// Returns the member of this name of a value, if there is one.
fn member_of<'v, 'a>(value: Option<&'v Json<'a>>, name: &str) -> Option<&'v Json<'a>>
    ensures at { option_map (λ v. value_view v.now) result
        ≡ option_and_then (get name.now) (option_map (λ v. value_view v.now) value.entry) }
    ensures numbers { IfSome value.entry (λ v. HasNumbers (value_view v.now))
        → IfSome result (λ v. HasNumbers (value_view v.now)) }
{
    match value {
        Some(value) => value.get(name),
        None => None,
    }
}

fn text_of(alloc: Global, value: &Json<'_>) -> Result<Vec<u8>, AllocError>
    requires { HasNumbers (value_view value.now) }
    ensures { IfOk result (λ b. b.items ≡ value_text (value_view value.now)) }
{
    match value {
        Json::String(text) => text.as_bytes().to_vec(alloc),
        _ => to_vec(alloc, value),
    }
}

fn type_of(value: &Json<'_>) -> u32
    ensures { result ≡ type_number (value_view value.now) }
{
    match value {
        Json::Null => 1,
        Json::Bool(_) => 2,
        Json::Number(_) => 3,
        Json::String(_) => 4,
        Json::Array(_) => 5,
        Json::Object(_) => 6,
    }
}
