//! The options of a call: those of `jsonwebtoken`, and the further rules.

ghost use Rattle.std.specs.Prelude.{◌≡◌, IfOk, IfErr};
ghost use Rattle.serde_json.specs.View.{view, members_view};
ghost use Rattle.jwt_base.specs.JsonText.{ReadsText};
ghost use Rattle.jwt_base.specs.Kind as kind;
ghost use Rattle.jwt_base.specs.KindOf.{IsMemory, RefusesAs};
ghost use Rattle.jwt_base.specs.Members.{without};
ghost use Rattle.jwt_further.specs.Further.{further_names};
ghost use Rattle.jwt_c_calls.specs.Asked.{AskedOptions, ReadsAsked, asked_of, usual_part};

use crate::inputs::empty_member;
use jsonwebtoken::errors::{Error, ErrorKind, new_error};
use jwt_base::json::members::is_one_of;
use jwt_base::serialization::json_value;
use jwt_further::{Further, further_names};
use jwt_validation::Validation;
use serde_json::{Map, Value};
use std::alloc::Global;
use std::result::Result;

/// Options: those of `jsonwebtoken`, and the further rules.
#[derive(Drop)]
pub struct Asked {
    pub validation: Validation,
    pub further: Further,
}

/// Returns the options that a JSON text describes. Any other text, and one with an empty string in
/// `aud` or `iss` or as `sub`, is refused with `Json`.
pub fn read_options(alloc: Global, text: &[u8]) -> Result<Asked, Error>
    ensures ok { IfOk result (λ a. ReadsText ReadsAsked text.now (asked_of a)) }
    ensures err { IfErr result (RefusesAs kind.Json
        ((a : AskedOptions) → ¬ ReadsText ReadsAsked text.now a)) }
{
    let value = json_value(alloc, text)?;
    options_of_value(alloc, &value)
}

fn options_of_value(alloc: Global, value: &Value) -> Result<Asked, Error>
    ensures ok { IfOk result (λ a. ReadsAsked (view value.now) (asked_of a)) }
    ensures err { IfErr result (RefusesAs kind.Json
        ((a : AskedOptions) → ¬ ReadsAsked (view value.now) a)) }
{
    if empty_member(value).is_some() {
        return Err(new_error(ErrorKind::Json));
    }
    let further = Further::from_value(alloc, value)?;
    let usual = usual_part(alloc, value)?;
    let validation = Validation::from_value(alloc, &usual)?;
    Ok(Asked {
        validation,
        further,
    })
}

/// Returns the members of options under other names than those of the further rules, or null of a
/// value that is not an object.
pub fn usual_part(alloc: Global, value: &Value) -> Result<Value, Error>
    ensures ok { IfOk result (λ v. view v ≡ usual_part (view value.now)) }
    ensures err { IfErr result IsMemory }
{
    match value.as_object() {
        Some(members) => Ok(Value::Object(usual_members(alloc, members)?)),
        None => Ok(Value::Null),
    }
}

fn usual_members(alloc: Global, members: &Map<String, Value>) -> Result<Map<String, Value>, Error>
    ensures ok { IfOk result (λ m. members_view m.entries
        ≡ without further_names (members_view members.now.entries)) }
    ensures err { IfErr result IsMemory }
{
    let mut kept = Map::new(alloc);
    for (name, member) in members.iter() {
        if is_one_of(name.as_str(), &further_names()) {
            continue;
        }
        let name = String::from_str(alloc, name.as_str())?;
        drop(kept.insert(name, member.clone()?)?);
    }
    Ok(kept)
}
