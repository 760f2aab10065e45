//! The members of a JSON object, one by one.

ghost use Rattle.std.specs.Prelude.{◌≡◌, Some, None, IfOk, IfErr, OnOk, OnErr, option_map};
ghost use Rattle.std.specs.Prelude.{true, false, map};
ghost use Rattle.serde_json.specs.Find.{get, as_str};
ghost use Rattle.serde_json.specs.Data.{string, put};
ghost use Rattle.serde_json.specs.View.{view, members_view};
ghost use Rattle.serde_json.specs.Written.{members_have_float};
ghost use Rattle.jwt_base.specs.Kind as kind;
ghost use Rattle.jwt_base.specs.KindOf.{IsMemory, RefusesAs};
ghost use Rattle.jwt_base.specs.Members.{present, optional, texts, put_some, texts_value};
ghost use Rattle.jwt_base.specs.Members.{is_named, has_named, without};

use crate::errors::{ErrorKind, Result, new_error};
use crate::json::equality::has_float;
use crate::text::{Text, Texts};
use serde_json::{Map, Value};
use std::alloc::Global;

/// Returns the member of this name of a JSON object, or `None` if it is absent or null.
pub fn present<'a>(value: &'a Value, name: &str) -> Option<&'a Value>
    ensures { option_map (λ v. view v.now) result ≡ present (get name.now (view value.now)) }
{
    match value.get(name) {
        Some(member) if !member.is_null() => Some(member),
        _ => None,
    }
}

/// Returns the string at an optional member: `None` if the member is absent or null. A member of
/// another type is refused with `Json`.
pub fn optional_text(alloc: Global, value: &Value, name: &str) -> Result<Option<Text>>
    ensures ok { IfOk result (λ t. optional as_str (get name.now (view value.now)) ≡ Some t) }
    ensures err { IfErr result
        (RefusesAs kind.Json (optional as_str (get name.now (view value.now)) ≡ None)) }
{
    match present(value, name) {
        None => Ok(None),
        Some(member) => match member.as_str() {
            Some(text) => Ok(Some(Text::from_str(alloc, text)?)),
            None => Err(new_error(ErrorKind::Json)),
        },
    }
}

/// Returns the list of strings at an optional member: `None` if the member is absent or null.
/// Anything else is refused with `Json`.
pub fn optional_texts(alloc: Global, value: &Value, name: &str) -> Result<Option<Texts>>
    ensures ok { IfOk result (λ t. optional texts (get name.now (view value.now)) ≡ Some t) }
    ensures err { IfErr result
        (RefusesAs kind.Json (optional texts (get name.now (view value.now)) ≡ None)) }
{
    match present(value, name) {
        None => Ok(None),
        Some(list) => Ok(Some(read_texts(alloc, list)?)),
    }
}

/// Returns the list of strings that the value is. Any other value is refused with `Json`.
pub fn read_texts(alloc: Global, value: &Value) -> Result<Texts>
    ensures ok { IfOk result (λ t. texts (view value.now) ≡ Some t) }
    ensures err { IfErr result (RefusesAs kind.Json (texts (view value.now) ≡ None)) }
{
    let Some(items) = value.as_array() else {
        return Err(new_error(ErrorKind::Json));
    };
    let mut texts = Vec::new(alloc);
    for item in items {
        let Some(text) = item.as_str() else {
            return Err(new_error(ErrorKind::Json));
        };
        texts.push(Text::from_str(alloc, text)?)?;
    }
    Ok(Texts::from(texts))
}

/// Returns the strings as a JSON list. The only refusal is `OutOfMemory`.
pub fn write_texts(alloc: Global, texts: &Texts) -> Result<Value>
    ensures ok { IfOk result (λ v. view v ≡ texts_value texts.now) }
    ensures err { IfErr result IsMemory }
{
    let mut items = Vec::new(alloc);
    for text in texts.as_slice() {
        items.push(Value::try_from_str(alloc, text.as_str())?)?;
    }
    Ok(Value::Array(items))
}

/// Puts the string at the name. The only refusal is `OutOfMemory`.
pub fn put_text(
    alloc: Global,
    members: &mut Map<String, Value>,
    name: &str,
    text: &str,
) -> Result<()>
    ensures ok { OnOk result (members_view members.new.entries
        ≡ put name.now (string text.now) (members_view members.old.entries)) }
    ensures err { IfErr result IsMemory }
    ensures unchanged { OnErr result (members.new.entries ≡ members.old.entries) }
{
    let value = Value::try_from_str(alloc, text)?;
    serde_json::put(members, alloc, name, value)?;
    Ok(())
}

/// Puts the string at the name, if there is one. The only refusal is `OutOfMemory`.
pub fn put_optional_text(
    alloc: Global,
    members: &mut Map<String, Value>,
    name: &str,
    text: &Option<Text>,
) -> Result<()>
    ensures ok { OnOk result (members_view members.new.entries
        ≡ put_some name.now (option_map string text.now) (members_view members.old.entries)) }
    ensures err { IfErr result IsMemory }
    ensures unchanged { OnErr result (members.new.entries ≡ members.old.entries) }
{
    match text {
        Some(text) => put_text(alloc, members, name, text.as_str()),
        None => Ok(()),
    }
}

/// Puts the list at the name, if there is one. The only refusal is `OutOfMemory`.
pub fn put_optional_texts(
    alloc: Global,
    members: &mut Map<String, Value>,
    name: &str,
    texts: &Option<Texts>,
) -> Result<()>
    ensures ok { OnOk result (members_view members.new.entries
        ≡ put_some name.now (option_map texts_value texts.now) (members_view members.old.entries)) }
    ensures err { IfErr result IsMemory }
    ensures unchanged { OnErr result (members.new.entries ≡ members.old.entries) }
{
    match texts {
        Some(texts) => {
            let value = write_texts(alloc, texts)?;
            serde_json::put(members, alloc, name, value)?;
            Ok(())
        }
        None => Ok(()),
    }
}

/// Returns a copy of the members. The only refusal is `OutOfMemory`.
pub fn clone_members(members: &Map<String, Value>) -> Result<Map<String, Value>>
    ensures ok { IfOk result (λ m. members_view m.entries ≡ members_view members.now.entries) }
    ensures err { IfErr result IsMemory }
{
    // named for the proof
    let copy = members.clone()?;
    Ok(copy)
}

/// Returns a copy of the members without those of these names. A float in the copy is
/// refused with `Json`.
pub fn members_without(
    alloc: Global,
    names: &[&str],
    members: &Map<String, Value>,
) -> Result<Map<String, Value>>
    ensures ok { IfOk result (λ m. members_view m.entries
        ≡ without (map (λ s. s.now) names.now) (members_view members.now.entries)) }
    ensures no_float { IfOk result (λ m. members_have_float (members_view m.entries) ≡ false) }
    ensures err { IfErr result (RefusesAs kind.Json (members_have_float
        (without (map (λ s. s.now) names.now) (members_view members.now.entries)) ≡ true)) }
{
    let mut kept = Map::new(alloc);
    for (name, member) in members.iter() {
        if is_one_of(name.as_str(), names) {
            continue;
        }
        if has_float(member) {
            return Err(new_error(ErrorKind::Json));
        }
        let name = String::from_str(alloc, name.as_str())?;
        drop(kept.insert(name, member.clone()?)?);
    }
    Ok(kept)
}

/// Returns whether one of the members has one of these names.
pub fn any_is_named(names: &[&str], members: &Map<String, Value>) -> bool
    ensures { result ≡ has_named (map (λ s. s.now) names.now) (members_view members.now.entries) }
{
    for (name, _) in members.iter() {
        if is_one_of(name.as_str(), names) {
            return true;
        }
    }
    false
}

/// Returns whether the name is one of these.
pub fn is_one_of(name: &str, names: &[&str]) -> bool
    ensures { result ≡ is_named (map (λ s. s.now) names.now) name.now }
{
    for other in names {
        if name == *other {
            return true;
        }
    }
    false
}
