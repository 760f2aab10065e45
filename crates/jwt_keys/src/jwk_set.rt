//! A set of JSON Web Keys.

ghost use Rattle.std.specs.Prelude.{◌≡◌, ◌↔◌, IsTrue, Some, None, List, [], false, IfOk, IfErr};
ghost use Rattle.std.specs.Prelude.{map, find, option_map};
ghost use Rattle.serde_json.specs.Data.{object};
ghost use Rattle.serde_json.specs.View.{view, items_view, members_view};
ghost use Rattle.serde_json.specs.Written.{has_float};
ghost use Rattle.jwt_base.specs.JsonText.{ReadsText};
ghost use Rattle.jwt_base.specs.Kind as kind;
ghost use Rattle.jwt_base.specs.KindOf.{IsMemory, RefusesAs};
ghost use Rattle.jwt_base.specs.Written.{HasText};
ghost use Rattle.jwt_keys.specs.Jwk.{key_value, has_id};
ghost use Rattle.jwt_keys.specs.JwkSet.{ReadsKeys, ReadsSet, set_value, key_values, normal_set};
ghost use Rattle.jwt_keys.specs.JwkSet.{IsNormalSet, HasNormalSet};
ghost use Rattle.jwt_keys.specs.declared.jwk.Jwk.{Jwk};

use crate::jwk::Jwk;
use jwt_base::errors::{ErrorKind, Result, new_error};
use jwt_base::json::value_text;
use jwt_base::serialization::json_value;
use serde_json::{Map, Value};
use std::alloc::Global;
use std::hash::{Hash, Hasher};

/// A set of JSON Web Keys (RFC 7517 section 5), in order.
#[derive(Debug, Drop)]
pub struct JwkSet {
    /// The keys, `keys` (section 5.1).
    pub keys: Vec<Jwk>,
}

impl JwkSet {
    /// Returns a set without keys. Allocates no memory.
    pub fn new(alloc: Global) -> JwkSet
        ensures { result.keys.items ≡ [] }
    {
        JwkSet {
            keys: Vec::new(alloc),
        }
    }

    /// Returns the first key whose `kid` (RFC 7517 section 4.5) is this string, or `None` if there
    /// is no such key. Allocates no memory.
    pub fn find(&self, kid: &str) -> Option<&Jwk>
        ensures { option_map (λ k. k.now) result ≡ find (has_id kid.now) self.now.keys.items }
    {
        first_of(self.keys.as_slice(), kid)
    }

    /// Returns the set that a JSON object describes: `keys` is a list, and each of its entries
    /// describes a key; further members are ignored. Anything else is refused with `Json`.
    pub fn from_value(alloc: Global, value: &Value) -> Result<JwkSet>
        ensures ok { IfOk result (λ s. ReadsSet (view value.now) s.keys.items) }
        ensures normal { IfOk result (λ s. IsNormalSet s.keys.items) }
        ensures err { IfErr result (RefusesAs kind.Json
            ((ks : List Jwk) → ¬ ReadsSet (view value.now) ks)) }
    {
        JwkSet::read(alloc, value)
    }

    /// Returns the set that a JSON text describes, as [`from_value`](JwkSet::from_value) reads it.
    /// Bytes that are not JSON, or that nest deeper than 127 levels, are refused with `Json` too.
    pub fn from_slice(alloc: Global, text: &[u8]) -> Result<JwkSet>
        ensures ok { IfOk result (λ s. ReadsText ReadsSet text.now s.keys.items) }
        ensures normal { IfOk result (λ s. IsNormalSet s.keys.items) }
        ensures err { IfErr result (RefusesAs kind.Json
            ((ks : List Jwk) → ¬ ReadsText ReadsSet text.now ks)) }
    {
        let value = json_value(alloc, text)?;
        JwkSet::from_value(alloc, &value)
    }

    /// Returns the JSON object of the keys, in order. A key that cannot be written is refused with
    /// `Json`.
    pub fn to_value(&self, alloc: Global) -> Result<Value>
        ensures ok { IfOk result (λ v. set_value self.now.keys.items ≡ Some (view v)) }
        ensures no_float { IfOk result (λ v. has_float (view v) ≡ false) }
        ensures err { IfErr result (RefusesAs kind.Json (set_value self.now.keys.items ≡ None)) }
        ensures normal_form { HasNormalSet self.now.keys.items }
    {
        let members = self.members(alloc)?;
        Ok(Value::Object(members))
    }

    /// Returns the compact JSON text of the set, as [`to_value`](JwkSet::to_value) writes it and
    /// with its refusals.
    pub fn to_text(&self, alloc: Global) -> Result<Vec<u8>>
        ensures ok { IfOk result (λ text. HasText ReadsSet set_value normal_set self.now.keys.items
            text.items) }
        ensures err { IfErr result (RefusesAs kind.Json (set_value self.now.keys.items ≡ None)) }
    {
        let value = self.to_value(alloc)?;
        value_text(alloc, &value)
    }

    /// Returns a copy. The only refusal is `OutOfMemory`.
    pub fn clone(&self, alloc: Global) -> Result<JwkSet>
        ensures ok { IfOk result (λ s. s.keys.items ≡ self.now.keys.items) }
        ensures err { IfErr result IsMemory }
    {
        let keys = clone_keys(alloc, self.keys.as_slice())?;
        Ok(JwkSet { keys })
    }

    fn read(alloc: Global, value: &Value) -> Result<JwkSet>
        ensures ok { IfOk result (λ s. ReadsSet (view value.now) s.keys.items) }
        ensures err { IfErr result (RefusesAs kind.Json
            ((ks : List Jwk) → ¬ ReadsSet (view value.now) ks)) }
    {
        let Some(member) = value.get("keys") else {
            return Err(new_error(ErrorKind::Json));
        };
        let Some(items) = member.as_array() else {
            return Err(new_error(ErrorKind::Json));
        };
        let keys = read_keys(alloc, items)?;
        Ok(JwkSet { keys })
    }

    fn members(&self, alloc: Global) -> Result<Map<String, Value>>
        ensures ok { IfOk result (λ m. set_value self.now.keys.items
            ≡ Some (object (members_view m.entries))) }
        ensures err { IfErr result (RefusesAs kind.Json (set_value self.now.keys.items ≡ None)) }
    {
        let values = write_keys(alloc, self.keys.as_slice())?;
        let mut members = Map::new(alloc);
        serde_json::put(&mut members, alloc, "keys", Value::Array(values))?;
        Ok(members)
    }
}

/// Compares the keys, in order. Any two floats count as equal.
impl PartialEq for JwkSet {
    ghost use Rattle.std.specs.Cmp.{partial_equiv_from_equiv};
    ghost use Rattle.jwt_keys.specs.JwkSet.{marked_set};
    ghost use Rattle.jwt_keys.specs.equality.JwkSame.{set_eq, set_eq_equiv};

    ghost eq = { set_eq };

    ghost laws = { partial_equiv_from_equiv set_eq_equiv };

    fn eq(&self, other: &JwkSet) -> bool
        ensures test { result ≡ set_eq self.now other.now }
        ensures same { IsTrue result ↔ (marked_set self.now ≡ marked_set other.now) }
    {
        self.is_same(other)
    }
}

impl Eq for JwkSet {
    ghost use Rattle.jwt_keys.specs.equality.JwkSame.{set_eq_equiv};

    ghost laws = { set_eq_equiv };
}

impl JwkSet {
    ghost use Rattle.jwt_keys.specs.equality.JwkSame.{set_eq};

    // apart from `eq`, whose contract has two clauses over what this one finds
    fn is_same(&self, other: &JwkSet) -> bool
        ensures { result ≡ set_eq self.now other.now }
    {
        self.keys == other.keys
    }
}

/// Feeds the keys, and of free members their names alone.
impl Hash for JwkSet {
    ghost use Rattle.jwt_keys.specs.equality.JwkSame.{set_fed, set_alike};

    ghost hash_input = { set_fed };

    ghost respects_eq = { set_alike.fed };

    fn hash<H: Hasher>(&self, state: &mut H) {
        self.keys.hash(state);
    }
}

fn first_of<'k>(keys: &'k [Jwk], kid: &str) -> Option<&'k Jwk>
    ensures { option_map (λ k. k.now) result ≡ find (has_id kid.now) keys.now }
{
    for key in keys {
        if key.has_id(kid) {
            return Some(key);
        }
    }
    None
}

fn clone_keys(alloc: Global, keys: &[Jwk]) -> Result<Vec<Jwk>>
    ensures ok { IfOk result (λ copy. copy.items ≡ keys.now) }
    ensures err { IfErr result IsMemory }
{
    let mut copy = Vec::new(alloc);
    for key in keys {
        copy.push(key.clone(alloc)?)?;
    }
    Ok(copy)
}

fn read_keys(alloc: Global, items: &[Value]) -> Result<Vec<Jwk>>
    ensures ok { IfOk result (λ ks. ReadsKeys (items_view items.now) ks.items) }
    ensures err { IfErr result (RefusesAs kind.Json
        ((ks : List Jwk) → ¬ ReadsKeys (items_view items.now) ks)) }
{
    let mut keys = Vec::new(alloc);
    for item in items {
        keys.push(Jwk::from_value(alloc, item)?)?;
    }
    Ok(keys)
}

fn write_keys(alloc: Global, keys: &[Jwk]) -> Result<Vec<Value>>
    ensures ok { IfOk result (λ vs. key_values keys.now ≡ Some (map view vs.items)) }
    ensures err { IfErr result (RefusesAs kind.Json (key_values keys.now ≡ None)) }
{
    let mut values = Vec::new(alloc);
    for key in keys {
        values.push(key.to_value(alloc)?)?;
    }
    Ok(values)
}
