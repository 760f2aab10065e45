//! The members of a header that the standards do not name.

ghost use Rattle.std.specs.Prelude.{is_some, ◌≡◌, ◌↔◌, IsTrue, Some, None, true, option_map, map};
ghost use Rattle.std.specs.Prelude.{IfOk, IfErr, OnOk, OnErr};
ghost use Rattle.serde_json.specs.Data.{Data, Members, no_members, object};
ghost use Rattle.serde_json.specs.Find.{get_member};
ghost use Rattle.serde_json.specs.View.{view, members_view};
ghost use Rattle.serde_json.specs.Written.{members_have_float};
ghost use Rattle.jwt_base.specs.Kind as kind;
ghost use Rattle.jwt_base.specs.KindOf.{IsMemory, RefusesAs};
ghost use Rattle.jwt_base.specs.Members.{is_named, without, ReadsMember};
ghost use Rattle.jwt_header.specs.Extras.{header_names, IsExtras, ReadsExtras, inserted};

use jwt_base::errors::{ErrorKind, Result, new_error};
use jwt_base::json::Claims;
use jwt_base::json::equality::{any_member_has_float, has_float, hash_names, members_are_equal};
use jwt_base::json::members::{any_is_named, clone_members, is_one_of, members_without};
use serde_json::{Map, Value};
use std::alloc::Global;
use std::collections::BTreeMap;
use std::hash::{Hash, Hasher};
use std::marker::Model;

/// The members of a header that the standards do not name. None of the fifteen names of a header is
/// among them, and no float stands in them. A contract sees the members in the order of their
/// names.
#[derive(Debug, Drop)]
pub struct Extras {
    members: Map<String, Value>,
}

impl Model for Extras {
    ghost use Rattle.serde_json.specs.Data.{Members};
    ghost use Rattle.serde_json.specs.View.{members_view};
    ghost use Rattle.jwt_base.specs.equality.DataCode.{coded_members};
    ghost use Rattle.jwt_header.specs.Extras.{IsExtras};

    ghost Value = { Members };

    ghost coded = { coded_members };

    ghost view = { λ e. members_view e.members.entries };

    ghost invariant = { λ e. IsExtras (members_view e.members.entries) };
}

impl Extras {
    /// Returns extras without members. Allocates no memory.
    pub fn new(alloc: Global) -> Extras
        ensures { result ≡ no_members }
    {
        Extras {
            members: Map::new(alloc),
        }
    }

    /// Returns what `T` reads from the value at the name, or `None` if the name is absent. A value
    /// that `T` cannot be read from is refused with `Json`.
    pub fn get<T: Claims>(&self, alloc: Global, name: &str) -> Result<Option<T>>
        ensures ok { IfOk result (ReadsMember T.reads (get_member name.now self.now)) }
        ensures err { IfErr result (RefusesAs kind.Json
            ((d : Data) × (get_member name.now self.now ≡ Some d)
            × ((c : T) → ¬ T.reads d c))) }
    {
        match self.at(name) {
            None => Ok(None),
            Some(value) => {
                let value = T::from_value(alloc, value)?;
                Ok(Some(value))
            }
        }
    }

    /// Puts the value at the key, replacing the previous one. One of the header's fifteen names, a
    /// value that cannot be written and a value with a float are refused with `Json`.
    pub fn insert<T: Claims>(&mut self, alloc: Global, key: &str, value: &T) -> Result<()>
        ensures ok { OnOk result (inserted key.now (T.written value.now) self.old ≡ Some self.new) }
        ensures err { IfErr result (RefusesAs kind.Json
            (inserted key.now (T.written value.now) self.old ≡ None)) }
        ensures unchanged { OnErr result (self.new ≡ self.old) }
    {
        if is_header_name(key) {
            return Err(new_error(ErrorKind::Json));
        }
        let value = value.to_value(alloc)?;
        if has_float(&value) {
            return Err(new_error(ErrorKind::Json));
        }
        serde_json::put(&mut self.members, alloc, key, value)?;
        Ok(())
    }

    /// Returns the members.
    pub fn inner(&self) -> &BTreeMap<String, Value>
        ensures value { members_view result.now.entries ≡ self.now }
        ensures extras { IsExtras self.now }
    {
        &self.members
    }

    /// Returns the members as a JSON object. The only refusal is `OutOfMemory`.
    pub fn to_value(&self, _alloc: Global) -> Result<Value>
        ensures ok { IfOk result (λ v. view v ≡ object self.now) }
        ensures reads_back { IfOk result (λ v. ReadsExtras (view v) self.now) }
        ensures err { IfErr result IsMemory }
    {
        let members = self.copy_members()?;
        Ok(Value::Object(members))
    }

    /// Returns the members of a JSON object. Any other value, one of the header's fifteen names and
    /// a float are refused with `Json`.
    pub fn from_value(_alloc: Global, value: &Value) -> Result<Extras>
        ensures ok { IfOk result (λ e. ReadsExtras (view value.now) e) }
        ensures err { IfErr result (RefusesAs kind.Json
            ((e : Members) → ¬ ReadsExtras (view value.now) e)) }
    {
        let Some(members) = value.as_object() else {
            return Err(new_error(ErrorKind::Json));
        };
        if any_is_named(&header_names(), members) {
            return Err(new_error(ErrorKind::Json));
        }
        if any_member_has_float(members) {
            return Err(new_error(ErrorKind::Json));
        }
        let members = clone_members(members)?;
        Ok(Extras { members })
    }

    /// Returns a copy. The only refusal is `OutOfMemory`.
    pub fn clone(&self, _alloc: Global) -> Result<Extras>
        ensures ok { IfOk result (λ e. e ≡ self.now) }
        ensures err { IfErr result IsMemory }
    {
        let members = self.copy_members()?;
        Ok(Extras { members })
    }

    pub(crate) fn copy_members(&self) -> Result<Map<String, Value>>
        ensures ok { IfOk result (λ m. members_view m.entries ≡ self.now) }
        ensures err { IfErr result IsMemory }
        ensures extras { IsExtras self.now }
    {
        clone_members(&self.members)
    }

    // Returns the members of a header that have none of its names.
    pub(crate) fn among(alloc: Global, members: &Map<String, Value>) -> Result<Extras>
        ensures ok { IfOk result (λ e. without header_names (members_view members.now.entries)
            ≡ e) }
        ensures extras { IfOk result IsExtras }
        ensures err { IfErr result (RefusesAs kind.Json
            (members_have_float (without header_names (members_view members.now.entries)) ≡ true)) }
    {
        let members = members_without(alloc, &header_names(), members)?;
        Ok(Extras { members })
    }

    /// Returns whether there is a member of this name.
    pub fn contains(&self, name: &str) -> bool
        ensures { result ≡ is_some (get_member name.now self.now) }
    {
        self.at(name).is_some()
    }

    fn at(&self, name: &str) -> Option<&Value>
        ensures { option_map (λ v. view v.now) result ≡ get_member name.now self.now }
    {
        self.members.get(name)
    }
}

/// Returns whether the name is one of the fifteen that a header has fields for (RFC 7515 section
/// 4.1, RFC 7516 section 4.1, RFC 8555 section 6.2), so that it is not an extra.
pub fn is_header_name(name: &str) -> bool
    ensures { result ≡ is_named header_names name.now }
{
    is_one_of(name, &header_names())
}

/// Compares the names and the values. Any two floats count as equal.
impl PartialEq for Extras {
    ghost use Rattle.std.specs.Cmp.{partial_equiv_from_equiv};
    ghost use Rattle.jwt_base.specs.DataEq.{members_eq, members_marked};
    ghost use Rattle.jwt_base.specs.equality.DataEqLaws.{members_eq_equiv};

    ghost eq = { members_eq };

    ghost laws = { partial_equiv_from_equiv members_eq_equiv };

    fn eq(&self, other: &Extras) -> bool
        ensures test { result ≡ members_eq self.now other.now }
        ensures same { IsTrue result ↔ (members_marked self.now ≡ members_marked other.now) }
    {
        members_are_equal(&self.members, &other.members)
    }
}

impl Eq for Extras {
    ghost use Rattle.jwt_base.specs.equality.DataEqLaws.{members_eq_equiv};

    ghost laws = { members_eq_equiv };
}

/// Feeds the names alone.
impl Hash for Extras {
    ghost use Rattle.jwt_base.specs.equality.NamesFed.{names_fed, names_alike};

    ghost hash_input = { names_fed };

    ghost respects_eq = { names_alike.fed };

    fn hash<H: Hasher>(&self, state: &mut H) {
        hash_names(&self.members, state);
    }
}

// Returns the names that a header has fields for (RFC 7515 section 4.1, RFC 7516 section 4.1, RFC
// 8555 section 6).
fn header_names() -> [&'static str; 15]
    ensures { map (λ s. s.now) result ≡ header_names }
{
    [
        "alg", "typ", "cty", "jku", "jwk", "kid", "x5u", "x5c", "x5t", "x5t#S256", "crit", "enc",
        "zip", "url", "nonce",
    ]
}
