//! Keys of types that are not known here.

ghost use Rattle.std.specs.Prelude.{◌≡◌, ◌↔◌, IsTrue, Some, None, IfOk, IfErr};
ghost use Rattle.serde_json.specs.View.{view, members_view};
ghost use Rattle.jwt_base.specs.Kind as kind;
ghost use Rattle.jwt_base.specs.KindOf.{IsMemory, RefusesAs};

use crate::free_members::FreeMembers;
use jwt_base::errors::{ErrorKind, Result, new_error};
use jwt_base::json::equality::any_member_has_float;
use jwt_base::json::members::clone_members;
use serde_json::{Map, Value};
use std::alloc::Global;
use std::hash::{Hash, Hasher};

/// The members of a key whose type is not known here, or whose parameters are not complete.
#[derive(Debug, Drop)]
pub struct OtherKeyParameters {
    /// The members, except those that keys of every type may have (RFC 7517 section 4).
    pub fields: FreeMembers,
}

impl OtherKeyParameters {
    ghost use Rattle.std.specs.Prelude.{option_map};
    ghost use Rattle.serde_json.specs.Data.{object};
    ghost use Rattle.jwt_params.specs.Parameters.{other_from, other_members};

    /// Returns all members of a JSON object. Any other value and a float are refused with `Json`.
    pub fn from_value(_alloc: Global, value: &Value) -> Result<OtherKeyParameters>
        ensures ok { IfOk result (λ p. other_from (view value.now) ≡ Some p) }
        ensures err { IfErr result (RefusesAs kind.Json (other_from (view value.now) ≡ None)) }
    {
        let Some(members) = value.as_object() else {
            return Err(new_error(ErrorKind::Json));
        };
        if any_member_has_float(members) {
            return Err(new_error(ErrorKind::Json));
        }
        let members = clone_members(members)?;
        Ok(OtherKeyParameters {
            fields: FreeMembers::from(members),
        })
    }

    /// Returns the JSON object of the members. A float is refused with `Json`.
    pub fn to_value(&self, _alloc: Global) -> Result<Value>
        ensures ok { IfOk result (λ v. option_map object (other_members self.now) ≡ Some (view v)) }
        ensures reads_back { IfOk result (λ v. other_from (view v) ≡ Some self.now) }
        ensures err { IfErr result (RefusesAs kind.Json (other_members self.now ≡ None)) }
    {
        let members = self.members()?;
        Ok(Value::Object(members))
    }

    /// Returns a copy. The only refusal is `OutOfMemory`.
    pub fn clone(&self, alloc: Global) -> Result<OtherKeyParameters>
        ensures ok { IfOk result (λ p. p ≡ self.now) }
        ensures err { IfErr result IsMemory }
    {
        Ok(OtherKeyParameters {
            fields: self.fields.clone(alloc)?,
        })
    }

    pub(crate) fn members(&self) -> Result<Map<String, Value>>
        ensures ok { IfOk result (λ m. other_members self.now ≡ Some (members_view m.entries)) }
        ensures err { IfErr result (RefusesAs kind.Json (other_members self.now ≡ None)) }
    {
        if self.fields.has_float() {
            return Err(new_error(ErrorKind::Json));
        }
        self.fields.copy_members()
    }
}

/// Compares the members. Any two floats count as equal.
impl PartialEq for OtherKeyParameters {
    ghost use Rattle.std.specs.Cmp.{partial_equiv_from_equiv};
    ghost use Rattle.jwt_params.specs.Parameters.{marked_other};
    ghost use Rattle.jwt_params.specs.equality.ParametersSame.{other_eq, other_eq_equiv};

    ghost eq = { other_eq };

    ghost laws = { partial_equiv_from_equiv other_eq_equiv };

    fn eq(&self, other: &OtherKeyParameters) -> bool
        ensures test { result ≡ other_eq self.now other.now }
        ensures same { IsTrue result ↔ (marked_other self.now ≡ marked_other other.now) }
    {
        self.is_same(other)
    }
}

impl Eq for OtherKeyParameters {
    ghost use Rattle.jwt_params.specs.equality.ParametersSame.{other_eq_equiv};

    ghost laws = { other_eq_equiv };
}

impl OtherKeyParameters {
    ghost use Rattle.jwt_params.specs.equality.ParametersSame.{other_eq};

    // apart from `eq`, whose contract has two clauses over what this one finds
    fn is_same(&self, other: &OtherKeyParameters) -> bool
        ensures { result ≡ other_eq self.now other.now }
    {
        self.fields == other.fields
    }
}

/// Feeds the names of the members alone.
impl Hash for OtherKeyParameters {
    ghost use Rattle.jwt_params.specs.equality.ParametersFed.{other_fed, other_alike};

    ghost hash_input = { other_fed };

    ghost respects_eq = { other_alike.fed };

    fn hash<H: Hasher>(&self, state: &mut H) {
        self.fields.hash(state);
    }
}
