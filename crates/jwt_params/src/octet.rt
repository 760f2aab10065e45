//! Secrets.

ghost use Rattle.std.specs.Prelude.{◌≡◌, ◌↔◌, IsTrue, Some, None, IfOk, IfErr};
ghost use Rattle.serde_json.specs.Data.{object};
ghost use Rattle.serde_json.specs.View.{view, members_view};
ghost use Rattle.jwt_base.specs.Kind as kind;
ghost use Rattle.jwt_base.specs.KindOf.{IsMemory, RefusesAs};

use crate::key_types::OctetKeyType;
use crate::members::{has_type, text_at};
use jwt_base::errors::{ErrorKind, Result, new_error};
use jwt_base::json::members::put_text;
use jwt_base::text::Text;
use serde_json::{Map, Value};
use std::alloc::Global;
use std::fmt;

/// The parameters of a secret (RFC 7518 section 6.4).
#[derive(Drop, Eq, Hash)]
pub struct OctetKeyParameters {
    /// The type, `oct` (section 6.1).
    pub key_type: OctetKeyType,
    /// The bytes in base64url, `k` (section 6.4.1).
    pub value: Text,
}

impl OctetKeyParameters {
    ghost use Rattle.jwt_params.specs.Parameters.{octet_from, octet_members};

    /// Returns the parameters that a JSON object has; further members are ignored. Any other value
    /// is refused with `Json`, and so is an object whose `kty` is not `oct`, or whose `k` is not a
    /// string.
    pub fn from_value(alloc: Global, value: &Value) -> Result<OctetKeyParameters>
        ensures ok { IfOk result (λ p. octet_from (view value.now) ≡ Some p) }
        ensures err { IfErr result (RefusesAs kind.Json (octet_from (view value.now) ≡ None)) }
    {
        OctetKeyParameters::read(alloc, value)?.ok_or(new_error(ErrorKind::Json))
    }

    /// Returns the JSON object of the parameters. The only refusal is `OutOfMemory`.
    pub fn to_value(&self, alloc: Global) -> Result<Value>
        ensures ok { IfOk result (λ v. view v ≡ object (octet_members self.now)) }
        ensures reads_back { IfOk result (λ v. octet_from (view v) ≡ Some self.now) }
        ensures err { IfErr result IsMemory }
    {
        let members = self.members(alloc)?;
        Ok(Value::Object(members))
    }

    /// Returns a copy. The only refusal is `OutOfMemory`.
    pub fn clone(&self, alloc: Global) -> Result<OctetKeyParameters>
        ensures ok { IfOk result (λ p. p ≡ self.now) }
        ensures err { IfErr result IsMemory }
    {
        Ok(OctetKeyParameters {
            key_type: self.key_type,
            value: self.value.clone(alloc)?,
        })
    }

    // Returns `None` if the value does not have the parameters.
    pub(crate) fn read(alloc: Global, value: &Value) -> Result<Option<OctetKeyParameters>>
        ensures ok { IfOk result (λ p. p ≡ octet_from (view value.now)) }
        ensures err { IfErr result IsMemory }
    {
        if !has_type(value, "oct") {
            return Ok(None);
        }
        let Some(value) = text_at(value, "k") else {
            return Ok(None);
        };
        Ok(Some(OctetKeyParameters {
            key_type: OctetKeyType::Octet,
            value: Text::from_str(alloc, value)?,
        }))
    }

    /// Returns the members `k` and `kty`. The only refusal is `OutOfMemory`.
    pub fn members(&self, alloc: Global) -> Result<Map<String, Value>>
        ensures ok { IfOk result (λ m. members_view m.entries ≡ octet_members self.now) }
        ensures err { IfErr result IsMemory }
    {
        let mut members = Map::new(alloc);
        put_text(alloc, &mut members, "kty", self.key_type.name())?;
        put_text(alloc, &mut members, "k", self.value.as_str())?;
        Ok(members)
    }
}

/// Shows the type, and `[redacted]` for the bytes.
impl fmt::Debug for OctetKeyParameters {
    fn fmt<W: fmt::Write>(&self, f: &mut fmt::Formatter<W>) -> fmt::Result {
        f.debug_struct("OctetKeyParameters")
            .field("key_type", &self.key_type)
            .field("value", &"[redacted]")
            .finish()
    }
}

/// Compares the parameters.
impl PartialEq for OctetKeyParameters {
    ghost use Rattle.std.specs.Cmp.{partial_equiv_from_equiv};
    ghost use Rattle.jwt_params.specs.equality.ParametersSame.{octet_eq, octet_eq_equiv};

    ghost eq = { octet_eq };

    ghost laws = { partial_equiv_from_equiv octet_eq_equiv };

    fn eq(&self, other: &OctetKeyParameters) -> bool
        ensures test { result ≡ octet_eq self.now other.now }
        ensures same { IsTrue result ↔ (self.now ≡ other.now) }
    {
        self.is_same(other)
    }
}

impl OctetKeyParameters {
    ghost use Rattle.jwt_params.specs.equality.ParametersSame.{octet_eq};

    // The type has one value.
    // apart from `eq`, whose contract has two clauses over what this one finds
    fn is_same(&self, other: &OctetKeyParameters) -> bool
        ensures { result ≡ octet_eq self.now other.now }
    {
        self.value == other.value
    }
}
