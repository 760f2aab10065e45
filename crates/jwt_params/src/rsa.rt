//! RSA keys.

ghost use Rattle.std.specs.Prelude.{◌≡◌, ◌↔◌, IsTrue, Some, None, IfOk, IfErr};
ghost use Rattle.serde_json.specs.Data.{object};
ghost use Rattle.serde_json.specs.View.{view, members_view};
ghost use Rattle.jwt_base.specs.Kind as kind;
ghost use Rattle.jwt_base.specs.KindOf.{IsMemory, RefusesAs};

use crate::key_types::RSAKeyType;
use crate::members::{has_type, text_at};
use jwt_base::errors::{ErrorKind, Result, new_error};
use jwt_base::json::members::put_text;
use jwt_base::text::Text;
use serde_json::{Map, Value};
use std::alloc::Global;

/// The parameters of a public RSA key (RFC 7518 section 6.3.1).
#[derive(Debug, Drop, Eq, Hash)]
pub struct RSAKeyParameters {
    /// The type, `RSA` (section 6.1).
    pub key_type: RSAKeyType,
    /// The modulus in base64url, `n` (section 6.3.1.1).
    pub n: Text,
    /// The exponent in base64url, `e` (section 6.3.1.2).
    pub e: Text,
}

impl RSAKeyParameters {
    ghost use Rattle.jwt_params.specs.Parameters.{rsa_from, rsa_members};

    /// Returns the parameters that a JSON object has; further members are ignored. Any other value
    /// is refused with `Json`, and so is an object whose `kty` is not `RSA`, or whose `n` or `e` is
    /// not a string.
    pub fn from_value(alloc: Global, value: &Value) -> Result<RSAKeyParameters>
        ensures ok { IfOk result (λ p. rsa_from (view value.now) ≡ Some p) }
        ensures err { IfErr result (RefusesAs kind.Json (rsa_from (view value.now) ≡ None)) }
    {
        RSAKeyParameters::read(alloc, value)?.ok_or(new_error(ErrorKind::Json))
    }

    /// Returns the JSON object of the parameters. The only refusal is `OutOfMemory`.
    pub fn to_value(&self, alloc: Global) -> Result<Value>
        ensures ok { IfOk result (λ v. view v ≡ object (rsa_members self.now)) }
        ensures reads_back { IfOk result (λ v. rsa_from (view v) ≡ Some self.now) }
        ensures err { IfErr result IsMemory }
    {
        let members = self.members(alloc)?;
        Ok(Value::Object(members))
    }

    /// Returns a copy. The only refusal is `OutOfMemory`.
    pub fn clone(&self, alloc: Global) -> Result<RSAKeyParameters>
        ensures ok { IfOk result (λ p. p ≡ self.now) }
        ensures err { IfErr result IsMemory }
    {
        Ok(RSAKeyParameters {
            key_type: self.key_type,
            n: self.n.clone(alloc)?,
            e: self.e.clone(alloc)?,
        })
    }

    // Returns `None` if the value does not have the parameters.
    pub(crate) fn read(alloc: Global, value: &Value) -> Result<Option<RSAKeyParameters>>
        ensures ok { IfOk result (λ p. p ≡ rsa_from (view value.now)) }
        ensures err { IfErr result IsMemory }
    {
        if !has_type(value, "RSA") {
            return Ok(None);
        }
        let Some(n) = text_at(value, "n") else {
            return Ok(None);
        };
        let Some(e) = text_at(value, "e") else {
            return Ok(None);
        };
        Ok(Some(RSAKeyParameters {
            key_type: RSAKeyType::RSA,
            n: Text::from_str(alloc, n)?,
            e: Text::from_str(alloc, e)?,
        }))
    }

    /// Returns the members `e`, `kty` and `n`. The only refusal is `OutOfMemory`.
    pub fn members(&self, alloc: Global) -> Result<Map<String, Value>>
        ensures ok { IfOk result (λ m. members_view m.entries ≡ rsa_members self.now) }
        ensures err { IfErr result IsMemory }
    {
        let mut members = Map::new(alloc);
        put_text(alloc, &mut members, "kty", self.key_type.name())?;
        put_text(alloc, &mut members, "n", self.n.as_str())?;
        put_text(alloc, &mut members, "e", self.e.as_str())?;
        Ok(members)
    }
}

/// Compares the parameters.
impl PartialEq for RSAKeyParameters {
    ghost use Rattle.std.specs.Cmp.{partial_equiv_from_equiv};
    ghost use Rattle.jwt_params.specs.equality.ParametersSame.{rsa_eq, rsa_eq_equiv};

    ghost eq = { rsa_eq };

    ghost laws = { partial_equiv_from_equiv rsa_eq_equiv };

    fn eq(&self, other: &RSAKeyParameters) -> bool
        ensures test { result ≡ rsa_eq self.now other.now }
        ensures same { IsTrue result ↔ (self.now ≡ other.now) }
    {
        self.is_same(other)
    }
}

impl RSAKeyParameters {
    ghost use Rattle.jwt_params.specs.equality.ParametersSame.{rsa_eq};

    // The type has one value.
    // apart from `eq`, whose contract has two clauses over what this one finds
    fn is_same(&self, other: &RSAKeyParameters) -> bool
        ensures { result ≡ rsa_eq self.now other.now }
    {
        self.n == other.n && self.e == other.e
    }
}
