//! Pairs of octet strings.

ghost use Rattle.std.specs.Prelude.{◌≡◌, ◌↔◌, IsTrue, Some, None, IfOk, IfErr};
ghost use Rattle.serde_json.specs.Data.{object};
ghost use Rattle.serde_json.specs.View.{view, members_view};
ghost use Rattle.jwt_base.specs.Kind as kind;
ghost use Rattle.jwt_base.specs.KindOf.{IsMemory, RefusesAs};

use crate::curves::EllipticCurve;
use crate::key_types::OctetKeyPairType;
use crate::members::{curve_at, has_type, text_at};
use jwt_base::errors::{ErrorKind, Result, new_error};
use jwt_base::json::members::put_text;
use jwt_base::text::Text;
use serde_json::{Map, Value};
use std::alloc::Global;
use std::hash::{Hash, Hasher};

/// The parameters of a public key that is an octet string (RFC 8037 section 2).
#[derive(Debug, Drop, Eq)]
pub struct OctetKeyPairParameters {
    /// The type, `OKP`.
    pub key_type: OctetKeyPairType,
    /// The curve, `crv`.
    pub curve: EllipticCurve,
    /// The public key in base64url, `x`.
    pub x: Text,
}

impl OctetKeyPairParameters {
    ghost use Rattle.jwt_params.specs.Parameters.{pair_from, pair_members};

    /// Returns the parameters that a JSON object has; further members are ignored. Any other value
    /// is refused with `Json`, and so is an object whose `kty` is not `OKP`, whose `crv` is not a
    /// curve, or whose `x` is not a string.
    pub fn from_value(alloc: Global, value: &Value) -> Result<OctetKeyPairParameters>
        ensures ok { IfOk result (λ p. pair_from (view value.now) ≡ Some p) }
        ensures err { IfErr result (RefusesAs kind.Json (pair_from (view value.now) ≡ None)) }
    {
        OctetKeyPairParameters::read(alloc, value)?.ok_or(new_error(ErrorKind::Json))
    }

    /// Returns the JSON object of the parameters. The only refusal is `OutOfMemory`.
    pub fn to_value(&self, alloc: Global) -> Result<Value>
        ensures ok { IfOk result (λ v. view v ≡ object (pair_members self.now)) }
        ensures reads_back { IfOk result (λ v. pair_from (view v) ≡ Some self.now) }
        ensures err { IfErr result IsMemory }
    {
        let members = self.members(alloc)?;
        Ok(Value::Object(members))
    }

    /// Returns a copy. The only refusal is `OutOfMemory`.
    pub fn clone(&self, alloc: Global) -> Result<OctetKeyPairParameters>
        ensures ok { IfOk result (λ p. p ≡ self.now) }
        ensures err { IfErr result IsMemory }
    {
        Ok(OctetKeyPairParameters {
            key_type: self.key_type,
            curve: self.curve.clone()?,
            x: self.x.clone(alloc)?,
        })
    }

    // Returns `None` if the value does not have the parameters.
    pub(crate) fn read(alloc: Global, value: &Value) -> Result<Option<OctetKeyPairParameters>>
        ensures ok { IfOk result (λ p. p ≡ pair_from (view value.now)) }
        ensures err { IfErr result IsMemory }
    {
        if !has_type(value, "OKP") {
            return Ok(None);
        }
        let Some(curve) = curve_at(value) else {
            return Ok(None);
        };
        let Some(x) = text_at(value, "x") else {
            return Ok(None);
        };
        Ok(Some(OctetKeyPairParameters {
            key_type: OctetKeyPairType::OctetKeyPair,
            curve,
            x: Text::from_str(alloc, x)?,
        }))
    }

    /// Returns the members `crv`, `kty` and `x`. The only refusal is `OutOfMemory`.
    pub fn members(&self, alloc: Global) -> Result<Map<String, Value>>
        ensures ok { IfOk result (λ m. members_view m.entries ≡ pair_members self.now) }
        ensures err { IfErr result IsMemory }
    {
        let mut members = Map::new(alloc);
        put_text(alloc, &mut members, "kty", self.key_type.name())?;
        put_text(alloc, &mut members, "crv", self.curve.name())?;
        put_text(alloc, &mut members, "x", self.x.as_str())?;
        Ok(members)
    }
}

/// Compares the parameters.
impl PartialEq for OctetKeyPairParameters {
    ghost use Rattle.std.specs.Cmp.{partial_equiv_from_equiv};
    ghost use Rattle.jwt_params.specs.equality.ParametersSame.{pair_eq, pair_eq_equiv};

    ghost eq = { pair_eq };

    ghost laws = { partial_equiv_from_equiv pair_eq_equiv };

    fn eq(&self, other: &OctetKeyPairParameters) -> bool
        ensures test { result ≡ pair_eq self.now other.now }
        ensures same { IsTrue result ↔ (self.now ≡ other.now) }
    {
        self.is_same(other)
    }
}

impl OctetKeyPairParameters {
    ghost use Rattle.jwt_params.specs.equality.ParametersSame.{pair_eq};

    // The type has one value.
    // apart from `eq`, whose contract has two clauses over what this one finds
    fn is_same(&self, other: &OctetKeyPairParameters) -> bool
        ensures { result ≡ pair_eq self.now other.now }
    {
        self.curve == other.curve && self.x == other.x
    }
}

/// Feeds the parameters.
impl Hash for OctetKeyPairParameters {
    ghost use Rattle.jwt_params.specs.equality.ParametersFed.{pair_fed, pair_alike};

    ghost hash_input = { pair_fed };

    ghost respects_eq = { pair_alike.fed };

    fn hash<H: Hasher>(&self, state: &mut H) {
        self.curve.hash(state);
        self.x.hash(state);
    }
}
