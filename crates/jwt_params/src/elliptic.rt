//! Keys on elliptic curves.

ghost use Rattle.std.specs.Prelude.{◌≡◌, ◌↔◌, IsTrue, Some, None, IfOk, IfErr};
ghost use Rattle.serde_json.specs.Data.{object};
ghost use Rattle.serde_json.specs.View.{view, members_view};
ghost use Rattle.jwt_base.specs.Kind as kind;
ghost use Rattle.jwt_base.specs.KindOf.{IsMemory, RefusesAs};

use crate::curves::EllipticCurve;
use crate::key_types::EllipticCurveKeyType;
use crate::members::{curve_at, has_type, text_at};
use jwt_base::errors::{ErrorKind, Result, new_error};
use jwt_base::json::members::put_text;
use jwt_base::text::Text;
use serde_json::{Map, Value};
use std::alloc::Global;
use std::hash::{Hash, Hasher};

/// The parameters of a key on an elliptic curve (RFC 7518 section 6.2.1).
#[derive(Debug, Drop, Eq)]
pub struct EllipticCurveKeyParameters {
    /// The type, `EC` (section 6.1).
    pub key_type: EllipticCurveKeyType,
    /// The curve, `crv` (section 6.2.1.1).
    pub curve: EllipticCurve,
    /// The first coordinate in base64url, `x` (section 6.2.1.2).
    pub x: Text,
    /// The second coordinate in base64url, `y` (section 6.2.1.3).
    pub y: Text,
}

impl EllipticCurveKeyParameters {
    ghost use Rattle.jwt_params.specs.Parameters.{elliptic_from, elliptic_members};

    /// Returns the parameters that a JSON object has; further members are ignored. Any other value
    /// is refused with `Json`, and so is an object whose `kty` is not `EC`, whose `crv` is not a
    /// curve, or whose `x` or `y` is not a string.
    pub fn from_value(alloc: Global, value: &Value) -> Result<EllipticCurveKeyParameters>
        ensures ok { IfOk result (λ p. elliptic_from (view value.now) ≡ Some p) }
        ensures err { IfErr result (RefusesAs kind.Json (elliptic_from (view value.now) ≡ None)) }
    {
        EllipticCurveKeyParameters::read(alloc, value)?.ok_or(new_error(ErrorKind::Json))
    }

    /// Returns the JSON object of the parameters. The only refusal is `OutOfMemory`.
    pub fn to_value(&self, alloc: Global) -> Result<Value>
        ensures ok { IfOk result (λ v. view v ≡ object (elliptic_members self.now)) }
        ensures reads_back { IfOk result (λ v. elliptic_from (view v) ≡ Some self.now) }
        ensures err { IfErr result IsMemory }
    {
        let members = self.members(alloc)?;
        Ok(Value::Object(members))
    }

    /// Returns a copy. The only refusal is `OutOfMemory`.
    pub fn clone(&self, alloc: Global) -> Result<EllipticCurveKeyParameters>
        ensures ok { IfOk result (λ p. p ≡ self.now) }
        ensures err { IfErr result IsMemory }
    {
        Ok(EllipticCurveKeyParameters {
            key_type: self.key_type,
            curve: self.curve.clone()?,
            x: self.x.clone(alloc)?,
            y: self.y.clone(alloc)?,
        })
    }

    // Returns `None` if the value does not have the parameters.
    pub(crate) fn read(alloc: Global, value: &Value) -> Result<Option<EllipticCurveKeyParameters>>
        ensures ok { IfOk result (λ p. p ≡ elliptic_from (view value.now)) }
        ensures err { IfErr result IsMemory }
    {
        if !has_type(value, "EC") {
            return Ok(None);
        }
        let Some(curve) = curve_at(value) else {
            return Ok(None);
        };
        let Some(x) = text_at(value, "x") else {
            return Ok(None);
        };
        let Some(y) = text_at(value, "y") else {
            return Ok(None);
        };
        Ok(Some(EllipticCurveKeyParameters {
            key_type: EllipticCurveKeyType::EC,
            curve,
            x: Text::from_str(alloc, x)?,
            y: Text::from_str(alloc, y)?,
        }))
    }

    /// Returns the members `crv`, `kty`, `x` and `y`. The only refusal is `OutOfMemory`.
    pub fn members(&self, alloc: Global) -> Result<Map<String, Value>>
        ensures ok { IfOk result (λ m. members_view m.entries ≡ elliptic_members self.now) }
        ensures err { IfErr result IsMemory }
    {
        let mut members = Map::new(alloc);
        put_text(alloc, &mut members, "kty", self.key_type.name())?;
        put_text(alloc, &mut members, "crv", self.curve.name())?;
        put_text(alloc, &mut members, "x", self.x.as_str())?;
        put_text(alloc, &mut members, "y", self.y.as_str())?;
        Ok(members)
    }
}

/// Compares the parameters.
impl PartialEq for EllipticCurveKeyParameters {
    ghost use Rattle.std.specs.Cmp.{partial_equiv_from_equiv};
    ghost use Rattle.jwt_params.specs.equality.ParametersSame.{elliptic_eq, elliptic_eq_equiv};

    ghost eq = { elliptic_eq };

    ghost laws = { partial_equiv_from_equiv elliptic_eq_equiv };

    fn eq(&self, other: &EllipticCurveKeyParameters) -> bool
        ensures test { result ≡ elliptic_eq self.now other.now }
        ensures same { IsTrue result ↔ (self.now ≡ other.now) }
    {
        self.is_same(other)
    }
}

impl EllipticCurveKeyParameters {
    ghost use Rattle.jwt_params.specs.equality.ParametersSame.{elliptic_eq};

    // The type has one value.
    // apart from `eq`, whose contract has two clauses over what this one finds
    fn is_same(&self, other: &EllipticCurveKeyParameters) -> bool
        ensures { result ≡ elliptic_eq self.now other.now }
    {
        self.curve == other.curve && self.x == other.x && self.y == other.y
    }
}

/// Feeds the parameters.
impl Hash for EllipticCurveKeyParameters {
    ghost use Rattle.jwt_params.specs.equality.ParametersFed.{elliptic_fed, elliptic_alike};

    ghost hash_input = { elliptic_fed };

    ghost respects_eq = { elliptic_alike.fed };

    fn hash<H: Hasher>(&self, state: &mut H) {
        self.curve.hash(state);
        self.x.hash(state);
        self.y.hash(state);
    }
}
