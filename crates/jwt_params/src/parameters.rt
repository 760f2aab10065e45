//! The type of a key with its parameters.

// The four types with parameters of their own are tried on the whole object, and only if none fits
// are the further members copied, without those that the type `Other` would drop.

ghost use Rattle.std.specs.Prelude.{◌≡◌, ◌↔◌, IsTrue, Some, None, IfOk, IfErr};
ghost use Rattle.serde_json.specs.Data.{object};
ghost use Rattle.serde_json.specs.View.{view, members_view};
ghost use Rattle.jwt_base.specs.Kind as kind;
ghost use Rattle.jwt_base.specs.KindOf.{IsMemory, RefusesAs};

use crate::elliptic::EllipticCurveKeyParameters;
use crate::octet::OctetKeyParameters;
use crate::octet_pair::OctetKeyPairParameters;
use crate::other::OtherKeyParameters;
use crate::rsa::RSAKeyParameters;
use jwt_base::errors::Result;
use serde_json::{Map, Value};
use std::alloc::Global;
use std::hash::{Hash, Hasher};

/// The type of a key with its parameters (RFC 7518 section 6, RFC 8037 section 2).
#[derive(Debug, Drop)]
pub enum AlgorithmParameters {
    /// A key on an elliptic curve.
    EllipticCurve(EllipticCurveKeyParameters),
    /// An RSA key.
    RSA(RSAKeyParameters),
    /// A secret.
    OctetKey(OctetKeyParameters),
    /// A pair of octet strings.
    OctetKeyPair(OctetKeyPairParameters),
    /// Any other type.
    Other(OtherKeyParameters),
}

impl AlgorithmParameters {
    ghost use Rattle.jwt_params.specs.Parameters.{named_from, parameters_from, parameters_members};
    ghost use Rattle.jwt_params.specs.Parameters.{parameters_value, normal_parameters, has_common};

    /// Returns the first of the five types whose parameters are among the members of a JSON object.
    /// The first four ignore further members, and `Other` keeps all. A value that is not an object
    /// and a float that `Other` would keep are refused with `Json`.
    pub fn from_value(alloc: Global, value: &Value) -> Result<AlgorithmParameters>
        ensures ok { IfOk result (λ a. parameters_from (view value.now) ≡ Some a) }
        ensures normal { IfOk result (λ a. normal_parameters a ≡ a) }
        ensures err { IfErr result (RefusesAs kind.Json (parameters_from (view value.now) ≡ None)) }
    {
        AlgorithmParameters::read(alloc, value)
    }

    /// Returns the first of the four known types whose parameters a JSON value has, or `None` if
    /// there is no such type. The only refusal is `OutOfMemory`.
    pub fn from_known_type(alloc: Global, value: &Value) -> Result<Option<AlgorithmParameters>>
        ensures ok { IfOk result (λ a. a ≡ named_from (view value.now)) }
        ensures err { IfErr result IsMemory }
    {
        if let Some(elliptic) = EllipticCurveKeyParameters::read(alloc, value)? {
            return Ok(Some(AlgorithmParameters::EllipticCurve(elliptic)));
        }
        if let Some(rsa) = RSAKeyParameters::read(alloc, value)? {
            return Ok(Some(AlgorithmParameters::RSA(rsa)));
        }
        if let Some(octet) = OctetKeyParameters::read(alloc, value)? {
            return Ok(Some(AlgorithmParameters::OctetKey(octet)));
        }
        if let Some(pair) = OctetKeyPairParameters::read(alloc, value)? {
            return Ok(Some(AlgorithmParameters::OctetKeyPair(pair)));
        }
        Ok(None)
    }

    /// Returns the JSON object of the parameters. A float in an `Other` is refused with `Json`.
    pub fn to_value(&self, alloc: Global) -> Result<Value>
        ensures ok { IfOk result (λ v. parameters_value self.now ≡ Some (view v)) }
        ensures reads_back { IfOk result (λ v. parameters_from (view v)
            ≡ Some (normal_parameters self.now)) }
        ensures err { IfErr result (RefusesAs kind.Json (parameters_value self.now ≡ None)) }
    {
        let members = self.members(alloc)?;
        Ok(Value::Object(members))
    }

    /// Returns the members of the JSON object of the parameters. A float in an `Other` is refused
    /// with `Json`.
    pub fn members(&self, alloc: Global) -> Result<Map<String, Value>>
        ensures ok { IfOk result (λ m. parameters_members self.now
            ≡ Some (members_view m.entries)) }
        ensures err { IfErr result (RefusesAs kind.Json (parameters_members self.now ≡ None)) }
    {
        match self {
            AlgorithmParameters::EllipticCurve(elliptic) => elliptic.members(alloc),
            AlgorithmParameters::RSA(rsa) => rsa.members(alloc),
            AlgorithmParameters::OctetKey(octet) => octet.members(alloc),
            AlgorithmParameters::OctetKeyPair(pair) => pair.members(alloc),
            AlgorithmParameters::Other(other) => other.members(),
        }
    }

    /// Returns whether this is an `Other` with a member that keys of every type may have (RFC 7517
    /// section 4).
    pub fn has_common_name(&self) -> bool
        ensures { result ≡ has_common self.now }
    {
        match self {
            AlgorithmParameters::Other(other) => other.fields.has_common_name(),
            _ => false,
        }
    }

    /// Returns a copy. The only refusal is `OutOfMemory`.
    pub fn clone(&self, alloc: Global) -> Result<AlgorithmParameters>
        ensures ok { IfOk result (λ a. a ≡ self.now) }
        ensures err { IfErr result IsMemory }
    {
        Ok(match self {
            AlgorithmParameters::EllipticCurve(elliptic) => AlgorithmParameters::EllipticCurve(
                elliptic.clone(alloc)?,
            ),
            AlgorithmParameters::RSA(rsa) => AlgorithmParameters::RSA(rsa.clone(alloc)?),
            AlgorithmParameters::OctetKey(octet) => AlgorithmParameters::OctetKey(octet.clone(
                alloc,
            )?),
            AlgorithmParameters::OctetKeyPair(pair) => AlgorithmParameters::OctetKeyPair(pair.clone(
                alloc,
            )?),
            AlgorithmParameters::Other(other) => AlgorithmParameters::Other(other.clone(alloc)?),
        })
    }

    fn read(alloc: Global, value: &Value) -> Result<AlgorithmParameters>
        ensures ok { IfOk result (λ a. parameters_from (view value.now) ≡ Some a) }
        ensures err { IfErr result (RefusesAs kind.Json (parameters_from (view value.now) ≡ None)) }
    {
        if let Some(named) = AlgorithmParameters::from_known_type(alloc, value)? {
            return Ok(named);
        }
        let other = OtherKeyParameters::from_value(alloc, value)?;
        Ok(AlgorithmParameters::Other(other))
    }
}

/// Compares the types and their parameters. Any two floats count as equal.
impl PartialEq for AlgorithmParameters {
    ghost use Rattle.std.specs.Cmp.{partial_equiv_from_equiv};
    ghost use Rattle.jwt_params.specs.Parameters.{marked_parameters};
    ghost use Rattle.jwt_params.specs.equality.ParametersSame.{parameters_eq, parameters_eq_equiv};

    ghost eq = { parameters_eq };

    ghost laws = { partial_equiv_from_equiv parameters_eq_equiv };

    fn eq(&self, other: &AlgorithmParameters) -> bool
        ensures test { result ≡ parameters_eq self.now other.now }
        ensures same { IsTrue result ↔ (marked_parameters self.now ≡ marked_parameters other.now) }
    {
        self.is_same(other)
    }
}

impl Eq for AlgorithmParameters {
    ghost use Rattle.jwt_params.specs.equality.ParametersSame.{parameters_eq_equiv};

    ghost laws = { parameters_eq_equiv };
}

impl AlgorithmParameters {
    ghost use Rattle.jwt_params.specs.equality.ParametersSame.{parameters_eq};

    // apart from `eq`, whose contract has two clauses over what this one finds
    fn is_same(&self, other: &AlgorithmParameters) -> bool
        ensures { result ≡ parameters_eq self.now other.now }
    {
        match self {
            AlgorithmParameters::EllipticCurve(p) => match other {
                AlgorithmParameters::EllipticCurve(q) => p == q,
                _ => false,
            },
            AlgorithmParameters::RSA(p) => match other {
                AlgorithmParameters::RSA(q) => p == q,
                _ => false,
            },
            AlgorithmParameters::OctetKey(p) => match other {
                AlgorithmParameters::OctetKey(q) => p == q,
                _ => false,
            },
            AlgorithmParameters::OctetKeyPair(p) => match other {
                AlgorithmParameters::OctetKeyPair(q) => p == q,
                _ => false,
            },
            AlgorithmParameters::Other(p) => match other {
                AlgorithmParameters::Other(q) => p == q,
                _ => false,
            },
        }
    }
}

/// Feeds the parameters, and of free members their names alone.
impl Hash for AlgorithmParameters {
    ghost use Rattle.jwt_params.specs.equality.ParametersFed.{parameters_fed, parameters_alike};

    ghost hash_input = { parameters_fed };

    ghost respects_eq = { parameters_alike.fed };

    fn hash<H: Hasher>(&self, state: &mut H) {
        match self {
            AlgorithmParameters::EllipticCurve(p) => p.hash(state),
            AlgorithmParameters::RSA(p) => p.hash(state),
            AlgorithmParameters::OctetKey(p) => p.hash(state),
            AlgorithmParameters::OctetKeyPair(p) => p.hash(state),
            AlgorithmParameters::Other(p) => p.hash(state),
        }
    }
}
