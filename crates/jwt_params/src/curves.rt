//! The curves of elliptic keys.

ghost use Rattle.std.specs.Prelude.{◌≡◌, None, Some, IfOk, IfErr};
ghost use Rattle.serde_json.specs.Data.{string};
ghost use Rattle.serde_json.specs.View.{view};
ghost use Rattle.jwt_base.specs.Kind as kind;
ghost use Rattle.jwt_base.specs.KindOf.{kind_of, IsMemory};
ghost use Rattle.jwt_params.specs.Curve.{curve_name, curve_named, curve_from};
ghost use Rattle.jwt_params.specs.declared.curves.EllipticCurve.TheVariants.{P256};

use jwt_base::errors::{ErrorKind, Result, new_error};
use serde_json::Value;
use std::alloc::Global;

/// A curve (RFC 7518 section 6.2.1.1, RFC 8037 section 2).
#[derive(Clone, Debug, PartialEq, Eq, Hash, Drop)]
pub enum EllipticCurve {
    /// The curve P-256.
    P256,
    /// The curve P-384.
    P384,
    /// The curve P-521.
    P521,
    /// The Edwards curve Ed25519.
    Ed25519,
}

impl EllipticCurve {
    /// Returns the name in JSON.
    pub fn name(&self) -> &'static str
        ensures { result.now ≡ curve_name self.now }
    {
        match self {
            EllipticCurve::P256 => "P-256",
            EllipticCurve::P384 => "P-384",
            EllipticCurve::P521 => "P-521",
            EllipticCurve::Ed25519 => "Ed25519",
        }
    }

    /// Returns the name as a JSON string. The only refusal is `OutOfMemory`.
    pub fn to_value(&self, alloc: Global) -> Result<Value>
        ensures ok { IfOk result (λ v. view v ≡ string (curve_name self.now)) }
        ensures reads_back { IfOk result (λ v. curve_from (view v) ≡ Some self.now) }
        ensures err { IfErr result IsMemory }
    {
        Ok(Value::String(String::from_str(alloc, self.name())?))
    }

    /// Returns the curve that a JSON string names. Any other value is refused with `Json`.
    /// Allocates no memory.
    pub fn from_value(value: &Value) -> Result<EllipticCurve>
        ensures ok { IfOk result (λ c. curve_from (view value.now) ≡ Some c) }
        ensures err { IfErr result (λ e. (kind_of e ≡ kind.Json)
            × (curve_from (view value.now) ≡ None)) }
    {
        let curve = value.as_str().and_then(curve_of_name);
        curve.ok_or(new_error(ErrorKind::Json))
    }
}

impl Default for EllipticCurve {
    ghost is_default = { λ c. c ≡ P256 };

    fn default() -> EllipticCurve {
        EllipticCurve::P256
    }
}

fn curve_of_name(name: &str) -> Option<EllipticCurve>
    ensures { result ≡ curve_named name.now }
{
    match name {
        "P-256" => Some(EllipticCurve::P256),
        "P-384" => Some(EllipticCurve::P384),
        "P-521" => Some(EllipticCurve::P521),
        "Ed25519" => Some(EllipticCurve::Ed25519),
        _ => None,
    }
}
