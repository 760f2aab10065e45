//! The values of the members that the types of keys have.

ghost use Rattle.std.specs.Prelude.{◌≡◌, option_map};
ghost use Rattle.serde_json.specs.View.{view};
ghost use Rattle.jwt_base.specs.Members.{text_at};
ghost use Rattle.jwt_params.specs.Parameters.{is_type, curve_at};

use crate::curves::EllipticCurve;
use serde_json::Value;

pub(crate) fn text_at<'v>(value: &'v Value, name: &str) -> Option<&'v str>
    ensures { option_map (λ s. s.now) result ≡ text_at name.now (view value.now) }
{
    value.get(name)?.as_str()
}

pub(crate) fn has_type(value: &Value, name: &str) -> bool
    ensures { result ≡ is_type name.now (view value.now) }
{
    match text_at(value, "kty") {
        Some(text) => text == name,
        None => false,
    }
}

pub(crate) fn curve_at(value: &Value) -> Option<EllipticCurve>
    ensures { result ≡ curve_at (view value.now) }
{
    match value.get("crv") {
        Some(curve) => EllipticCurve::from_value(curve).ok(),
        None => None,
    }
}
