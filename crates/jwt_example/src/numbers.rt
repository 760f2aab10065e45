//! Whole numbers at the members of a JSON value.

ghost use Rattle.std.specs.Prelude.{◌≡◌, Some, None, IfOk, IfErr};
ghost use Rattle.serde_json.specs.View.{view};
ghost use Rattle.jwt_base.specs.Kind as kind;
ghost use Rattle.jwt_base.specs.KindOf.{RefusesAs};
ghost use Rattle.jwt_example.specs.Numbers.{number_at};

use jsonwebtoken::errors::{ErrorKind, Result, new_error};
use serde_json::Value;

/// Returns the whole number at a member. A negative number, any other value and an absent member are
/// refused with `Json`.
pub fn number_at(value: &Value, name: &str) -> Result<u64>
    ensures ok { IfOk result (λ n. number_at name.now (view value.now) ≡ Some n) }
    ensures err { IfErr result (RefusesAs kind.Json (number_at name.now (view value.now) ≡ None)) }
{
    match value.get(name) {
        Some(number) => number.as_u64().ok_or(new_error(ErrorKind::Json)),
        None => Err(new_error(ErrorKind::Json)),
    }
}
