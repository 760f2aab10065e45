//! Values that are read from JSON and written as JSON.

// The law of `Claims` is that one value's readings are written alike, not that they are equal.
// Custom claims may differ in what is no part of them, such as the capacity of a list; a type may
// have no equality; and no caller loses anything, since what such claims say is what they are
// written as. `from_owned` takes a payload's value itself if the claims are a `Value`, and
// `to_text` writes one without a copy; both have a body in the trait, so a custom type needs
// neither.

ghost use Rattle.std.specs.Prelude.{◌≡◌, Option, Some, None, true, IfOk, IfErr, option_map};
ghost use Rattle.std.specs.Prelude.{string_bytes};
ghost use Rattle.std.proofs.Common.{◌∙◌, sym, ap};
ghost use Rattle.std.specs.Int.{w32, w64};
ghost use Rattle.serde_json.specs.Data.{Data, boolean, string, number, unsigned};
ghost use Rattle.serde_json.specs.Find.{of_integer};
ghost use Rattle.serde_json.specs.View.{view};
ghost use Rattle.serde_json.specs.Written.{has_float as holds_float};
ghost use Rattle.jwt_base.specs.Kind as kind;
ghost use Rattle.jwt_base.specs.KindOf.{IsMemory, RefusesAs};
ghost use Rattle.jwt_base.specs.Claims.{IsCompact, IsValue, IsText, IsTruth, IsUnsigned, IsSigned};

use crate::errors::{ErrorKind, Result, new_error};
use crate::json::equality::has_float;
use serde_json::Value;
use std::alloc::Global;

/// Values that are read from JSON and written as JSON, as the claims of a token. The value fixes
/// how it is written, and two values that are read from one JSON value are written alike.
pub trait Claims: Sized + Drop {
    /// It is read from this JSON value.
    ghost reads: { Data → Self → Type 0 };

    /// The JSON value that it is written as, if it can be written.
    ghost written: { Self → Option Data };

    /// Returns the JSON value. Claims that cannot be written are refused with `Json`.
    fn to_value(&self, alloc: Global) -> Result<Value>
        ensures ok { IfOk result (λ v. written self.now ≡ Some (view v)) }
        ensures err { IfErr result (RefusesAs kind.Json (written self.now ≡ None)) };

    /// Returns the claims that are read from the JSON value. If none are, the refusal is `Json`.
    fn from_value(alloc: Global, value: &Value) -> Result<Self>
        ensures ok { IfOk result (λ c. reads (view value.now) c) }
        ensures err { IfErr result (RefusesAs kind.Json
            ((c : Self) → ¬ reads (view value.now) c)) };

    /// Returns the claims that are read from a JSON value, which is consumed and need not be
    /// copied. If none are, the refusal is `Json`.
    fn from_owned(alloc: Global, value: Value) -> Result<Self>
        ensures ok { IfOk result (λ c. reads (view value) c) }
        ensures err { IfErr result (RefusesAs kind.Json ((c : Self) → ¬ reads (view value) c)) }
    {
        Self::from_value(alloc, &value)
    }

    /// Returns the compact JSON text. Claims that cannot be written and those with a float in them
    /// are refused with `Json`.
    fn to_text(&self, alloc: Global) -> Result<Vec<u8>>
        ensures ok { IfOk result (λ t. (d : Data)
            × ((written self.now ≡ Some d) × IsCompact d t.items)) }
        ensures err { IfErr result (RefusesAs kind.Json
            ((d : Data) → written self.now ≡ Some d → holds_float d ≡ true)) }
    {
        let value = self.to_value(alloc)?;
        value_text(alloc, &value)
    }

    /// Claims that are read from one value are written alike.
    ghost decided: { (d : Data) (b c : Self) → reads d b → reads d c → written b ≡ written c };
}

/// Returns the value's compact JSON text. A value with a float in it is refused with `Json`.
pub fn value_text(alloc: Global, value: &Value) -> Result<Vec<u8>>
    ensures ok { IfOk result (λ t. IsCompact (view value.now) t.items) }
    ensures err { IfErr result (RefusesAs kind.Json (holds_float (view value.now) ≡ true)) }
{
    if has_float(value) {
        return Err(new_error(ErrorKind::Json));
    }
    Ok(value.to_vec(alloc)?)
}

/// Is read as a copy, or as the value itself if it is consumed.
impl Claims for Value {
    ghost reads = { IsValue };

    ghost written = { λ v. Some (view v) };

    fn to_value(&self, _alloc: Global) -> Result<Value> {
        Ok(self.clone()?)
    }

    fn from_value(_alloc: Global, value: &Value) -> Result<Value> {
        Ok(value.clone()?)
    }

    fn from_owned(_alloc: Global, value: Value) -> Result<Value> {
        Ok(value)
    }

    fn to_text(&self, alloc: Global) -> Result<Vec<u8>> {
        value_text(alloc, self)
    }

    ghost decided = { λ d b c p q. ap Some (p ∙ sym q) };
}

/// Is read from a JSON string.
impl Claims for String {
    ghost reads = { λ d s. IsText d (string_bytes s) };

    ghost written = { λ s. Some (string (string_bytes s)) };

    fn to_value(&self, _alloc: Global) -> Result<Value>
        ensures ok { IfOk result (λ v. Some (string (string_bytes self.now)) ≡ Some (view v)) }
        ensures reads_back { IfOk result (λ v. IsText (view v) (string_bytes self.now)) }
        ensures err { IfErr result IsMemory }
    {
        Ok(Value::String(self.clone()?))
    }

    fn from_value(alloc: Global, value: &Value) -> Result<String> {
        match value.as_str() {
            Some(text) => Ok(String::from_str(alloc, text)?),
            None => Err(new_error(ErrorKind::Json)),
        }
    }

    ghost decided = { λ d b c p q. ap (option_map string) (sym p ∙ q) };
}

/// Is read from a JSON truth value.
impl Claims for bool {
    ghost reads = { IsTruth };

    ghost written = { λ b. Some (boolean b) };

    fn to_value(&self, _alloc: Global) -> Result<Value>
        ensures ok { IfOk result (λ v. Some (boolean self.now) ≡ Some (view v)) }
        ensures reads_back { IfOk result (λ v. IsTruth (view v) self.now) }
        ensures err { IfErr result (λ _. ⊥) }
    {
        Ok(Value::Bool(*self))
    }

    fn from_value(_alloc: Global, value: &Value) -> Result<bool> {
        match value.as_bool() {
            Some(truth) => Ok(truth),
            None => Err(new_error(ErrorKind::Json)),
        }
    }

    ghost decided = { λ d b c p q. ap (option_map boolean) (sym p ∙ q) };
}

/// Is read from a whole number in the type's range.
impl Claims for u32 {
    ghost reads = { IsUnsigned 32 };

    ghost written = { λ n. Some (number (unsigned n)) };

    fn to_value(&self, _alloc: Global) -> Result<Value>
        ensures ok { IfOk result (λ v. Some (number (unsigned self.now)) ≡ Some (view v)) }
        ensures reads_back { IfOk result (λ v. IsUnsigned 32 (view v) self.now) }
        ensures err { IfErr result (λ _. ⊥) }
    {
        Ok(Value::from(*self))
    }

    fn from_value(_alloc: Global, value: &Value) -> Result<u32> {
        match value.as_u64() {
            Some(n) if n <= u64::from(u32::MAX) => Ok(n as u32),
            _ => Err(new_error(ErrorKind::Json)),
        }
    }

    ghost decided = { λ d m n p q. ap (option_map (λ z. number (of_integer z))) (sym p.1 ∙ q.1) };
}

/// Is read from a whole number in the type's range.
impl Claims for u64 {
    ghost reads = { IsUnsigned 64 };

    ghost written = { λ n. Some (number (unsigned n)) };

    fn to_value(&self, _alloc: Global) -> Result<Value>
        ensures ok { IfOk result (λ v. Some (number (unsigned self.now)) ≡ Some (view v)) }
        ensures reads_back { IfOk result (λ v. IsUnsigned 64 (view v) self.now) }
        ensures err { IfErr result (λ _. ⊥) }
    {
        Ok(Value::from(*self))
    }

    fn from_value(_alloc: Global, value: &Value) -> Result<u64> {
        match value.as_u64() {
            Some(n) => Ok(n),
            None => Err(new_error(ErrorKind::Json)),
        }
    }

    ghost decided = { λ d m n p q. ap (option_map (λ z. number (of_integer z))) (sym p.1 ∙ q.1) };
}

/// Is read from a whole number in the type's range.
impl Claims for i32 {
    ghost reads = { IsSigned w32 };

    ghost written = { λ z. Some (number (of_integer z)) };

    fn to_value(&self, _alloc: Global) -> Result<Value>
        ensures ok { IfOk result (λ v. Some (number (of_integer self.now)) ≡ Some (view v)) }
        ensures reads_back { IfOk result (λ v. IsSigned w32 (view v) self.now) }
        ensures err { IfErr result (λ _. ⊥) }
    {
        Ok(Value::from(*self))
    }

    fn from_value(_alloc: Global, value: &Value) -> Result<i32> {
        match value.as_i64() {
            Some(z) if -0x8000_0000 <= z && z <= 0x7fff_ffff => Ok(z as i32),
            _ => Err(new_error(ErrorKind::Json)),
        }
    }

    ghost decided = { λ d y z p q. ap (option_map (λ x. number (of_integer x))) (sym p.1 ∙ q.1) };
}

/// Is read from a whole number in the type's range.
impl Claims for i64 {
    ghost reads = { IsSigned w64 };

    ghost written = { λ z. Some (number (of_integer z)) };

    fn to_value(&self, _alloc: Global) -> Result<Value>
        ensures ok { IfOk result (λ v. Some (number (of_integer self.now)) ≡ Some (view v)) }
        ensures reads_back { IfOk result (λ v. IsSigned w64 (view v) self.now) }
        ensures err { IfErr result (λ _. ⊥) }
    {
        Ok(Value::from(*self))
    }

    fn from_value(_alloc: Global, value: &Value) -> Result<i64> {
        match value.as_i64() {
            Some(z) => Ok(z),
            None => Err(new_error(ErrorKind::Json)),
        }
    }

    ghost decided = { λ d y z p q. ap (option_map (λ x. number (of_integer x))) (sym p.1 ∙ q.1) };
}
