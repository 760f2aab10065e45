//! The types of keys.

ghost use Rattle.std.specs.Prelude.{◌≡◌, None, Some, IfOk, IfErr};
ghost use Rattle.serde_json.specs.Data.{string};
ghost use Rattle.serde_json.specs.View.{view};
ghost use Rattle.jwt_base.specs.Kind as kind;
ghost use Rattle.jwt_base.specs.KindOf.{kind_of, IsMemory};
ghost use Rattle.jwt_params.specs.KeyType as types;

use jwt_base::errors::{ErrorKind, Result, new_error};
use serde_json::Value;
use std::alloc::Global;

/// The type of a key on an elliptic curve, `EC` (RFC 7518 section 6.1).
#[derive(Clone, Copy, Debug, PartialEq, Eq, Hash)]
pub enum EllipticCurveKeyType {
    /// `EC`.
    EC,
}

impl EllipticCurveKeyType {
    /// Returns the name in JSON.
    pub fn name(self) -> &'static str
        ensures { result.now ≡ types.elliptic_type_name self }
    {
        match self {
            EllipticCurveKeyType::EC => "EC",
        }
    }

    /// Returns the name as a JSON string. The only refusal is `OutOfMemory`.
    pub fn to_value(&self, alloc: Global) -> Result<Value>
        ensures ok { IfOk result (λ v. view v ≡ string (types.elliptic_type_name self.now)) }
        ensures reads_back { IfOk result (λ v. types.elliptic_type_from (view v) ≡ Some self.now) }
        ensures err { IfErr result IsMemory }
    {
        Ok(Value::try_from_str(alloc, self.name())?)
    }

    /// Returns the type that a JSON string names. Any value but the string `EC` is refused with
    /// `Json`. Allocates no memory.
    pub fn from_value(value: &Value) -> Result<EllipticCurveKeyType>
        ensures ok { IfOk result (λ t. types.elliptic_type_from (view value.now) ≡ Some t) }
        ensures err { IfErr result (λ e. (kind_of e ≡ kind.Json)
            × (types.elliptic_type_from (view value.now) ≡ None)) }
    {
        match value.as_str().and_then(elliptic_type_of_name) {
            Some(key_type) => Ok(key_type),
            None => Err(new_error(ErrorKind::Json)),
        }
    }
}

impl Default for EllipticCurveKeyType {
    ghost use Rattle.jwt_params.specs.declared.key_types.EllipticCurveKeyType.TheVariants.{EC};

    ghost is_default = { λ t. t ≡ EC };

    fn default() -> EllipticCurveKeyType {
        EllipticCurveKeyType::EC
    }
}

/// The type of an RSA key, `RSA` (RFC 7518 section 6.1).
#[derive(Clone, Copy, Debug, PartialEq, Eq, Hash)]
pub enum RSAKeyType {
    /// `RSA`.
    RSA,
}

impl RSAKeyType {
    /// Returns the name in JSON.
    pub fn name(self) -> &'static str
        ensures { result.now ≡ types.rsa_type_name self }
    {
        match self {
            RSAKeyType::RSA => "RSA",
        }
    }

    /// Returns the name as a JSON string. The only refusal is `OutOfMemory`.
    pub fn to_value(&self, alloc: Global) -> Result<Value>
        ensures ok { IfOk result (λ v. view v ≡ string (types.rsa_type_name self.now)) }
        ensures reads_back { IfOk result (λ v. types.rsa_type_from (view v) ≡ Some self.now) }
        ensures err { IfErr result IsMemory }
    {
        Ok(Value::try_from_str(alloc, self.name())?)
    }

    /// Returns the type that a JSON string names. Any value but the string `RSA` is refused with
    /// `Json`. Allocates no memory.
    pub fn from_value(value: &Value) -> Result<RSAKeyType>
        ensures ok { IfOk result (λ t. types.rsa_type_from (view value.now) ≡ Some t) }
        ensures err { IfErr result (λ e. (kind_of e ≡ kind.Json)
            × (types.rsa_type_from (view value.now) ≡ None)) }
    {
        match value.as_str().and_then(rsa_type_of_name) {
            Some(key_type) => Ok(key_type),
            None => Err(new_error(ErrorKind::Json)),
        }
    }
}

impl Default for RSAKeyType {
    ghost use Rattle.jwt_params.specs.declared.key_types.RSAKeyType.TheVariants.{RSA};

    ghost is_default = { λ t. t ≡ RSA };

    fn default() -> RSAKeyType {
        RSAKeyType::RSA
    }
}

/// The type of a secret, a sequence of octets, `oct` (RFC 7518 section 6.1).
#[derive(Clone, Copy, Debug, PartialEq, Eq, Hash)]
pub enum OctetKeyType {
    /// `oct`.
    Octet,
}

impl OctetKeyType {
    /// Returns the name in JSON.
    pub fn name(self) -> &'static str
        ensures { result.now ≡ types.octet_type_name self }
    {
        match self {
            OctetKeyType::Octet => "oct",
        }
    }

    /// Returns the name as a JSON string. The only refusal is `OutOfMemory`.
    pub fn to_value(&self, alloc: Global) -> Result<Value>
        ensures ok { IfOk result (λ v. view v ≡ string (types.octet_type_name self.now)) }
        ensures reads_back { IfOk result (λ v. types.octet_type_from (view v) ≡ Some self.now) }
        ensures err { IfErr result IsMemory }
    {
        Ok(Value::try_from_str(alloc, self.name())?)
    }

    /// Returns the type that a JSON string names. Any value but the string `oct` is refused with
    /// `Json`. Allocates no memory.
    pub fn from_value(value: &Value) -> Result<OctetKeyType>
        ensures ok { IfOk result (λ t. types.octet_type_from (view value.now) ≡ Some t) }
        ensures err { IfErr result (λ e. (kind_of e ≡ kind.Json)
            × (types.octet_type_from (view value.now) ≡ None)) }
    {
        match value.as_str().and_then(octet_type_of_name) {
            Some(key_type) => Ok(key_type),
            None => Err(new_error(ErrorKind::Json)),
        }
    }
}

impl Default for OctetKeyType {
    ghost use Rattle.jwt_params.specs.declared.key_types.OctetKeyType.TheVariants.{Octet};

    ghost is_default = { λ t. t ≡ Octet };

    fn default() -> OctetKeyType {
        OctetKeyType::Octet
    }
}

/// The type of a pair of octet strings, `OKP` (RFC 8037 section 2).
#[derive(Clone, Copy, Debug, PartialEq, Eq, Hash)]
pub enum OctetKeyPairType {
    /// `OKP`.
    OctetKeyPair,
}

impl OctetKeyPairType {
    /// Returns the name in JSON.
    pub fn name(self) -> &'static str
        ensures { result.now ≡ types.octet_pair_type_name self }
    {
        match self {
            OctetKeyPairType::OctetKeyPair => "OKP",
        }
    }

    /// Returns the name as a JSON string. The only refusal is `OutOfMemory`.
    pub fn to_value(&self, alloc: Global) -> Result<Value>
        ensures ok { IfOk result (λ v. view v ≡ string (types.octet_pair_type_name self.now)) }
        ensures reads_back { IfOk result (λ v. types.octet_pair_type_from (view v)
            ≡ Some self.now) }
        ensures err { IfErr result IsMemory }
    {
        Ok(Value::try_from_str(alloc, self.name())?)
    }

    /// Returns the type that a JSON string names. Any value but the string `OKP` is refused with
    /// `Json`. Allocates no memory.
    pub fn from_value(value: &Value) -> Result<OctetKeyPairType>
        ensures ok { IfOk result (λ t. types.octet_pair_type_from (view value.now) ≡ Some t) }
        ensures err { IfErr result (λ e. (kind_of e ≡ kind.Json)
            × (types.octet_pair_type_from (view value.now) ≡ None)) }
    {
        match value.as_str().and_then(octet_pair_type_of_name) {
            Some(key_type) => Ok(key_type),
            None => Err(new_error(ErrorKind::Json)),
        }
    }
}

impl Default for OctetKeyPairType {
    ghost use Rattle.jwt_params.specs.declared.key_types.OctetKeyPairType.TheVariants.{OctetKeyPair};

    ghost is_default = { λ t. t ≡ OctetKeyPair };

    fn default() -> OctetKeyPairType {
        OctetKeyPairType::OctetKeyPair
    }
}

fn elliptic_type_of_name(name: &str) -> Option<EllipticCurveKeyType>
    ensures { result ≡ types.elliptic_type_named name.now }
{
    match name {
        "EC" => Some(EllipticCurveKeyType::EC),
        _ => None,
    }
}

fn rsa_type_of_name(name: &str) -> Option<RSAKeyType>
    ensures { result ≡ types.rsa_type_named name.now }
{
    match name {
        "RSA" => Some(RSAKeyType::RSA),
        _ => None,
    }
}

fn octet_type_of_name(name: &str) -> Option<OctetKeyType>
    ensures { result ≡ types.octet_type_named name.now }
{
    match name {
        "oct" => Some(OctetKeyType::Octet),
        _ => None,
    }
}

fn octet_pair_type_of_name(name: &str) -> Option<OctetKeyPairType>
    ensures { result ≡ types.octet_pair_type_named name.now }
{
    match name {
        "OKP" => Some(OctetKeyPairType::OctetKeyPair),
        _ => None,
    }
}
