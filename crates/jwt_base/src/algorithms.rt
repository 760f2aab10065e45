//! The names of the algorithms, and the families that their keys belong to.

// Names are compared in the value as it stands, so `from_value` takes no allocator; likewise for
// curves and types of keys. The list that `AlgorithmFamily::algorithms` returns is a constant.

ghost use Rattle.std.specs.Prelude.{◌≡◌, Ok, Some, None, IfOk, IfErr};
ghost use Rattle.serde_json.specs.Data.{string};
ghost use Rattle.serde_json.specs.View.{view};
ghost use Rattle.jwt_base.specs.Kind as kind;
ghost use Rattle.jwt_base.specs.KindOf.{kind_of, IsMemory};
ghost use Rattle.jwt_base.specs.Algorithm.{name_of, family_of, algorithms_of, algorithm_named};
ghost use Rattle.jwt_base.specs.Algorithm.{family_name_of, family_named, algorithm_from};
ghost use Rattle.jwt_base.specs.Algorithm.{family_from, ReadsName, key_algorithm_of};
ghost use Rattle.jwt_base.specs.Algorithm.{ConvertsKeyAlgorithm, key_algorithm_named};
ghost use Rattle.jwt_base.specs.Algorithm.{key_algorithm_from, key_name_of, key_text_of};
ghost use Rattle.jwt_base.specs.declared.algorithms.Algorithm.TheVariants.{HS256};

use crate::errors::{Error, ErrorKind, Result, new_error};
use serde_json::Value;
use std::alloc::Global;
use std::fmt;
use std::str::FromStr;

/// A family of algorithms, whose keys are of one kind.
#[derive(Clone, Copy, Debug, PartialEq, Eq)]
pub enum AlgorithmFamily {
    /// HMAC: one secret signs and verifies.
    Hmac,
    /// RSA.
    Rsa,
    /// Elliptic curves.
    Ec,
    /// Edwards curves.
    Ed,
}

impl AlgorithmFamily {
    /// Returns the algorithms of the family.
    pub fn algorithms(&self) -> &'static [Algorithm]
        ensures { result.now ≡ algorithms_of self.now }
    {
        match self {
            AlgorithmFamily::Hmac => &[Algorithm::HS256, Algorithm::HS384, Algorithm::HS512],
            AlgorithmFamily::Rsa => &[
                Algorithm::RS256,
                Algorithm::RS384,
                Algorithm::RS512,
                Algorithm::PS256,
                Algorithm::PS384,
                Algorithm::PS512,
            ],
            AlgorithmFamily::Ec => &[Algorithm::ES256, Algorithm::ES384],
            AlgorithmFamily::Ed => &[Algorithm::EdDSA],
        }
    }

    /// Returns the name as a JSON string. The only refusal is `OutOfMemory`.
    pub fn to_value(&self, alloc: Global) -> Result<Value>
        ensures ok { IfOk result (λ v. view v ≡ string (family_name_of self.now)) }
        ensures reads_back { IfOk result (λ v. family_from (view v) ≡ Some self.now) }
        ensures err { IfErr result IsMemory }
    {
        Ok(Value::try_from_str(alloc, self.name())?)
    }

    /// Returns the family that a JSON string names. Any other value is refused with `Json`.
    pub fn from_value(value: &Value) -> Result<AlgorithmFamily>
        ensures ok { IfOk result (λ f. family_from (view value.now) ≡ Some f) }
        ensures err { IfErr result (λ e. (kind_of e ≡ kind.Json)
            × (family_from (view value.now) ≡ None)) }
    {
        match value.as_str().and_then(family_of_name) {
            Some(family) => Ok(family),
            None => Err(new_error(ErrorKind::Json)),
        }
    }

    // Returns the name in JSON.
    fn name(self) -> &'static str
        ensures { result.now ≡ family_name_of self }
    {
        match self {
            AlgorithmFamily::Hmac => "Hmac",
            AlgorithmFamily::Rsa => "Rsa",
            AlgorithmFamily::Ec => "Ec",
            AlgorithmFamily::Ed => "Ed",
        }
    }
}

/// An algorithm that signs tokens (RFC 7518 section 3.1, RFC 8037 section 3.1).
#[derive(Clone, Copy, Debug, PartialEq, Eq, Hash)]
pub enum Algorithm {
    /// HMAC with SHA-256.
    HS256,
    /// HMAC with SHA-384.
    HS384,
    /// HMAC with SHA-512.
    HS512,
    /// RSASSA-PKCS1-v1_5 with SHA-256.
    RS256,
    /// RSASSA-PKCS1-v1_5 with SHA-384.
    RS384,
    /// RSASSA-PKCS1-v1_5 with SHA-512.
    RS512,
    /// RSASSA-PSS with SHA-256.
    PS256,
    /// RSASSA-PSS with SHA-384.
    PS384,
    /// RSASSA-PSS with SHA-512.
    PS512,
    /// ECDSA over P-256 with SHA-256.
    ES256,
    /// ECDSA over P-384 with SHA-384.
    ES384,
    /// An Edwards curve signature.
    EdDSA,
}

impl Algorithm {
    /// Returns the name in JSON.
    pub fn name(self) -> &'static str
        ensures { result.now ≡ name_of self }
    {
        match self {
            Algorithm::HS256 => "HS256",
            Algorithm::HS384 => "HS384",
            Algorithm::HS512 => "HS512",
            Algorithm::RS256 => "RS256",
            Algorithm::RS384 => "RS384",
            Algorithm::RS512 => "RS512",
            Algorithm::PS256 => "PS256",
            Algorithm::PS384 => "PS384",
            Algorithm::PS512 => "PS512",
            Algorithm::ES256 => "ES256",
            Algorithm::ES384 => "ES384",
            Algorithm::EdDSA => "EdDSA",
        }
    }

    /// Returns the family of the algorithm's keys.
    pub fn family(self) -> AlgorithmFamily
        ensures { result ≡ family_of self }
    {
        match self {
            Algorithm::HS256 | Algorithm::HS384 | Algorithm::HS512 => AlgorithmFamily::Hmac,
            Algorithm::RS256
            | Algorithm::RS384
            | Algorithm::RS512
            | Algorithm::PS256
            | Algorithm::PS384
            | Algorithm::PS512 => AlgorithmFamily::Rsa,
            Algorithm::ES256 | Algorithm::ES384 => AlgorithmFamily::Ec,
            Algorithm::EdDSA => AlgorithmFamily::Ed,
        }
    }

    /// Returns the name as a JSON string. The only refusal is `OutOfMemory`.
    pub fn to_value(&self, alloc: Global) -> Result<Value>
        ensures ok { IfOk result (λ v. view v ≡ string (name_of self.now)) }
        ensures reads_back { IfOk result (λ v. algorithm_from (view v) ≡ Some self.now) }
        ensures err { IfErr result IsMemory }
    {
        Ok(Value::try_from_str(alloc, self.name())?)
    }

    /// Returns the algorithm that a JSON string names. Any other value is refused with `Json`.
    pub fn from_value(value: &Value) -> Result<Algorithm>
        ensures ok { IfOk result (λ a. algorithm_from (view value.now) ≡ Some a) }
        ensures err { IfErr result (λ e. (kind_of e ≡ kind.Json)
            × (algorithm_from (view value.now) ≡ None)) }
    {
        match value.as_str().and_then(algorithm_of_name) {
            Some(algorithm) => Ok(algorithm),
            None => Err(new_error(ErrorKind::Json)),
        }
    }
}

impl Default for Algorithm {
    ghost is_default = { λ a. a ≡ HS256 };

    fn default() -> Algorithm {
        Algorithm::HS256
    }
}

/// Parses the name in JSON. Any other string is refused with `InvalidAlgorithmName`.
impl FromStr for Algorithm {
    type Err = Error;

    ghost from_str_gives = { ReadsName algorithm_named };

    fn from_str(name: &str) -> Result<Algorithm> {
        match algorithm_of_name(name) {
            Some(algorithm) => Ok(algorithm),
            None => Err(new_error(ErrorKind::InvalidAlgorithmName)),
        }
    }
}

/// The algorithm that a JSON Web Key names (RFC 7517 section 4.4): one that signs, one that
/// encrypts keys, or a name that is not known here.
#[derive(Clone, Copy, Debug, PartialEq, Eq, Hash)]
pub enum KeyAlgorithm {
    /// HMAC with SHA-256.
    HS256,
    /// HMAC with SHA-384.
    HS384,
    /// HMAC with SHA-512.
    HS512,
    /// RSASSA-PKCS1-v1_5 with SHA-256.
    RS256,
    /// RSASSA-PKCS1-v1_5 with SHA-384.
    RS384,
    /// RSASSA-PKCS1-v1_5 with SHA-512.
    RS512,
    /// RSASSA-PSS with SHA-256.
    PS256,
    /// RSASSA-PSS with SHA-384.
    PS384,
    /// RSASSA-PSS with SHA-512.
    PS512,
    /// ECDSA over P-256 with SHA-256.
    ES256,
    /// ECDSA over P-384 with SHA-384.
    ES384,
    /// An Edwards curve signature.
    EdDSA,
    /// RSAES-PKCS1-v1_5.
    RSA1_5,
    /// RSAES OAEP with SHA-1.
    RSA_OAEP,
    /// RSAES OAEP with SHA-256.
    RSA_OAEP_256,
    /// Any other name.
    UNKNOWN_ALGORITHM,
}

impl KeyAlgorithm {
    /// Returns the name in JSON.
    pub fn name(self) -> &'static str
        ensures { result.now ≡ key_name_of self }
    {
        match self {
            KeyAlgorithm::HS256 => "HS256",
            KeyAlgorithm::HS384 => "HS384",
            KeyAlgorithm::HS512 => "HS512",
            KeyAlgorithm::RS256 => "RS256",
            KeyAlgorithm::RS384 => "RS384",
            KeyAlgorithm::RS512 => "RS512",
            KeyAlgorithm::PS256 => "PS256",
            KeyAlgorithm::PS384 => "PS384",
            KeyAlgorithm::PS512 => "PS512",
            KeyAlgorithm::ES256 => "ES256",
            KeyAlgorithm::ES384 => "ES384",
            KeyAlgorithm::EdDSA => "EdDSA",
            KeyAlgorithm::RSA1_5 => "RSA1_5",
            KeyAlgorithm::RSA_OAEP => "RSA-OAEP",
            KeyAlgorithm::RSA_OAEP_256 => "RSA-OAEP-256",
            KeyAlgorithm::UNKNOWN_ALGORITHM => "UNKNOWN_ALGORITHM",
        }
    }

    /// Returns the name as a JSON string. The only refusal is `OutOfMemory`.
    pub fn to_value(&self, alloc: Global) -> Result<Value>
        ensures ok { IfOk result (λ v. view v ≡ string (key_name_of self.now)) }
        ensures reads_back { IfOk result (λ v. key_algorithm_from (view v) ≡ Some self.now) }
        ensures err { IfErr result IsMemory }
    {
        Ok(Value::try_from_str(alloc, self.name())?)
    }

    /// Returns the algorithm that a JSON string names: `UNKNOWN_ALGORITHM` for any name but the
    /// fifteen known ones. A value that is not a string is refused with `Json`. Allocates no
    /// memory.
    pub fn from_value(value: &Value) -> Result<KeyAlgorithm>
        ensures ok { IfOk result (λ a. key_algorithm_from (view value.now) ≡ Some a) }
        ensures err { IfErr result (λ e. (kind_of e ≡ kind.Json)
            × (key_algorithm_from (view value.now) ≡ None)) }
    {
        let Some(name) = value.as_str() else {
            return Err(new_error(ErrorKind::Json));
        };
        match key_algorithm_of_name(name) {
            Some(algorithm) => Ok(algorithm),
            None => Ok(KeyAlgorithm::UNKNOWN_ALGORITHM),
        }
    }
}

/// Converts an algorithm to that of the keys that sign by it.
impl From<Algorithm> for KeyAlgorithm {
    ghost from_gives = { λ a k. k ≡ key_algorithm_of a };

    fn from(algorithm: Algorithm) -> KeyAlgorithm {
        match algorithm {
            Algorithm::HS256 => KeyAlgorithm::HS256,
            Algorithm::HS384 => KeyAlgorithm::HS384,
            Algorithm::HS512 => KeyAlgorithm::HS512,
            Algorithm::RS256 => KeyAlgorithm::RS256,
            Algorithm::RS384 => KeyAlgorithm::RS384,
            Algorithm::RS512 => KeyAlgorithm::RS512,
            Algorithm::PS256 => KeyAlgorithm::PS256,
            Algorithm::PS384 => KeyAlgorithm::PS384,
            Algorithm::PS512 => KeyAlgorithm::PS512,
            Algorithm::ES256 => KeyAlgorithm::ES256,
            Algorithm::ES384 => KeyAlgorithm::ES384,
            Algorithm::EdDSA => KeyAlgorithm::EdDSA,
        }
    }
}

/// Converts the algorithm of a key to the one that it signs by. The four that sign nothing are
/// refused with `UnsupportedAlgorithm`.
impl TryFrom<KeyAlgorithm> for Algorithm {
    type Error = Error;

    ghost try_from_gives = { ConvertsKeyAlgorithm };

    fn try_from(algorithm: KeyAlgorithm) -> Result<Algorithm>
        ensures converts { ConvertsKeyAlgorithm algorithm result }

        // The key algorithm of a signing algorithm converts back to it.
        ensures back { (a : Algorithm) → algorithm ≡ key_algorithm_of a → result ≡ Ok a }
    {
        match algorithm {
            KeyAlgorithm::HS256 => Ok(Algorithm::HS256),
            KeyAlgorithm::HS384 => Ok(Algorithm::HS384),
            KeyAlgorithm::HS512 => Ok(Algorithm::HS512),
            KeyAlgorithm::RS256 => Ok(Algorithm::RS256),
            KeyAlgorithm::RS384 => Ok(Algorithm::RS384),
            KeyAlgorithm::RS512 => Ok(Algorithm::RS512),
            KeyAlgorithm::PS256 => Ok(Algorithm::PS256),
            KeyAlgorithm::PS384 => Ok(Algorithm::PS384),
            KeyAlgorithm::PS512 => Ok(Algorithm::PS512),
            KeyAlgorithm::ES256 => Ok(Algorithm::ES256),
            KeyAlgorithm::ES384 => Ok(Algorithm::ES384),
            KeyAlgorithm::EdDSA => Ok(Algorithm::EdDSA),
            KeyAlgorithm::RSA1_5
            | KeyAlgorithm::RSA_OAEP
            | KeyAlgorithm::RSA_OAEP_256
            | KeyAlgorithm::UNKNOWN_ALGORITHM => Err(new_error(ErrorKind::UnsupportedAlgorithm)),
        }
    }
}

/// Parses the name in JSON. Any other string, including `UNKNOWN_ALGORITHM`, is refused with
/// `InvalidAlgorithmName`.
impl FromStr for KeyAlgorithm {
    type Err = Error;

    ghost from_str_gives = { ReadsName key_algorithm_named };

    fn from_str(name: &str) -> Result<KeyAlgorithm> {
        match key_algorithm_of_name(name) {
            Some(algorithm) => Ok(algorithm),
            None => Err(new_error(ErrorKind::InvalidAlgorithmName)),
        }
    }
}

impl KeyAlgorithm {
    ghost use Rattle.jwt_base.specs.Algorithm.{key_text_of};

    // Returns the name of the variant, which is displayed.
    fn variant(self) -> &'static str
        ensures { result.now ≡ key_text_of self }
    {
        match self {
            KeyAlgorithm::RSA_OAEP => "RSA_OAEP",
            KeyAlgorithm::RSA_OAEP_256 => "RSA_OAEP_256",
            _ => self.name(),
        }
    }
}

impl fmt::Display for KeyAlgorithm {
    ghost use Rattle.std.specs.Prelude.{Some};
    ghost use Rattle.jwt_base.specs.Algorithm.{key_text_of};

    ghost output = { λ k. Some (key_text_of k) };

    fn fmt<W: fmt::Write>(&self, f: &mut fmt::Formatter<W>) -> fmt::Result {
        write!(f, "{}", self.variant())
    }
}

fn family_of_name(name: &str) -> Option<AlgorithmFamily>
    ensures { result ≡ family_named name.now }
{
    match name {
        "Hmac" => Some(AlgorithmFamily::Hmac),
        "Rsa" => Some(AlgorithmFamily::Rsa),
        "Ec" => Some(AlgorithmFamily::Ec),
        "Ed" => Some(AlgorithmFamily::Ed),
        _ => None,
    }
}

fn algorithm_of_name(name: &str) -> Option<Algorithm>
    ensures { result ≡ algorithm_named name.now }
{
    match name {
        "HS256" => Some(Algorithm::HS256),
        "HS384" => Some(Algorithm::HS384),
        "HS512" => Some(Algorithm::HS512),
        "RS256" => Some(Algorithm::RS256),
        "RS384" => Some(Algorithm::RS384),
        "RS512" => Some(Algorithm::RS512),
        "PS256" => Some(Algorithm::PS256),
        "PS384" => Some(Algorithm::PS384),
        "PS512" => Some(Algorithm::PS512),
        "ES256" => Some(Algorithm::ES256),
        "ES384" => Some(Algorithm::ES384),
        "EdDSA" => Some(Algorithm::EdDSA),
        _ => None,
    }
}

fn key_algorithm_of_name(name: &str) -> Option<KeyAlgorithm>
    ensures { result ≡ key_algorithm_named name.now }
{
    match name {
        "HS256" => Some(KeyAlgorithm::HS256),
        "HS384" => Some(KeyAlgorithm::HS384),
        "HS512" => Some(KeyAlgorithm::HS512),
        "RS256" => Some(KeyAlgorithm::RS256),
        "RS384" => Some(KeyAlgorithm::RS384),
        "RS512" => Some(KeyAlgorithm::RS512),
        "PS256" => Some(KeyAlgorithm::PS256),
        "PS384" => Some(KeyAlgorithm::PS384),
        "PS512" => Some(KeyAlgorithm::PS512),
        "ES256" => Some(KeyAlgorithm::ES256),
        "ES384" => Some(KeyAlgorithm::ES384),
        "EdDSA" => Some(KeyAlgorithm::EdDSA),
        "RSA1_5" => Some(KeyAlgorithm::RSA1_5),
        "RSA-OAEP" => Some(KeyAlgorithm::RSA_OAEP),
        "RSA-OAEP-256" => Some(KeyAlgorithm::RSA_OAEP_256),
        _ => None,
    }
}
