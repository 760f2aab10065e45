//! A JSON Web Key.

// `from_slice` reads a text in one call: a caller with a file would otherwise write the pair of
// calls, and prove that a text which is no JSON reads as nothing (`ReadsText`).

ghost use Rattle.std.specs.Prelude.{◌≡◌, ◌↔◌, ◌⊎◌, IsTrue, List, ℕ, Ok, Some, None, false, IfOk};
ghost use Rattle.std.specs.Prelude.{IfErr, string_bytes, bytes_eq};
ghost use Rattle.serde_json.specs.View.{view, members_view};
ghost use Rattle.serde_json.specs.Written.{has_float};
ghost use Rattle.jwt_base.specs.JsonText.{ReadsText};
ghost use Rattle.jwt_base.specs.Kind as kind;
ghost use Rattle.jwt_base.specs.KindOf.{IsMemory, RefusesAs};
ghost use Rattle.jwt_base.specs.Base64Url.{IsPart};
ghost use Rattle.jwt_keys.specs.Jwk.{ReadsKey, own_parameters_from, key_members, key_value};
ghost use Rattle.jwt_keys.specs.Jwk.{is_supported_key, has_id};
ghost use Rattle.jwt_base.specs.Written.{HasText};
ghost use Rattle.jwt_keys.specs.JwkWritten.{normal_key, IsNormal, HasNormalForm};
ghost use Rattle.jwt_keys.specs.JwkOfKey.{jwk_of_key, jwk_of_secret_key, IsRsaInDer, StandsFor};
ghost use Rattle.jwt_keys.specs.Provider.{RefusesWith};
ghost use Rattle.jwt_keys.specs.Thumbprint.{thumb_text, digested, TextFixesMembers};

use crate::decoding_key::DecodingKey;
use crate::encoding_key::EncodingKey;
use crate::jwk_of_key::{common_with, public_parameters, secret_parameters};
use crate::provider::CryptoProvider;
use crate::thumbprint::digest_part;
use jwt_base::algorithms::Algorithm;
use jwt_base::cloning::CloneIn;
use jwt_base::errors::{ErrorKind, Result, new_error};
use jwt_base::json::value_text;
use jwt_base::serialization::json_value;
use jwt_params::common::CommonParameters;
use jwt_params::free_members::FreeMembers;
use jwt_params::other::OtherKeyParameters;
use jwt_params::parameters::AlgorithmParameters;
use jwt_params::thumbprints::ThumbprintHash;
use serde_json::{Map, Value};
use std::alloc::Global;
use std::hash::{Hash, Hasher};

/// A JSON Web Key (RFC 7517 section 4).
#[derive(Debug, Drop)]
pub struct Jwk {
    /// The parameters that keys of every type may have (section 4).
    pub common: CommonParameters,
    /// The type of the key with its own parameters (RFC 7518 section 6).
    pub algorithm: AlgorithmParameters,
}

impl Jwk {
    ghost use Rattle.jwt_keys.specs.declared.jwk.Jwk.{Jwk};

    /// Returns the key that a JSON object describes (RFC 7517 section 4). The type is the first of
    /// the five whose parameters are among the members that are not common to all keys; the first
    /// four ignore further members, and `Other` keeps all that are not common. A value that is not
    /// an object, a common member of a wrong type and a float that `Other` would keep are refused
    /// with `Json`.
    pub fn from_value(alloc: Global, value: &Value) -> Result<Jwk>
        ensures ok { IfOk result (ReadsKey (view value.now)) }
        ensures normal { IfOk result IsNormal }
        ensures err { IfErr result (RefusesAs kind.Json
            ((k : Jwk) → ¬ ReadsKey (view value.now) k)) }
    {
        Jwk::read(alloc, value)
    }

    /// Returns the key that a JSON text describes, as [`from_value`](Jwk::from_value) reads it.
    /// Bytes that are not JSON, or that nest deeper than 127 levels, are refused with `Json` too.
    pub fn from_slice(alloc: Global, text: &[u8]) -> Result<Jwk>
        ensures ok { IfOk result (ReadsText ReadsKey text.now) }
        ensures normal { IfOk result IsNormal }
        ensures err { IfErr result (RefusesAs kind.Json
            ((k : Jwk) → ¬ ReadsText ReadsKey text.now k)) }
    {
        let value = json_value(alloc, text)?;
        Jwk::from_value(alloc, &value)
    }

    /// Returns the JSON object of the parameters that are present (RFC 7517 section 4). An `Other`
    /// that holds a member that is common to all keys, or a float, is refused with `Json`.
    pub fn to_value(&self, alloc: Global) -> Result<Value>
        ensures ok { IfOk result (λ v. key_value self.now ≡ Some (view v)) }
        ensures no_float { IfOk result (λ v. has_float (view v) ≡ false) }
        ensures err { IfErr result (RefusesAs kind.Json (key_value self.now ≡ None)) }
        ensures normal_form { HasNormalForm self.now }
    {
        let members = self.members(alloc)?;
        Ok(Value::Object(members))
    }

    /// Returns the compact JSON text of the key, as [`to_value`](Jwk::to_value) writes it and with
    /// its refusals.
    pub fn to_text(&self, alloc: Global) -> Result<Vec<u8>>
        ensures ok { IfOk result (λ text. HasText ReadsKey key_value normal_key self.now
            text.items) }
        ensures err { IfErr result (RefusesAs kind.Json (key_value self.now ≡ None)) }
    {
        let value = self.to_value(alloc)?;
        value_text(alloc, &value)
    }

    /// Returns whether `alg` (RFC 7517 section 4.4) is present and is an algorithm that signs
    /// tokens. Allocates no memory.
    pub fn is_supported(&self) -> bool
        ensures { result ≡ is_supported_key self.now }
    {
        self.common
            .key_algorithm
            .is_some_and(|algorithm| Algorithm::try_from(algorithm).is_ok())
    }

    /// Returns a copy. The only refusal is `OutOfMemory`.
    pub fn clone(&self, alloc: Global) -> Result<Jwk>
        ensures ok { IfOk result (λ k. k ≡ self.now) }
        ensures err { IfErr result IsMemory }
    {
        Ok(Jwk {
            common: self.common.clone(alloc)?,
            algorithm: self.algorithm.clone(alloc)?,
        })
    }

    pub(crate) fn has_id(&self, kid: &str) -> bool
        ensures { result ≡ has_id kid.now self.now }
    {
        match &self.common.key_id {
            Some(id) => is_same_id(id.as_str(), kid),
            None => false,
        }
    }

    /// Returns the JSON Web Key of a signing key, for this algorithm, which is not compared
    /// with the key's family. A secret becomes an `OctetKey` that holds it; of a private key in DER
    /// the provider reads the public part. An Edwards curve key whose length is not 48 bytes is
    /// refused with `InvalidEddsaKey`; every other refusal but `OutOfMemory` is the provider's.
    pub fn from_encoding_key<P: CryptoProvider>(
        alloc: Global,
        provider: &P,
        key: &EncodingKey,
        algorithm: Algorithm,
    ) -> Result<Jwk>
        ensures ok { IfOk result (λ k. jwk_of_secret_key
            (P.key_answers provider.now) algorithm key.now ≡ Ok k) }
        ensures err { IfErr result (RefusesWith
            (jwk_of_secret_key (P.key_answers provider.now) algorithm key.now)) }
    {
        let parameters = secret_parameters(alloc, provider, key, algorithm)?;
        Ok(Jwk {
            common: common_with(Some(algorithm)),
            algorithm: parameters,
        })
    }

    /// Returns the JSON Web Key of a verification key, for this algorithm if one is given. A
    /// secret becomes an `OctetKey` that holds it; of an RSA key in DER the provider reads modulus
    /// and exponent. The length tells the curve: 65 bytes for P-256, 97 for P-384. Any other length
    /// and a first byte other than 4 are refused with `InvalidEcdsaKey`. An Edwards curve key whose
    /// length is not 32 bytes is refused with `InvalidEddsaKey`. `from_jwk` returns the same key,
    /// except for an RSA key in DER.
    pub fn from_decoding_key<P: CryptoProvider>(
        alloc: Global,
        provider: &P,
        key: &DecodingKey,
        algorithm: Option<Algorithm>,
    ) -> Result<Jwk>
        ensures ok { IfOk result (λ k. jwk_of_key (P.key_answers provider.now) algorithm key.now
            ≡ Ok k) }
        ensures err { IfErr result (RefusesWith
            (jwk_of_key (P.key_answers provider.now) algorithm key.now)) }
        ensures way_back { IfOk result (λ k. IsRsaInDer key.now ⊎ StandsFor k.algorithm key.now) }
    {
        let parameters = public_parameters(alloc, provider, key)?;
        Ok(Jwk {
            common: common_with(algorithm),
            algorithm: parameters,
        })
    }

    /// Returns the thumbprint (RFC 7638): the base64url text of the digest of the JSON text of the
    /// members that a key of its type must have. A point on Ed25519 and a pair of octet strings on
    /// another curve are refused with `InvalidKeyFormat`, and an `Other` with
    /// `UnsupportedAlgorithm`; every later refusal but `OutOfMemory` is the provider's.
    pub fn thumbprint<P: CryptoProvider>(
        &self,
        alloc: Global,
        provider: &P,
        hash: ThumbprintHash,
    ) -> Result<String>
        ensures ok { IfOk result (λ t. (d : List ℕ)
            × ((digested ((P.key_answers provider.now).digest hash) (thumb_text self.now) ≡ Ok d)
            × IsPart (string_bytes t) d)) }
        ensures err { IfErr result (RefusesWith
            (digested ((P.key_answers provider.now).digest hash) (thumb_text self.now))) }
        ensures told_apart { TextFixesMembers self.now }
    {
        digest_part(alloc, provider, hash, self)
    }

    fn read(alloc: Global, value: &Value) -> Result<Jwk>
        ensures ok { IfOk result (ReadsKey (view value.now)) }
        ensures err { IfErr result (RefusesAs kind.Json
            ((k : Jwk) → ¬ ReadsKey (view value.now) k)) }
    {
        Ok(Jwk {
            common: CommonParameters::from_value(alloc, value)?,
            algorithm: read_parameters(alloc, value)?,
        })
    }

    fn members(&self, alloc: Global) -> Result<Map<String, Value>>
        ensures ok { IfOk result (λ m. key_members self.now ≡ Some (members_view m.entries)) }
        ensures err { IfErr result (RefusesAs kind.Json (key_members self.now ≡ None)) }
    {
        if self.algorithm.has_common_name() {
            return Err(new_error(ErrorKind::Json));
        }
        let members = self.algorithm.members(alloc)?;
        self.common.with_members(alloc, members)
    }
}

impl CloneIn for Jwk {
    fn clone_in(&self, alloc: Global) -> Result<Jwk> {
        self.clone(alloc)
    }
}

/// Compares the parameters. Any two floats count as equal.
impl PartialEq for Jwk {
    ghost use Rattle.std.specs.Cmp.{partial_equiv_from_equiv};
    ghost use Rattle.jwt_keys.specs.Jwk.{marked_key};
    ghost use Rattle.jwt_keys.specs.equality.JwkSame.{key_eq, key_eq_equiv};

    ghost eq = { key_eq };

    ghost laws = { partial_equiv_from_equiv key_eq_equiv };

    fn eq(&self, other: &Jwk) -> bool
        ensures test { result ≡ key_eq self.now other.now }
        ensures same { IsTrue result ↔ (marked_key self.now ≡ marked_key other.now) }
    {
        self.is_same(other)
    }
}

impl Eq for Jwk {
    ghost use Rattle.jwt_keys.specs.equality.JwkSame.{key_eq_equiv};

    ghost laws = { key_eq_equiv };
}

impl Jwk {
    ghost use Rattle.jwt_keys.specs.equality.JwkSame.{key_eq};

    // apart from `eq`, whose contract has two clauses over what this one finds
    fn is_same(&self, other: &Jwk) -> bool
        ensures { result ≡ key_eq self.now other.now }
    {
        self.common == other.common && self.algorithm == other.algorithm
    }
}

/// Feeds the parameters, and of free members their names alone.
impl Hash for Jwk {
    ghost use Rattle.jwt_keys.specs.equality.JwkSame.{key_fed, key_alike};

    ghost hash_input = { key_fed };

    ghost respects_eq = { key_alike.fed };

    fn hash<H: Hasher>(&self, state: &mut H) {
        self.common.hash(state);
        self.algorithm.hash(state);
    }
}

/// Returns whether the ids are the same. The ids of a set differ mostly in the last byte, which is
/// compared first, without a call.
fn is_same_id(id: &str, kid: &str) -> bool
    ensures { result ≡ bytes_eq id.now kid.now }
{
    let (bytes, wanted) = (id.as_bytes(), kid.as_bytes());
    let count = bytes.len();
    if count != wanted.len() {
        return false;
    }
    if count > 0 && bytes[count - 1] != wanted[count - 1] {
        return false;
    }
    id == kid
}

// Returns the parameters among the members that are not common to all keys.
fn read_parameters(alloc: Global, value: &Value) -> Result<AlgorithmParameters>
    ensures ok { IfOk result (λ a. own_parameters_from (view value.now) ≡ Some a) }
    ensures err { IfErr result (RefusesAs kind.Json (own_parameters_from (view value.now) ≡ None)) }
{
    let Some(members) = value.as_object() else {
        return Err(new_error(ErrorKind::Json));
    };
    if let Some(named) = AlgorithmParameters::from_known_type(alloc, value)? {
        return Ok(named);
    }
    let fields = FreeMembers::among(alloc, members)?;
    Ok(AlgorithmParameters::Other(OtherKeyParameters { fields }))
}
