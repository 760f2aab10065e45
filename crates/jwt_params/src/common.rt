//! The parameters that keys of every type may have.

// A list of names is a function (`common_names`, `header_names`) and no constant, so that its
// clause says that it is the list of the definition.

ghost use Rattle.std.specs.Prelude.{◌≡◌, ◌↔◌, IsTrue, Some, None, IfOk, IfErr, OnOk, option_map};
ghost use Rattle.std.specs.Prelude.{map, codes};
ghost use Rattle.serde_json.specs.Find.{get};
ghost use Rattle.serde_json.specs.View.{view, members_view};
ghost use Rattle.jwt_base.specs.Algorithm.{key_algorithm_from};
ghost use Rattle.jwt_base.specs.Kind as kind;
ghost use Rattle.jwt_base.specs.KindOf.{IsMemory, RefusesAs};
ghost use Rattle.jwt_base.specs.Members.{optional, put_some};
ghost use Rattle.jwt_params.specs.Common.{common_names, key_algorithm_value};
ghost use Rattle.jwt_params.specs.Operation.{operations_from, operations_value};
ghost use Rattle.jwt_params.specs.Use.{use_from, use_value};

use crate::operations::KeyOperationList;
use crate::uses::PublicKeyUse;
use jwt_base::algorithms::KeyAlgorithm;
use jwt_base::cloning::clone_option;
use jwt_base::errors::{ErrorKind, Result, new_error};
use jwt_base::json::members::{
    optional_text, optional_texts, present, put_optional_text, put_optional_texts, put_text,
};
use jwt_base::text::{Text, Texts};
use serde_json::{Map, Value};
use std::alloc::Global;
use std::hash::{Hash, Hasher};

/// The parameters that keys of every type may have (RFC 7517 section 4).
#[derive(Debug, Drop)]
pub struct CommonParameters {
    /// The use of a public key, `use` (section 4.2).
    pub public_key_use: Option<PublicKeyUse>,
    /// The operations that the key may be used for, `key_ops` (section 4.3).
    pub key_operations: Option<KeyOperationList>,
    /// The algorithm that the key is for, `alg` (section 4.4).
    pub key_algorithm: Option<KeyAlgorithm>,
    /// The name of the key, `kid` (section 4.5).
    pub key_id: Option<Text>,
    /// The URL of the certificates, `x5u` (section 4.6).
    pub x509_url: Option<Text>,
    /// The key's certificate and those that certify it, each in standard base64, `x5c` (section
    /// 4.7).
    pub x509_chain: Option<Texts>,
    /// The SHA-1 digest of the key's certificate in base64url, `x5t` (section 4.8).
    pub x509_sha1_fingerprint: Option<Text>,
    /// The SHA-256 digest of the key's certificate in base64url, `x5t#S256` (section 4.9).
    pub x509_sha256_fingerprint: Option<Text>,
}

impl CommonParameters {
    ghost use Rattle.jwt_params.specs.Common.{ReadsCommon, common_value, with_common};
    ghost use Rattle.jwt_params.specs.Common.{normal_common};
    ghost use Rattle.jwt_params.specs.declared.common.CommonParameters.{CommonParameters};

    /// Returns the parameters that a JSON object has under the eight names; each may be absent or
    /// null, and further members are ignored. A value that is not an object and a member of a wrong
    /// type are refused with `Json`.
    pub fn from_value(alloc: Global, value: &Value) -> Result<CommonParameters>
        ensures ok { IfOk result (ReadsCommon (view value.now)) }
        ensures normal { IfOk result (λ c. normal_common c ≡ c) }
        ensures err { IfErr result (RefusesAs kind.Json
            ((c : CommonParameters) → ¬ ReadsCommon (view value.now) c)) }
    {
        CommonParameters::read(alloc, value)
    }

    /// Returns the JSON object of the parameters that are present. The only refusal is
    /// `OutOfMemory`.
    pub fn to_value(&self, alloc: Global) -> Result<Value>
        ensures ok { IfOk result (λ v. view v ≡ common_value self.now) }
        ensures reads_back { IfOk result (λ v. ReadsCommon (view v) (normal_common self.now)) }
        ensures err { IfErr result IsMemory }
    {
        let members = self.with_members(alloc, Map::new(alloc))?;
        Ok(Value::Object(members))
    }

    /// Returns the members, together with the parameters that are present. The only refusal is
    /// `OutOfMemory`.
    pub fn with_members(
        &self,
        alloc: Global,
        members: Map<String, Value>,
    ) -> Result<Map<String, Value>>
        ensures ok { IfOk result (λ all. members_view all.entries
            ≡ with_common self.now (members_view members.entries)) }
        ensures err { IfErr result IsMemory }
    {
        // from the last to the first: the member that is put last is outermost in `with_common`
        let mut all = members;
        put_optional_text(alloc, &mut all, "x5t#S256", &self.x509_sha256_fingerprint)?;
        put_optional_text(alloc, &mut all, "x5t", &self.x509_sha1_fingerprint)?;
        put_optional_texts(alloc, &mut all, "x5c", &self.x509_chain)?;
        put_optional_text(alloc, &mut all, "x5u", &self.x509_url)?;
        put_optional_text(alloc, &mut all, "kid", &self.key_id)?;
        put_algorithm(alloc, &mut all, &self.key_algorithm)?;
        put_operations(alloc, &mut all, &self.key_operations)?;
        put_use(alloc, &mut all, &self.public_key_use)?;
        Ok(all)
    }

    /// Returns a copy. The only refusal is `OutOfMemory`.
    pub fn clone(&self, alloc: Global) -> Result<CommonParameters>
        ensures ok { IfOk result (λ c. c ≡ self.now) }
        ensures err { IfErr result IsMemory }
    {
        Ok(CommonParameters {
            public_key_use: clone_option(alloc, &self.public_key_use)?,
            key_operations: clone_option(alloc, &self.key_operations)?,
            key_algorithm: self.key_algorithm,
            key_id: clone_option(alloc, &self.key_id)?,
            x509_url: clone_option(alloc, &self.x509_url)?,
            x509_chain: clone_option(alloc, &self.x509_chain)?,
            x509_sha1_fingerprint: clone_option(alloc, &self.x509_sha1_fingerprint)?,
            x509_sha256_fingerprint: clone_option(alloc, &self.x509_sha256_fingerprint)?,
        })
    }

    fn read(alloc: Global, value: &Value) -> Result<CommonParameters>
        ensures ok { IfOk result (ReadsCommon (view value.now)) }
        ensures err { IfErr result (RefusesAs kind.Json
            ((c : CommonParameters) → ¬ ReadsCommon (view value.now) c)) }
    {
        if !value.is_object() {
            return Err(new_error(ErrorKind::Json));
        }
        Ok(CommonParameters {
            public_key_use: optional_use(alloc, value)?,
            key_operations: optional_operations(alloc, value)?,
            key_algorithm: optional_algorithm(value)?,
            key_id: optional_text(alloc, value, "kid")?,
            x509_url: optional_text(alloc, value, "x5u")?,
            x509_chain: optional_texts(alloc, value, "x5c")?,
            x509_sha1_fingerprint: optional_text(alloc, value, "x5t")?,
            x509_sha256_fingerprint: optional_text(alloc, value, "x5t#S256")?,
        })
    }
}

/// Returns the names of the members that keys of every type may have (RFC 7517 sections 4.2 to
/// 4.9).
pub fn common_names() -> [&'static str; 8]
    ensures { map (λ s. s.now) result ≡ common_names }
{
    [
        "use", "key_ops", "alg", "kid", "x5u", "x5c", "x5t", "x5t#S256",
    ]
}

/// Has no parameters.
impl Default for CommonParameters {
    ghost use Rattle.jwt_params.specs.Common.{no_common};

    ghost is_default = { λ c. c ≡ no_common };

    fn default() -> CommonParameters {
        CommonParameters {
            public_key_use: None,
            key_operations: None,
            key_algorithm: None,
            key_id: None,
            x509_url: None,
            x509_chain: None,
            x509_sha1_fingerprint: None,
            x509_sha256_fingerprint: None,
        }
    }
}

/// Compares the fields.
impl PartialEq for CommonParameters {
    ghost use Rattle.std.specs.Cmp.{partial_equiv_from_equiv};
    ghost use Rattle.jwt_params.specs.equality.CommonSame.{common_eq, common_eq_equiv};

    ghost eq = { common_eq };

    ghost laws = { partial_equiv_from_equiv common_eq_equiv };

    fn eq(&self, other: &CommonParameters) -> bool
        ensures test { result ≡ common_eq self.now other.now }
        ensures same { IsTrue result ↔ (self.now ≡ other.now) }
    {
        self.is_same(other)
    }
}

impl Eq for CommonParameters {
    ghost use Rattle.jwt_params.specs.equality.CommonSame.{common_eq_equiv};

    ghost laws = { common_eq_equiv };
}

impl CommonParameters {
    ghost use Rattle.jwt_params.specs.equality.CommonSame.{common_eq};

    // apart from `eq`, whose contract has two clauses over what this one finds
    fn is_same(&self, other: &CommonParameters) -> bool
        ensures { result ≡ common_eq self.now other.now }
    {
        self.public_key_use == other.public_key_use
            && self.key_operations == other.key_operations
            && self.key_algorithm == other.key_algorithm
            && self.key_id == other.key_id
            && self.x509_url == other.x509_url
            && self.x509_chain == other.x509_chain
            && self.x509_sha1_fingerprint == other.x509_sha1_fingerprint
            && self.x509_sha256_fingerprint == other.x509_sha256_fingerprint
    }
}

/// Feeds the fields.
impl Hash for CommonParameters {
    ghost use Rattle.jwt_params.specs.equality.CommonSame.{common_fed, common_alike};

    ghost hash_input = { common_fed };

    ghost respects_eq = { common_alike.fed };

    fn hash<H: Hasher>(&self, state: &mut H) {
        self.public_key_use.hash(state);
        self.key_operations.hash(state);
        self.key_algorithm.hash(state);
        self.key_id.hash(state);
        self.x509_url.hash(state);
        self.x509_chain.hash(state);
        self.x509_sha1_fingerprint.hash(state);
        self.x509_sha256_fingerprint.hash(state);
    }
}

fn put_algorithm(
    alloc: Global,
    members: &mut Map<String, Value>,
    algorithm: &Option<KeyAlgorithm>,
) -> Result<()>
    ensures ok { OnOk result (members_view members.new.entries
        ≡ put_some (codes "alg") (option_map key_algorithm_value algorithm.now)
        (members_view members.old.entries)) }
    ensures err { IfErr result IsMemory }
{
    match algorithm {
        Some(algorithm) => put_text(alloc, members, "alg", algorithm.name()),
        None => Ok(()),
    }
}

fn put_operations(
    alloc: Global,
    members: &mut Map<String, Value>,
    operations: &Option<KeyOperationList>,
) -> Result<()>
    ensures ok { OnOk result (members_view members.new.entries
        ≡ put_some (codes "key_ops") (option_map operations_value operations.now)
        (members_view members.old.entries)) }
    ensures err { IfErr result IsMemory }
{
    match operations {
        Some(operations) => {
            let value = operations.to_value(alloc)?;
            serde_json::put(members, alloc, "key_ops", value)?;
            Ok(())
        }
        None => Ok(()),
    }
}

fn put_use(
    alloc: Global,
    members: &mut Map<String, Value>,
    public_key_use: &Option<PublicKeyUse>,
) -> Result<()>
    ensures ok { OnOk result (members_view members.new.entries
        ≡ put_some (codes "use") (option_map use_value public_key_use.now)
        (members_view members.old.entries)) }
    ensures err { IfErr result IsMemory }
{
    match public_key_use {
        Some(public_key_use) => put_text(alloc, members, "use", public_key_use.as_str()),
        None => Ok(()),
    }
}

fn optional_use(alloc: Global, value: &Value) -> Result<Option<PublicKeyUse>>
    ensures ok { IfOk result (λ u. optional use_from (get (codes "use") (view value.now))
        ≡ Some u) }
    ensures err { IfErr result
        (RefusesAs kind.Json (optional use_from (get (codes "use") (view value.now)) ≡ None)) }
{
    match present(value, "use") {
        None => Ok(None),
        Some(member) => Ok(Some(PublicKeyUse::from_value(alloc, member)?)),
    }
}

fn optional_operations(alloc: Global, value: &Value) -> Result<Option<KeyOperationList>>
    ensures ok { IfOk result (λ o. optional operations_from (get (codes "key_ops") (view value.now))
        ≡ Some o) }
    ensures err { IfErr result
        (RefusesAs kind.Json (optional operations_from (get (codes "key_ops") (view value.now))
        ≡ None)) }
{
    match present(value, "key_ops") {
        None => Ok(None),
        Some(member) => Ok(Some(KeyOperationList::from_value(alloc, member)?)),
    }
}

fn optional_algorithm(value: &Value) -> Result<Option<KeyAlgorithm>>
    ensures ok { IfOk result (λ a. optional key_algorithm_from (get (codes "alg") (view value.now))
        ≡ Some a) }
    ensures err { IfErr result
        (RefusesAs kind.Json (optional key_algorithm_from (get (codes "alg") (view value.now))
        ≡ None)) }
{
    match present(value, "alg") {
        None => Ok(None),
        Some(member) => Ok(Some(KeyAlgorithm::from_value(member)?)),
    }
}
